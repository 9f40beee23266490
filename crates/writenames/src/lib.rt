// The writing of a code's strings and names: a code string, a tuple of names, and the local names in their groups.
// What is asked of the stores was tested with the code: the names of a chain are sound strings.
#![tactic(auto)]

ghost use Rattle.std.specs.Prelude.{◌≡◌, cond, ◌+◌, ◌≤◌, ◌<◌};
ghost use Rattle.writing.specs.Writing.{ended};
ghost use Rattle.writing.specs.Steps.{string_part};
ghost use Rattle.output.specs.Puts.{Open, Puts};
ghost use Rattle.writecheck.specs.Looking.{lent_of, StringAt};
ghost use Rattle.cellnames.specs.Groups.{Listed};
ghost use Rattle.writenames.specs.Names.{Chained, Spelt, Tuples, Localed, names_from, names_of, locals_of};
ghost use Rattle.writenames.specs.Groups.{Group, AllGroups};

use grammar::WRITTEN_TUPLE;
use refusals::{Fault, Refusal};
use writecheck::{Bounded, Lent};

// A code string.
pub fn write_string(
    lent: &Lent,
    out: &mut [u8],
    allowance: u32,
    node: u32,
    at: u32,
) -> Result<u32, Fault>
    requires { Open at out.old × StringAt lent.now node }
    ensures { Puts (string_part (lent_of lent.now) allowance node) at out.old result out.new }
{
    if allowance == 0 {
        return Err(Refusal::TooDeep.at(node));
    }
    let n = stores::node_of(lent.nodes, node);
    outputtext::write_marshal_str(out, at, output::contents(lent.input, n.place, n.size))
}

// The names of a chain, one after another.
fn write_names(
    lent: &Lent,
    out: &mut [u8],
    allowance: u32,
    first: u32,
    count: u32,
    at: u32,
) -> Result<u32, Fault>
    requires { Open at out.old × Chained (lent_of lent.now) count first × Spelt (lent_of lent.now) count first }
    ensures { Puts (names_from (lent_of lent.now) allowance count first) at out.old result out.new }
{
    let mut entry = first;
    let mut end = at;
    for _ in 0..count {
        let name = stores::child_of(lent.entries, entry);
        end = write_string(lent, out, allowance, name, end)?;
        entry = stores::next_of(lent.entries, entry);
    }
    Ok(end)
}

// A tuple of names.
pub fn write_marshal_name_tuple(
    lent: &Lent,
    out: &mut [u8],
    allowance: u32,
    node: u32,
    at: u32,
) -> Result<u32, Fault>
    requires { Open at out.old × Tuples (lent_of lent.now) node }
    ensures { Puts (names_of (lent_of lent.now) allowance node) at out.old result out.new }
{
    if allowance == 0 {
        return Err(Refusal::TooDeep.at(node));
    }
    let n = stores::node_of(lent.nodes, node);
    let a = output::write_len(out, at, WRITTEN_TUPLE, n.count)?;
    write_names(lent, out, allowance - 1, n.first, n.count, a)
}

// A name, if it is one of its group.
fn write_member(
    lent: &Lent,
    out: &mut [u8],
    allowance: u32,
    member: bool,
    node: u32,
    at: u32,
) -> Result<u32, Fault>
    requires { Open at out.old × StringAt lent.now node }
    ensures { Puts (cond member (string_part (lent_of lent.now) allowance node) ended) at out.old result out.new }
{
    if !member {
        return Ok(at);
    }
    write_string(lent, out, allowance, node, at)
}

// Where names end, and how many are counted up to there.
#[derive(Clone, Copy)]
pub struct Grouped {
    pub at: u32,
    pub counted: u32,
}

// The names in the group of a bit, counted on from those before them.
fn write_group(
    lent: &Lent,
    out: &mut [u8],
    allowance: u32,
    locals: cellnames::Locals,
    bit: u32,
    at: u32,
    counted: u32,
) -> Result<Grouped, Fault>
    requires { Open at out.old × Listed (lent_of lent.now) locals × (0 < bit) × (counted + locals.count ≤ 4294967295) }
    ensures { Group (lent_of lent.now) allowance locals bit counted at out.old result out.new }
{
    let kinds = locals.kinds as usize;
    let count = locals.count;
    let mut entry = locals.first;
    let mut end = at;
    let mut n = counted;
    for i in 0..count {
        let kind = lent.input[kinds + i as usize];
        let name = stores::child_of(lent.entries, entry);
        let member = cellnames::belongs(lent, locals, bit, kind, name);
        end = write_member(lent, out, allowance, member, name, end)?;
        n += u32::from(member);
        entry = stores::next_of(lent.entries, entry);
    }
    Ok(Grouped {
        at: end,
        counted: n,
    })
}

// The three groups of local names: Local, Cell whose name equals no Local name, Free.
fn write_groups(
    values: &Bounded,
    out: &mut [u8],
    allowance: u32,
    locals: cellnames::Locals,
    at: u32,
) -> Result<Grouped, Fault>
    requires { Open at out.old × Listed (lent_of values.now.lent) locals }
    ensures { AllGroups (lent_of values.now.lent) allowance locals at out.old result out.new }
{
    let local = write_group(
        &values.lent,
        out,
        allowance,
        locals,
        cellnames::LOCAL,
        at,
        0,
    )?;
    let cell = write_group(
        &values.lent,
        out,
        allowance,
        locals,
        cellnames::CELL,
        local.at,
        local.counted,
    )?;
    write_group(
        &values.lent,
        out,
        allowance,
        locals,
        cellnames::FREE,
        cell.at,
        cell.counted,
    )
}

// The tuple of local names, in their groups; the kinds stand in another part. The count, which is not known before, comes over a 0.
pub fn write_locals(
    values: &Bounded,
    out: &mut [u8],
    allowance: u32,
    kinds: u32,
    node: u32,
    at: u32,
) -> Result<u32, Fault>
    requires { Open at out.old × Localed (lent_of values.now.lent) kinds node }
    ensures { Puts (locals_of (lent_of values.now.lent) allowance kinds node) at out.old result out.new }
{
    if allowance == 0 {
        return Err(Refusal::TooDeep.at(node));
    }
    let n = stores::node_of(values.lent.nodes, node);
    let k = stores::node_of(values.lent.nodes, kinds);
    let locals = cellnames::Locals {
        first: n.first,
        count: n.count,
        kinds: k.place,
    };
    let a = output::write_len(out, at, WRITTEN_TUPLE, 0)?;
    let names = write_groups(values, out, allowance - 1, locals, a)?;
    output::store_u32(out, at as usize + 1, names.counted);
    Ok(names.at)
}
