// The writing of a value of lent stores, whatever stands in them: a node up to its children, then its row or its parts.
// A writer of values and writers of children and parts call one another, and the nesting allowance falls each time.
#![tactic(auto)]

ghost use Rattle.std.specs.Prelude.{◌≡◌, true, ◌+◌, ◌≤◌, length};
ghost use Rattle.grammar.specs.Letters.{class_of};
ghost use Rattle.grammar.specs.Record;
ghost use Rattle.fields.specs.Classes.{class_at};
ghost use Rattle.stores.specs.Written.{node_of};
ghost use Rattle.writing.specs.Canonical.{shown_line};
ghost use Rattle.writing.specs.Steps.{writing};
ghost use Rattle.output.specs.Puts.{Open, Puts};
ghost use Rattle.writecheck.specs.Looking.{lent_of, Held};
ghost use Rattle.underway.specs.Rows.{closed};
ghost use Rattle.writevalue.specs.Heads.{eight_at, whole_of, row_of, parts_of, Fronts, Heads, Levels, Coded};
ghost use Rattle.writevalue.specs.Parts.{PartIn, row_written, part_written, parts_written};

use grammar::{
    CODE_LETTER, CODE_NUMBERS, CODE_PART, CODE_PARTS, EXCEPTIONS_PART, FILE_PART, FLOAT_LETTER,
    KINDS_PART, LINES_PART, LOCALS_PART, NAME_PART, NAMES_PART, QUALIFIED_NAME_PART, WRITTEN_BYTES,
    WRITTEN_CODE, WRITTEN_COMPLEX, WRITTEN_DICT, WRITTEN_FLOAT, WRITTEN_INT, WRITTEN_NULL,
    WRITTEN_SLICE, WRITTEN_TUPLE, WRITTEN_UNICODE,
};
use refusals::{Fault, Refusal};
use writecheck::{Bounded, Lent};

// What stands in front of a node's children: it is whole already; or its row comes next, of a dict's pairs or not; or a code's parts do.
#[derive(Clone, Copy)]
pub enum Opened {
    Done(u32),
    Row(u32, bool),
    Parts(u32),
}

// `with_row`, `with_parts` are alike: one line each; by `?` in each arm of `write_front` they would be thirteen goals more.
fn whole(wrote: Result<u32, Fault>) -> Result<Opened, Fault>
    ensures { result ≡ whole_of wrote }
{
    let a = wrote?;
    Ok(Opened::Done(a))
}

fn with_row(wrote: Result<u32, Fault>, pairs: bool) -> Result<Opened, Fault>
    ensures { result ≡ row_of pairs wrote }
{
    let a = wrote?;
    Ok(Opened::Row(a, pairs))
}

fn with_parts(wrote: Result<u32, Fault>) -> Result<Opened, Fault>
    ensures { result ≡ parts_of wrote }
{
    let a = wrote?;
    Ok(Opened::Parts(a))
}

// Eight bytes: a float, or a whole number.
fn write_eight(s: &[u8], out: &mut [u8], letter: u32, place: u32, at: u32) -> Result<u32, Fault>
    requires { Open at out.old × (place + 8 ≤ length s.now) }
    ensures { Puts (eight_at s.now letter place) at out.old result out.new }
{
    if letter == FLOAT_LETTER {
        return output::write_slice(out, at, WRITTEN_FLOAT, output::contents(s, place, 8));
    }
    outputlongs::write_int64(out, at, fields::le64(s, place as usize))
}

// A node's own bytes, in front of its children.
fn write_front(
    values: &Bounded,
    out: &mut [u8],
    n: stores::Node,
    class: u32,
    at: u32,
) -> Result<Opened, Fault>
    requires { Open at out.old × (Record.sound values.now.lent.input.now (node_of n) ≡ true) × (class_at class ≡ class_of n.letter) }
    ensures { Fronts values.now.lent.input.now (node_of n) (class_of n.letter) at out.old result out.new }
{
    let s = values.lent.input;
    match class {
        fields::SINGLE_CLASS => whole(output::write_u8(out, at, n.letter as u8)),
        fields::FIXED4_CLASS => {
            let four = output::contents(s, n.place, 4);
            whole(output::write_slice(out, at, WRITTEN_INT, four))
        }
        fields::FIXED8_CLASS => whole(write_eight(s, out, n.letter, n.place, at)),
        fields::DOUBLE_CLASS => {
            let both = output::contents(s, n.place, 16);
            whole(output::write_slice(out, at, WRITTEN_COMPLEX, both))
        }
        fields::LONG_CLASS => whole(outputlongs::write_pylong(out, at, s, n.place, n.size)),
        fields::SEQUENCE_CLASS => with_row(
            output::write_len(out, at, n.letter as u8, n.count),
            false,
        ),
        fields::FEW_CLASS => with_row(output::write_len(out, at, WRITTEN_TUPLE, n.count), false),
        fields::SLICE_CLASS => with_row(output::write_u8(out, at, WRITTEN_SLICE), false),
        fields::DICT_CLASS => with_row(output::write_u8(out, at, WRITTEN_DICT), true),
        fields::BYTES_CLASS => {
            let bytes = output::contents(s, n.place, n.size);
            whole(output::write_vec(out, at, WRITTEN_BYTES, bytes))
        }
        fields::TEXT_CLASS => {
            let text = output::contents(s, n.place, n.size);
            whole(output::write_vec(out, at, WRITTEN_UNICODE, text))
        }
        fields::SHORT_CLASS => {
            let short = output::contents(s, n.place, n.size);
            whole(output::write_vec(out, at, WRITTEN_UNICODE, short))
        }
        _ => {
            let numbers = output::contents(s, n.place, CODE_NUMBERS);
            with_parts(output::write_slice(out, at, WRITTEN_CODE, numbers))
        }
    }
}

// Whether no level is left for a node, or for the body of a code.
fn too_deep(lent: &Lent, allowance: u32, node: u32) -> bool
    ensures { Levels lent.now.nodes.now lent.now.used.nodes allowance node result }
{
    if allowance == 0 {
        return true;
    }
    if allowance != 1 {
        return false;
    }
    if stores::nodes_in(lent.nodes, lent.used.nodes) <= node {
        return false;
    }
    let n = stores::node_of(lent.nodes, node);
    n.letter == CODE_LETTER
}

// A node up to its children: its levels, its record, and its own bytes.
fn open_node(
    values: &Bounded,
    out: &mut [u8],
    allowance: u32,
    node: u32,
    at: u32,
) -> Result<Opened, Fault>
    requires { Open at out.old }
    ensures { Heads (lent_of values.now.lent) allowance node at out.old result out.new }
{
    if too_deep(&values.lent, allowance, node) {
        return Err(Refusal::TooDeep.at(node));
    }
    if !writecheck::look(values, node) {
        return Err(Refusal::BadTable.at(node));
    }
    let n = stores::node_of(values.lent.nodes, node);
    write_front(values, out, n, fields::class_of(n.letter), at)
}

// What stands behind a row.
// Pairs end with a letter and rows with nothing: one bit of the row's head, no choice of steps.
fn close_row(out: &mut [u8], at: u32, pairs: bool) -> Result<u32, Fault>
    requires { Open at out.old }
    ensures { Puts (closed pairs) at out.old result out.new }
{
    if pairs {
        return output::write_u8(out, at, WRITTEN_NULL);
    }
    Ok(at)
}

// A first line of 0 or less is written as 0.
fn shown(line: u32) -> u32
    ensures { result ≡ shown_line line }
{
    if line < 0x8000_0000 {
        return line;
    }
    0
}

// A value.
#[cycle(write_children_write_part_write_parts_write_value)]
pub fn write_value(
    values: &Bounded,
    out: &mut [u8],
    allowance: u32,
    node: u32,
    at: u32,
) -> Result<u32, Fault>
    requires { Open at out.old }
    ensures { Puts (writing allowance (lent_of values.now.lent) node) at out.old result out.new }
{
    match open_node(values, out, allowance, node, at)? {
        Opened::Done(a) => Ok(a),
        Opened::Row(a, pairs) => {
            let b = write_children(values, out, allowance - 1, node, a)?;
            close_row(out, b, pairs)
        }
        Opened::Parts(a) => write_parts(values, out, allowance - 2, node, a),
    }
}

// The children of a container, one after another, each with the allowance that is left to them.
#[cycle(write_children_write_part_write_parts_write_value)]
fn write_children(
    values: &Bounded,
    out: &mut [u8],
    allowance: u32,
    node: u32,
    at: u32,
) -> Result<u32, Fault>
    requires { Open at out.old × Held (lent_of values.now.lent) node }
    ensures { Puts (row_written (lent_of values.now.lent) allowance node) at out.old result out.new }
{
    let n = stores::node_of(values.lent.nodes, node);
    let count = n.count;
    let mut e = n.first;
    let mut i = 0u32;
    let mut p = at;
    loop {
        let row = writeleaves::write_leaves(values, out, allowance, count, e, i, p)?;
        if count <= row.done {
            return Ok(row.at);
        }
        let child = stores::child_of(values.lent.entries, row.entry);
        p = write_value(values, out, allowance, child, row.at)?;
        e = stores::next_of(values.lent.entries, row.entry);
        i = row.done + 1;
    }
}

// A part of a code: as bytes, as names, as local names, as a code string, or as any value is, as its constants are; the first line
// comes before the ninth.
#[cycle(write_children_write_part_write_parts_write_value)]
fn write_part(
    values: &Bounded,
    out: &mut [u8],
    allowance: u32,
    line: u32,
    kinds: u32,
    part: u32,
    node: u32,
    at: u32,
) -> Result<u32, Fault>
    requires { Open at out.old × PartIn (lent_of values.now.lent) kinds part node }
    ensures { Puts (part_written (lent_of values.now.lent) allowance line kinds part node) at out.old result out.new }
{
    match part {
        CODE_PART => writeleaves::write_bytes(&values.lent, out, allowance, node, at),
        NAMES_PART => writenames::write_marshal_name_tuple(&values.lent, out, allowance, node, at),
        LOCALS_PART => writenames::write_locals(values, out, allowance, kinds, node, at),
        KINDS_PART => writeleaves::write_bytes(&values.lent, out, allowance, node, at),
        FILE_PART => writenames::write_string(&values.lent, out, allowance, node, at),
        NAME_PART => writenames::write_string(&values.lent, out, allowance, node, at),
        QUALIFIED_NAME_PART => writenames::write_string(&values.lent, out, allowance, node, at),
        LINES_PART => {
            let a = output::write_u32(out, at, shown(line))?;
            writeleaves::write_bytes(&values.lent, out, allowance, node, a)
        }
        EXCEPTIONS_PART => writeleaves::write_bytes(&values.lent, out, allowance, node, at),
        _ => write_value(values, out, allowance, node, at),
    }
}

// The ten parts of a code.
#[cycle(write_children_write_part_write_parts_write_value)]
fn write_parts(
    values: &Bounded,
    out: &mut [u8],
    allowance: u32,
    node: u32,
    at: u32,
) -> Result<u32, Fault>
    requires { Open at out.old × Coded (lent_of values.now.lent) node }
    ensures { Puts (parts_written (lent_of values.now.lent) allowance node) at out.old result out.new }
{
    let n = stores::node_of(values.lent.nodes, node);
    let line = fields::le32(values.lent.input, n.place as usize + n.size as usize);
    let kinds = writecheck::part_at(values.lent.entries, n.first, KINDS_PART);
    let mut entry = n.first;
    let mut end = at;
    for part in 0..CODE_PARTS {
        let child = stores::child_of(values.lent.entries, entry);
        end = write_part(values, out, allowance, line, kinds, part, child, end)?;
        entry = stores::next_of(values.lent.entries, entry);
    }
    Ok(end)
}
