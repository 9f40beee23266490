// The writing of leaves of common kinds: an integer of four bytes, bytes, a string; and of a row of children as far as they are such.
// Which leaves are taken is left open: what is not taken is left to the writer of values, and the writing is the same.
#![tactic(auto)]

ghost use Rattle.std.specs.Prelude.{◌≡◌, true, ◌-◌, ◌≤◌};
ghost use Rattle.std.proofs.Math.Option.{none};
ghost use Rattle.grammar.specs.Steps.{as_bytes};
ghost use Rattle.grammar.specs.Record;
ghost use Rattle.stores.specs.Written.{node_of};
ghost use Rattle.writing.specs.Steps.{writing};
ghost use Rattle.output.specs.Puts.{Open, Puts};
ghost use Rattle.chains.specs.Chained.{is_some};
ghost use Rattle.writecheck.specs.Looking.{lent_of};
ghost use Rattle.writeleaves.specs.Leaves.{text_if, LeafIs, Leaves, Leads, Rows};

use grammar::{BYTES_LETTER, INT_LETTER, WRITTEN_BYTES, WRITTEN_INT, WRITTEN_UNICODE};
use refusals::{Fault, Refusal};
use writecheck::{Bounded, Lent};

// How a node without children is written that is of a common kind and whose record is sound: four bytes from a place on,
// or a letter, and so many bytes from a place on.
#[derive(Clone, Copy)]
pub enum Leaf {
    Four(u32),
    Sized(u8, u32, u32),
}

// Whether the text is formed is told by its caller's test: a chain of two `if`s in each arm would be longer.
fn text_if(formed: bool, place: u32, size: u32) -> Option<Leaf>
    ensures { result ≡ text_if formed place size }
{
    if formed {
        Some(Leaf::Sized(WRITTEN_UNICODE, place, size))
    } else {
        None
    }
}

fn text_of(values: &Bounded, n: stores::Node) -> Option<Leaf>
    ensures { LeafIs values.now.lent.input.now (node_of n) result }
{
    if !chains::is_string(n.letter) {
        return None;
    }
    text_if(soundness::text_sound(values.lent.input, n), n.place, n.size)
}

fn leaf_of(values: &Bounded, n: stores::Node) -> Option<Leaf>
    ensures { LeafIs values.now.lent.input.now (node_of n) result }
{
    if n.count != 0 {
        return None;
    }
    if values.lent.input.len() < n.place as usize + n.size as usize {
        return None;
    }
    let letter = n.letter;
    match letter {
        INT_LETTER => {
            if n.size != 4 {
                return None;
            }
            Some(Leaf::Four(n.place))
        }
        BYTES_LETTER => Some(Leaf::Sized(WRITTEN_BYTES, n.place, n.size)),
        _ => text_of(values, n),
    }
}

// The same of a node of the stores that has a level left.
fn leaf_at(values: &Bounded, allowance: u32, node: u32) -> Option<Leaf>
    ensures { Leaves values.now.lent.input.now values.now.lent.nodes.now values.now.lent.used allowance node result }
{
    if allowance == 0 {
        return None;
    }
    if stores::nodes_in(values.lent.nodes, values.lent.used.nodes) <= node {
        return None;
    }
    leaf_of(values, stores::node_at(values.lent.nodes, node))
}

// A node that is a leaf of a common kind: where it ends; or it is no such leaf, and nothing is written.
fn write_leaf(
    values: &Bounded,
    out: &mut [u8],
    allowance: u32,
    node: u32,
    at: u32,
) -> Result<Option<u32>, Fault>
    requires { Open at out.old }
    ensures { Leads values.now.lent.input.now values.now.lent.nodes.now values.now.lent.used allowance node at out.old result out.new }
{
    match leaf_at(values, allowance, node) {
        None => Ok(None),
        Some(Leaf::Four(place)) => {
            let four = output::contents(values.lent.input, place, 4);
            Ok(Some(output::write_slice(out, at, WRITTEN_INT, four)?))
        }
        Some(Leaf::Sized(letter, place, size)) => {
            let bytes = output::contents(values.lent.input, place, size);
            Ok(Some(output::write_vec(out, at, letter, bytes)?))
        }
    }
}

// How far a row of children is written: the entry that comes next, how many are done, and the place behind them.
#[derive(Clone, Copy)]
pub struct Rowed {
    pub entry: u32,
    pub done: u32,
    pub at: u32,
}

// The leaves of common kinds that come next in a row. What comes behind them is left to `write_value`.
pub fn write_leaves(
    values: &Bounded,
    out: &mut [u8],
    allowance: u32,
    count: u32,
    first: u32,
    done: u32,
    at: u32,
) -> Result<Rowed, Fault>
    requires { Open at out.old × (done ≤ count) × (is_some (Record.chain (lent_of values.now.lent) (count - done) first) ≡ true) }
    ensures { Rows (lent_of values.now.lent) allowance count first done at out.old result out.new }
{
    // A copy, which the output cannot overlap: its parts are not read again for each leaf.
    let held = *values;
    let mut entry = first;
    let mut at = at;
    for i in done..count {
        let child = stores::child_at(held.lent.entries, entry);
        match write_leaf(&held, out, allowance, child, at)? {
            None => {
                return Ok(Rowed { entry, done: i, at });
            }
            Some(end) => {
                at = end;
            }
        }
        entry = stores::next_at(held.lent.entries, entry);
    }
    Ok(Rowed {
        entry,
        done: count,
        at,
    })
}

// Bytes of a code.
pub fn write_bytes(
    lent: &Lent,
    out: &mut [u8],
    allowance: u32,
    node: u32,
    at: u32,
) -> Result<u32, Fault>
    requires { Open at out.old × (Record.suited (lent_of lent.now) as_bytes node (Record.whole (lent_of lent.now) node) ≡ none) }
    ensures { Puts (writing allowance (lent_of lent.now) node) at out.old result out.new }
{
    if allowance == 0 {
        return Err(Refusal::TooDeep.at(node));
    }
    let n = stores::node_of(lent.nodes, node);
    let bytes = output::contents(lent.input, n.place, n.size);
    output::write_vec(out, at, WRITTEN_BYTES, bytes)
}
