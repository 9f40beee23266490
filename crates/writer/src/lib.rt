// The entry of writing: `serialize_value` with code objects, for any input, stores, counts, nesting and output.
// It cuts the limits, has the value written, and clears what lies behind it, or all where the writing is refused.
#![tactic(auto)]

ghost use Rattle.std.specs.Prelude.{◌≡◌, ◌≤◌, min, length};
ghost use Rattle.grammar.specs.Record.{tables_of};
ghost use Rattle.writing.specs.Answer.{most_output};
ghost use Rattle.writer.specs.Entry.{Serializes};

use refusals::{Fault, Refusal};
use writecheck::{Bounded, Lent, Used};

// How many bytes of an output count.
fn counted(room: usize) -> usize
    ensures { (result ≡ min room most_output) × (result ≤ room) × (result ≤ most_output) }
{
    if room < refusals::NOTHING as usize {
        return room;
    }
    refusals::NOTHING as usize
}

// Writes the value of node `root` into `out`, for any input, stores, counts, nesting and output.
// After the value come zeros; on a refusal `out` is all zero.
pub fn serialize_value(
    input: &[u8],
    nodes: &[u32],
    entries: &[u32],
    used_nodes: u32,
    used_entries: u32,
    root: u32,
    nesting: u32,
    out: &mut [u8],
) -> Result<u32, Fault>
    ensures { Serializes (tables_of input.now nodes.now entries.now used_nodes used_entries) root nesting (length out.old) result out.new }
{
    if (refusals::MOST_BYTES as usize) < input.len() {
        clearing::clear_bytes(out);
        return Err(Refusal::InputTooLong.at(0));
    }
    let used = Used {
        nodes: used_nodes,
        entries: used_entries,
    };
    let lent = Lent {
        input,
        nodes,
        entries,
        used,
    };
    let values = Bounded { lent };
    let allowance = stores::at_most(nesting as usize, refusals::MOST_NESTING);
    let room = counted(out.len());
    match writevalue::write_value(&values, &mut out[..room], allowance, root, 0) {
        Ok(a) => {
            clearing::clear_bytes(&mut out[a as usize..]);
            Ok(a)
        }
        Err(fault) => {
            clearing::clear_bytes(out);
            Err(fault)
        }
    }
}
