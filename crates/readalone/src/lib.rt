// One value of a golden, read from its part of the file alone. The stores are working room: each value has all of it, and it is zero
// afterwards.
#![tactic(auto)]

ghost use Rattle.std.specs.Prelude.{◌≡◌, ◌≤◌, length};
ghost use Rattle.clearing.specs.Lent.{zeros};
ghost use Rattle.grammar.specs.Numbered.{numbered};
ghost use Rattle.reader.specs.Delivered;
ghost use Rattle.readalone.specs.Alone.{lent, alone, Fitting, placed_counts};

use refusals::Fault;

// The reader's answer, with its place in the file: how many bytes the value takes.
fn placed(answer: Result<reader::Read, Fault>, start: u32) -> Result<u32, Fault>
    requires { Fitting start (Delivered.answer_of answer) }
    ensures { numbered result ≡ placed_counts start (Delivered.answer_of answer) }
{
    match answer {
        Ok(read) => Ok(read.consumed),
        Err(fault) => Err(fault.refusal.at(start + fault.place)),
    }
}

// The value at the front of a part that starts at a place of the file: how many bytes it takes.
// The three stores stand one by one: in a struct behind a `&mut`, that each store of the caller who lends them is zero afterwards stayed open,
// and a struct of them by value the borrow checker does not cover.
pub fn read_alone(
    part: &[u8],
    start: u32,
    nodes: &mut [u32],
    entries: &mut [u32],
    slots: &mut [u32],
    nesting: u32,
) -> Result<u32, Fault>
    requires { start ≤ 16777216 }
    ensures { (numbered result ≡ alone (lent (length nodes.old) (length entries.old) (length slots.old) nesting) start part.now)
        × (nodes.new ≡ zeros (length nodes.old)) × (entries.new ≡ zeros (length entries.old)) × (slots.new ≡ zeros (length slots.old)) }
{
    let answer = reader::deserialize_value(part, nodes, entries, slots, nesting);
    clearing::clear_words(nodes);
    clearing::clear_words(entries);
    clearing::clear_words(slots);
    placed(answer, start)
}
