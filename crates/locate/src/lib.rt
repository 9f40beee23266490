// The line table of a code object by its node: the slice at a bytes node's place and size is handed on to the location reader.
#![tactic(auto)]

ghost use Rattle.std.specs.Prelude.{◌≡◌, length};
ghost use Rattle.linetable.specs.Answer.{answer, numbered, records_of};
ghost use Rattle.locate.specs.Part.{located_node};

use linetable::Located;
use refusals::{Fault, Refusal};

// Four numbers for each instruction, as `linetable_to_records` gives them for the node's bytes.
// C lends the input, the nodes with the count of those that are used, and the store of the records.
#[tactic(auto, using(crate::proofs::Sound::other), unfolding(linetable::specs::Answer::records_of))]
pub fn locate_node(
    input: &[u8],
    nodes: &[u32],
    used: u32,
    node: u32,
    first_line: i32,
    count: u32,
    records: &mut [u32],
) -> Result<Located, Fault>
    ensures { (numbered result ≡ answer (located_node input.now nodes.now used node first_line count records.old))
        × (records.new ≡ records_of (length records.old) (located_node input.now nodes.now used node first_line count records.old)) }
{
    if (refusals::MOST_BYTES as usize) < input.len() {
        return linetable::refuse(records, Refusal::InputTooLong.at(0));
    }
    if !soundness::sound_at(input, nodes, used, node) {
        return linetable::refuse(records, Refusal::BadTable.at(node));
    }
    let found = stores::node_at(nodes, node);
    if found.letter != grammar::BYTES_LETTER {
        return linetable::refuse(records, Refusal::BadTable.at(node));
    }
    let start = found.place as usize;
    let end = start + found.size as usize;
    linetable::linetable_to_records(&input[start..end], first_line, count, records)
}
