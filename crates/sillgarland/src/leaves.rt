// The leaf question, and the line table of a node, for C and Rust callers. See include/sillgarland.h for what a caller owes.
ghost use Rattle.std.specs.Prelude.{◌≡◌, ◌/◌, length};
ghost use Rattle.grammar.specs.Leaf.{leaf_of};
ghost use Rattle.grammar.specs.Numbered.{numbered};
ghost use Rattle.leaf.specs.Answers.{answered_of};
ghost use Rattle.linetable.specs.Answer.{first_line_of, answer, records_of};
ghost use Rattle.locate.specs.Part.{located_at};
ghost use Rattle.sillgarland.specs.Leaves.{leaf_struct};
ghost use Rattle.sillgarland.specs.Locations.{located_struct};

use crate::locations::SillLocated;
use leaf::Told;
use refusals::Fault;

// A leaf's answer: its refusal and place, or the kind of leaf and its one or two values.
#[repr(C)]
#[derive(Clone, Copy)]
pub struct SillLeaf {
    pub refusal: u32,
    pub place: u32,
    pub kind: u32,
    pub pad: u32,
    pub first: u64,
    pub second: u64,
}

// What a node is, if it is a leaf.
// C lends the input and the nodes, with the count of those that are used, here and in `sill_locate_node`.
pub fn sill_leaf(input: &[u8], nodes: &[u32], used: u32, node: u32) -> SillLeaf
    ensures { result ≡ leaf_struct (answered_of (leaf_of input.now nodes.now used node)) }
{
    SillLeaf::from(leaf::leaf_of(input, nodes, used, node))
}

// `linetable_to_locations` of a bytes node, four numbers an instruction.
pub fn sill_locate_node(
    input: &[u8],
    nodes: &[u32],
    used: u32,
    node: u32,
    first_line: i32,
    count: u32,
    records: &mut [u32],
) -> SillLocated
    ensures { (result ≡ located_struct (answer (located_at input.now nodes.now used node (first_line_of first_line) count (length records.old / 4))))
        × (records.new ≡ records_of (length records.old)
        (located_at input.now nodes.now used node (first_line_of first_line) count (length records.old / 4))) }
{
    SillLocated::from(locate::locate_node(input, nodes, used, node, first_line, count, records))
}

impl From<Result<Told, Fault>> for SillLeaf {
    ghost from_gives = { λ answer numbers. numbers ≡ leaf_struct (numbered answer) };

    fn from(answer: Result<Told, Fault>) -> SillLeaf {
        match answer {
            Ok(told) => SillLeaf {
                refusal: refusals::ACCEPTED,
                place: 0,
                kind: leaf::kind_of(told.leaf),
                pad: 0,
                first: told.first,
                second: told.second,
            },
            Err(fault) => SillLeaf {
                refusal: fault.refusal.number(),
                place: fault.place,
                kind: 0,
                pad: 0,
                first: 0,
                second: 0,
            },
        }
    }
}
