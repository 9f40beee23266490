// The leaf question, and the line table of a node, for C and Rust callers. See include/sillgarland.h for what a caller owes.
ghost use Rattle.std.specs.Prelude.{◌≡◌, ◌/◌, length};
ghost use Rattle.grammar.specs.Leaf.{leaf_of};
ghost use Rattle.leaf.specs.Answers.{answered_of};
ghost use Rattle.linetable.specs.Answer.{first_line_of, answer, records_of};
ghost use Rattle.locate.specs.Part.{located_at};
ghost use Rattle.sillgarland.specs.Leaves.{leaf_struct};
ghost use Rattle.sillgarland.specs.Locations.{located_struct};

use sillgarland::leaves::SillLeaf;
use sillgarland::locations::SillLocated;

// What a node is, if it is a leaf.
#[unsafe(no_mangle)]
pub extern "C" fn sill_leaf(input: &[u8], nodes: &[u32], used: u32, node: u32) -> SillLeaf
    ensures { result ≡ leaf_struct (answered_of (leaf_of input.now nodes.now used node)) }
{
    sillgarland::leaves::sill_leaf(input, nodes, used, node)
}

// `linetable_to_locations` of a bytes node, four numbers an instruction.
#[unsafe(no_mangle)]
pub extern "C" fn sill_locate_node(
    input: &[u8],
    nodes: &[u32],
    used: u32,
    node: u32,
    first_line: i32,
    count: u32,
    records: &mut [u32],
) -> SillLocated
    ensures { (result ≡ located_struct (answer (located_at input.now nodes.now used node (first_line_of first_line) count (length records.old / 4))))
        × (records.new ≡ records_of (length records.old)
        (located_at input.now nodes.now used node (first_line_of first_line) count (length records.old / 4))) }
{
    sillgarland::leaves::sill_locate_node(input, nodes, used, node, first_line, count, records)
}
