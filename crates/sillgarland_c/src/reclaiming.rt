// The node store reclaimed and read into again, for C and Rust callers. See include/sillgarland.h for what a caller owes.
ghost use Rattle.std.specs.Prelude.{◌≡◌, length};
ghost use Rattle.keep.specs.Kept.{kept_of, need};
ghost use Rattle.readmore.specs.More.{more_of};
ghost use Rattle.sillgarland.specs.Reclaiming.{KeptAs};
ghost use Rattle.sillgarland.specs.Values.{ReadAs};

use sillgarland::reclaiming::SillKept;
use sillgarland::values::SillRead;

// A node and everything reachable from it moves to the front of the stores. Refused, nodes, entries and slots are as they were.
#[unsafe(no_mangle)]
pub extern "C" fn sill_keep(
    nodes: &mut [u32],
    entries: &mut [u32],
    slots: &mut [u32],
    used_nodes: u32,
    used_entries: u32,
    node: u32,
    stack: &mut [u32],
) -> SillKept
    ensures { KeptAs (kept_of nodes.old entries.old slots.old used_nodes used_entries node (length stack.old))
        (length stack.old) result nodes.new entries.new slots.new stack.new }
{
    sillgarland::reclaiming::sill_keep(nodes, entries, slots, used_nodes, used_entries, node, stack)
}

// How many numbers of a stack such a move needs.
#[unsafe(no_mangle)]
pub extern "C" fn sill_keep_need(used_nodes: u32, used_entries: u32) -> u64
    ensures { result ≡ need used_nodes used_entries }
{
    sillgarland::reclaiming::sill_keep_need(used_nodes, used_entries)
}

// One more value, read behind so many kept nodes and entries. Refused, the kept part is as it was and the rest is zero.
#[unsafe(no_mangle)]
pub extern "C" fn sill_read_more(
    input: &[u8],
    nodes: &mut [u32],
    entries: &mut [u32],
    slots: &mut [u32],
    nesting: u32,
    kept_nodes: u32,
    kept_entries: u32,
    input_number: u32,
) -> SillRead
    ensures { ReadAs (more_of input.now nodes.old entries.old (length slots.old) nesting kept_nodes kept_entries input_number)
        result nodes.new entries.new slots.new }
{
    sillgarland::reclaiming::sill_read_more(
        input,
        nodes,
        entries,
        slots,
        nesting,
        kept_nodes,
        kept_entries,
        input_number,
    )
}
