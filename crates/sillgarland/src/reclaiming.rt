// The node store reclaimed and read into again, for C and Rust callers. See include/sillgarland.h for what a caller owes.
ghost use Rattle.std.specs.Prelude.{◌≡◌, length};
ghost use Rattle.keep.specs.Kept.{kept_of, need};
ghost use Rattle.readmore.specs.More.{more_of};
ghost use Rattle.sillgarland.specs.Reclaiming.{keep_struct, KeptAs};
ghost use Rattle.sillgarland.specs.Values.{ReadAs};

use crate::values::SillRead;
use keep::Kept;
use refusals::Fault;

// A move's answer: its refusal and place, or how many nodes and entries are kept, and how many of each a new read can claim.
#[repr(C)]
#[derive(Clone, Copy)]
pub struct SillKept {
    pub refusal: u32,
    pub place: u32,
    pub nodes: u32,
    pub entries: u32,
    pub free_nodes: u32,
    pub free_entries: u32,
}

// A node and everything reachable from it moves to the front of the stores. Refused, nodes, entries and slots are as they were.
// C lends the stores of nodes and entries, whose records are told by their index, and the counts of what is used of them.
pub fn sill_keep(
    nodes: &mut [u32],
    entries: &mut [u32],
    slots: &mut [u32],
    used_nodes: u32,
    used_entries: u32,
    node: u32,
    stack: &mut [u32],
) -> SillKept
    ensures { KeptAs (kept_of nodes.old entries.old slots.old used_nodes used_entries node (length stack.old))
        (length stack.old) result nodes.new entries.new slots.new stack.new }
{
    let answer = keep::keep(nodes, entries, slots, used_nodes, used_entries, node, stack);
    SillKept::from(answer)
}

impl From<Result<Kept, Fault>> for SillKept {
    ghost from_gives = { λ answer numbers. numbers ≡ keep_struct answer };

    fn from(answer: Result<Kept, Fault>) -> SillKept {
        match answer {
            Ok(kept) => SillKept {
                refusal: refusals::ACCEPTED,
                place: 0,
                nodes: kept.nodes,
                entries: kept.entries,
                free_nodes: kept.freenodes,
                free_entries: kept.freeentries,
            },
            Err(fault) => SillKept {
                refusal: fault.refusal.number(),
                place: fault.place,
                nodes: 0,
                entries: 0,
                free_nodes: 0,
                free_entries: 0,
            },
        }
    }
}

// How many numbers of a stack such a move needs.
pub fn sill_keep_need(used_nodes: u32, used_entries: u32) -> u64
    ensures { result ≡ need used_nodes used_entries }
{
    keep::keep_need(used_nodes, used_entries) as u64
}

// One more value, read behind so many kept nodes and entries. Refused, the kept part is as it was and the rest is zero.
pub fn sill_read_more(
    input: &[u8],
    nodes: &mut [u32],
    entries: &mut [u32],
    slots: &mut [u32],
    nesting: u32,
    kept_nodes: u32,
    kept_entries: u32,
    input_number: u32,
) -> SillRead
    ensures { ReadAs (more_of input.now nodes.old entries.old (length slots.old) nesting kept_nodes kept_entries input_number)
        result nodes.new entries.new slots.new }
{
    let answer = readmore::read_more(
        input,
        nodes,
        entries,
        slots,
        nesting,
        kept_nodes,
        kept_entries,
        input_number,
    );
    SillRead::from(answer)
}
