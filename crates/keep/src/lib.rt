// The move of a node and everything reachable from it to the front of the stores.
// The visit tests everything and writes only to the scratch, so that a refused move leaves the stores as they were.
#![tactic(auto)]

ghost use Rattle.std.specs.Prelude.{◌≡◌, ◌+◌, ◌*◌, ◌≤◌, ◌<◌, length};
ghost use Rattle.keep.specs.Kept.{Limits, Keeps, within, kept_of, need};

use refusals::{Fault, Refusal};

// What a move tells: how many nodes and entries are kept, and how many of each a new read can claim.
#[derive(Clone, Copy, Debug, PartialEq, Eq)]
pub struct Kept {
    pub nodes: u32,
    pub entries: u32,
    pub freenodes: u32,
    pub freeentries: u32,
}

// How many numbers of a scratch a move of so many nodes and entries needs.
pub fn keep_need(nodes: u32, entries: u32) -> usize
    ensures { (result ≡ need nodes entries) × (result ≤ 5242880) }
{
    stores::at_most(nodes as usize, refusals::MOST_RECORDS) as usize * 3
        + stores::at_most(entries as usize, refusals::MOST_RECORDS) as usize * 2
}

// The move within limits and a cleared scratch that is large enough.
// `nodes`, `entries` and `slots`, here and in `keep`, are the stores by index that C lends, each by itself, and the visit takes two of them to read: no struct.
fn keep_within(
    nodes: &mut [u32],
    entries: &mut [u32],
    slots: &mut [u32],
    s: &mut [u32],
    bound: u32,
    limit: u32,
    node: u32,
) -> Result<Kept, Fault>
    requires { Limits nodes.old entries.old s.old bound limit }
    ensures { Keeps (within nodes.old entries.old slots.old bound limit node)
        (length s.old) result nodes.new entries.new slots.new s.new }
{
    if bound <= node {
        return Err(Refusal::BadTable.at(node));
    }
    match keepvisit::visit(nodes, entries, s, bound, limit, node) {
        Err(fault) => {
            clearing::clear_words(s);
            Err(fault)
        }
        Ok(seen) => {
            let freed = stores::node_capacity(nodes.len()) - seen.kept;
            let freed_entries = stores::entry_capacity(entries.len()) - seen.moved;
            keepmove::move_all(
                nodes, entries, slots, s, bound, limit, seen.kept, seen.moved,
            );
            Ok(Kept {
                nodes: seen.kept,
                entries: seen.moved,
                freenodes: freed,
                freeentries: freed_entries,
            })
        }
    }
}

// A node and everything reachable from it moves to the front of the stores.
pub fn keep(
    nodes: &mut [u32],
    entries: &mut [u32],
    slots: &mut [u32],
    usednodes: u32,
    usedentries: u32,
    node: u32,
    stack: &mut [u32],
) -> Result<Kept, Fault>
    ensures { Keeps (kept_of nodes.old entries.old slots.old usednodes usedentries node (length stack.old))
        (length stack.old) result nodes.new entries.new slots.new stack.new }
{
    let size = stack.len();
    clearing::clear_words(stack);
    if size < keep_need(usednodes, usedentries) {
        return Err(Refusal::NoRoom.at(size as u32));
    }
    let bound = stores::nodes_in(nodes, usednodes);
    let limit = stores::entries_in(entries, usedentries);
    keep_within(nodes, entries, slots, stack, bound, limit, node)
}
