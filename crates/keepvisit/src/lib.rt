// The visit behind a move: it tests all that the move reaches and writes only to the scratch.
// The scratch: the order of first visit, then each node's new number and one more, then marks of the entries met; pending nodes at its end.
#![tactic(auto)]

ghost use Rattle.std.specs.Prelude.{◌≡◌, ◌+◌, ◌*◌, ◌≤◌, ◌<◌, length};
ghost use Rattle.std.proofs.lemmas.List.Edits.{sets};
ghost use Rattle.keepvisit.specs.Visit.{linked, children_of, stores, visit_from};
ghost use Rattle.keepvisit.specs.Found.{Marks, Answers, Room};

use refusals::{Fault, Refusal};

// Marks the entries of a chain; not whole where one is out of bounds or was marked before.
// `entries`, and `nodes` with it below, are the lent stores, records by index: C lends them and the scratch, and there is no heap.
fn mark(entries: &[u32], s: &mut [u32], base: usize, limit: u32, first: u32, count: u32) -> bool
    requires { base + limit ≤ length s.old }
    ensures { Marks entries.now base limit count first s.old s.new result }
{
    let mut e = first;
    for i in 0..count {
        if limit <= e {
            return false;
        }
        let at = base + e as usize;
        if s[at] != 0 {
            return false;
        }
        s[at] = 1;
        e = stores::next_of(entries, e);
    }
    true
}

// The children of a chain, one after another.
fn push(entries: &[u32], s: &mut [u32], from: usize, first: u32, count: u32)
    requires { from + count ≤ length s.old }
    ensures { s.new ≡ sets s.old from (children_of entries.now (linked entries.now count first)) }
{
    let mut e = first;
    for at in from..from + count as usize {
        s[at] = stores::child_of(entries, e);
        e = stores::next_of(entries, e);
    }
}

// What a visit finds: how many nodes and entries are kept.
#[derive(Clone, Copy, Debug, PartialEq, Eq)]
pub struct Seen {
    pub kept: u32,
    pub moved: u32,
}

// The visit: how many nodes and entries are kept, their order and new numbers in the scratch; or the refusal at the number that is at fault.
// The loop counts no index: it ends when nothing is pending, and `top` goes down by a node's children and up by one.
pub fn visit(
    nodes: &[u32],
    entries: &[u32],
    s: &mut [u32],
    bound: u32,
    limit: u32,
    root: u32,
) -> Result<Seen, Fault>
    requires { Room bound limit s.old }
    ensures { Answers (stores nodes.now entries.now bound limit) (visit_from (stores nodes.now entries.now bound limit) root) result s.new }
{
    let ranks = bound as usize;
    let mut top = s.len() - 1;
    s[top] = root;
    let mut kept = 0u32;
    let mut moved = 0u32;
    while top < s.len() {
        let n = s[top];
        top += 1;
        if bound <= n {
            return Err(Refusal::BadTable.at(n));
        }
        let at = ranks + n as usize;
        if s[at] != 0 {
            continue;
        }
        let count = stores::count_of(nodes, n);
        let first = stores::first_of(nodes, n);
        if !mark(entries, s, ranks * 2, limit, first, count) {
            return Err(Refusal::BadTable.at(n));
        }
        s[kept as usize] = n;
        kept += 1;
        s[at] = kept;
        moved += count;
        top -= count as usize;
        push(entries, s, top, first, count);
    }
    Ok(Seen { kept, moved })
}
