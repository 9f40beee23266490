// The moved records, gathered in the scratch and laid over the stores, one number of each record after another.
// Gathering reads the stores as they were and laying writes them, so that nothing is read from a store that is half moved.
#![tactic(auto)]

ghost use Rattle.std.specs.Prelude.{◌≡◌, ◌+◌, ◌*◌, ◌≤◌, ◌<◌, length, get_or, take, drop};
ghost use Rattle.std.proofs.lemmas.List.Edits.{sets};
ghost use Rattle.refusals.specs.Limits.{most_records};
ghost use Rattle.keepvisit.specs.Visit.{linked, children_of, stores};
ghost use Rattle.keepmove.specs.Moved.{first_of, nodes_after};
ghost use Rattle.keepmove.specs.Laid.{new_at, kids_of, all_kids, links_of, all_links, total, firsts_of, column_of, stepped, zeroed_from, column_moved, three_moved, firsts_moved, entries_moved};
ghost use Rattle.keepmove.specs.Down.{Rising, NoneRises, MovedDown};
ghost use Rattle.keepmove.specs.Parts.{Movable, AllMoved};
ghost use Rattle.grammar.specs.State.{node_width, entry_width};

// A node's new number; a node that was not visited has that of the next.
fn new_of(visited: &[u32], bound: u32, kept: u32, n: u32) -> u32
    requires { bound * 2 ≤ length visited.now }
    ensures { result ≡ new_at visited.now bound kept n }
{
    if bound <= n {
        return kept;
    }
    let rank = visited[bound as usize + n as usize];
    if rank == 0 {
        return kept;
    }
    rank - 1
}

// The children of one chain by their new numbers.
// `entries`, and `nodes` below, are the lent stores, records by index: C lends them and the scratch, and there is no heap.
fn gather_kids(
    entries: &[u32],
    visited: &[u32],
    bound: u32,
    kept: u32,
    out: &mut [u32],
    from: usize,
    first: u32,
    count: u32,
)
    requires { (bound * 2 ≤ length visited.now) × (from + count ≤ length out.old) }
    ensures { out.new ≡ sets out.old from (kids_of entries.now visited.now bound kept
        (children_of entries.now (linked entries.now count first))) }
{
    let mut e = first;
    for at in from..from + count as usize {
        out[at] = new_of(visited, bound, kept, stores::child_of(entries, e));
        e = stores::next_of(entries, e);
    }
}

// The links of one chain, whose first entry is `number`.
fn gather_links(out: &mut [u32], from: usize, number: u32, count: u32)
    requires { (from + count ≤ length out.old) × (number + count ≤ most_records) }
    ensures { out.new ≡ sets out.old from (links_of number count) }
{
    if count == 0 {
        return;
    }
    let last = from + (count - 1) as usize;
    let mut number = number;
    for at in from..last {
        number += 1;
        out[at] = number;
    }
    out[last] = refusals::NOTHING;
}

// A number of a node; past the store's end all are 0.
fn number_of(nodes: &[u32], n: u32, column: usize) -> u32
    requires { column < node_width }
    ensures { result ≡ get_or nodes.now (n * node_width + column) 0 }
{
    let at = n as usize * stores::NODE_WIDTH + column;
    if at < nodes.len() { nodes[at] } else { 0 }
}

// One number of each node, in the new order.
fn gather_column(nodes: &[u32], order: &[u32], column: usize, out: &mut [u32])
    requires { (length order.now ≡ length out.old) × (column < node_width) }
    ensures { out.new ≡ column_of nodes.now column order.now }
{
    for i in 0..order.len() {
        out[i] = number_of(nodes, order[i], column);
    }
}

// Numbers laid over a store, one for each record of so many numbers.
fn lay(store: &mut [u32], width: usize, column: usize, numbers: &[u32])
    requires { (length numbers.now * width ≤ length store.old) × (column < width) }
    ensures { store.new ≡ stepped store.old column width numbers.now }
{
    let mut at = column;
    for i in 0..numbers.len() {
        store[at] = numbers[i];
        at += width;
    }
}

fn zero_from(store: &mut [u32], from: usize)
    requires { from ≤ length store.old }
    ensures { store.new ≡ zeroed_from store.old from }
{
    clearing::clear_words(&mut store[from..]);
}

// The first entry of a node by its count, where the next free number is `at`.
fn first_at(count: u32, at: u32) -> u32
    ensures { result ≡ first_of count at }
{
    if count == 0 { refusals::NOTHING } else { at }
}

// The first entries, in the new order.
fn gather_firsts(nodes: &[u32], order: &[u32], out: &mut [u32])
    requires { (length order.now ≡ length out.old) × (total nodes.now order.now ≤ most_records) }
    ensures { out.new ≡ firsts_of nodes.now 0 order.now }
{
    let mut at = 0u32;
    for i in 0..order.len() {
        let count = stores::count_of(nodes, order[i]);
        out[i] = first_at(count, at);
        at += count;
    }
}

// The children of all kept nodes by their new numbers, in the new order.
fn all_kids(nodes: &[u32], entries: &[u32], visited: &[u32], bound: u32, kept: u32, out: &mut [u32])
    requires { (bound * 2 ≤ length visited.now) × (kept ≤ length visited.now) × (total nodes.now (take kept visited.now) ≤ length out.old) }
    ensures { out.new ≡ sets out.old 0 (all_kids nodes.now entries.now visited.now bound kept (take kept visited.now)) }
{
    let mut at = 0;
    for i in 0..kept as usize {
        let n = visited[i];
        let count = stores::count_of(nodes, n);
        let first = stores::first_of(nodes, n);
        gather_kids(entries, visited, bound, kept, out, at, first, count);
        at += count as usize;
    }
}

// The links of all kept entries, in the new order.
fn all_links(nodes: &[u32], order: &[u32], out: &mut [u32])
    requires { (total nodes.now order.now ≤ length out.old) × (total nodes.now order.now ≤ most_records) }
    ensures { out.new ≡ sets out.old 0 (all_links nodes.now 0 order.now) }
{
    let mut number = 0u32;
    for i in 0..order.len() {
        let count = stores::count_of(nodes, order[i]);
        gather_links(out, number as usize, number, count);
        number += count;
    }
}

// One number of each kept node, moved to the front by way of the space.
fn move_column(nodes: &mut [u32], order: &[u32], column: usize, space: &mut [u32])
    requires { (length order.now ≡ length space.old) × (column < node_width) × (length order.now * node_width ≤ length nodes.old) }
    ensures { nodes.new ≡ column_moved nodes.old order.now column }
{
    gather_column(nodes, order, column, space);
    lay(nodes, stores::NODE_WIDTH, column, space);
}

// Three numbers of each kept node.
fn move_three(nodes: &mut [u32], order: &[u32], column: usize, space: &mut [u32])
    requires { (length order.now ≡ length space.old) × (column + 2 < node_width) × (length order.now * node_width ≤ length nodes.old) }
    ensures { nodes.new ≡ three_moved nodes.old order.now column }
{
    move_column(nodes, order, column, space);
    move_column(nodes, order, column + 1, space);
    move_column(nodes, order, column + 2, space);
}

// The kept nodes' first entries, by their new numbers.
fn move_firsts(nodes: &mut [u32], order: &[u32], space: &mut [u32])
    requires { (length order.now ≡ length space.old) × (total nodes.old order.now ≤ most_records) × (length order.now * node_width ≤ length nodes.old) }
    ensures { nodes.new ≡ firsts_moved nodes.old order.now }
{
    gather_firsts(nodes, order, space);
    lay(nodes, stores::NODE_WIDTH, 3, space);
}

// Whether no kept node stands before its new place. So it is with what a reading left, but for nodes that are shared from elsewhere.
fn none_rises(order: &[u32]) -> bool
    ensures { Rising (length order.now) order.now result }
{
    for i in 0..order.len() {
        if (order[i] as usize) < i {
            return false;
        }
    }
    true
}

// Then each record is moved from where it stands, one after another.
fn move_down(nodes: &mut [u32], order: &[u32])
    requires { (NoneRises (length order.now) order.now) × (total nodes.old order.now ≤ most_records) × (length order.now * node_width ≤ length nodes.old)
        × (length order.now ≤ most_records) }
    ensures { MovedDown nodes.old order.now (length order.now) nodes.new }
{
    let mut at = 0u32;
    for i in 0..order.len() as u32 {
        let node = stores::node_of(nodes, order[i as usize]);
        let count = node.count;
        let moved = stores::Node {
            letter: node.letter,
            place: node.place,
            size: node.size,
            first: first_at(count, at),
            count,
            end: node.end,
            input: node.input,
        };
        stores::write_node(nodes, i, moved);
        at += count;
    }
}

// The kept nodes to the front, in this order, zeros behind them; the space has room for a number of each.
fn move_nodes(nodes: &mut [u32], order: &[u32], space: &mut [u32])
    requires { (length order.now ≡ length space.old) × (total nodes.old order.now ≤ most_records) × (length order.now * node_width ≤ length nodes.old)
        × (length order.now ≤ most_records) }
    ensures { nodes.new ≡ nodes_after nodes.old order.now }
{
    let end = order.len() * stores::NODE_WIDTH;
    if none_rises(order) {
        move_down(nodes, order);
        zero_from(nodes, end);
        return;
    }
    move_firsts(nodes, order, space);
    move_three(nodes, order, 0, space);
    move_three(nodes, order, 4, space);
    zero_from(nodes, end);
}

// The kept entries to the front, zeros behind them; the space has room for a number of each. What was visited is the order, then the ranks.
fn move_entries(
    nodes: &[u32],
    entries: &mut [u32],
    visited: &[u32],
    bound: u32,
    kept: u32,
    space: &mut [u32],
)
    requires { (bound * 2 ≤ length visited.now) × (kept ≤ length visited.now) × (total nodes.now (take kept visited.now) ≡ length space.old)
        × (length space.old ≤ most_records) × (length space.old * entry_width ≤ length entries.old) }
    ensures { entries.new ≡ entries_moved nodes.now entries.old visited.now bound kept }
{
    all_kids(nodes, entries, visited, bound, kept, space);
    lay(entries, stores::ENTRY_WIDTH, 0, space);
    all_links(nodes, &visited[..kept as usize], space);
    lay(entries, stores::ENTRY_WIDTH, 1, space);
    zero_from(entries, space.len() * stores::ENTRY_WIDTH);
}

// All of it: entries first, since their move reads the nodes; then nodes; then everything else that was lent is cleared.
// `nodes`, `entries` and `slots` are the stores as C lends them, as in keep; `limit` is spoken of in the clauses alone.
pub fn move_all(
    nodes: &mut [u32],
    entries: &mut [u32],
    slots: &mut [u32],
    s: &mut [u32],
    bound: u32,
    limit: u32,
    kept: u32,
    moved: u32,
)
    requires { (Movable nodes.old entries.old s.old bound limit kept moved) × (bound * node_width ≤ length nodes.old) }
    ensures { AllMoved nodes.old entries.old slots.old s.old bound limit kept nodes.new
        entries.new slots.new s.new }
{
    let (visited, space) = s.split_at_mut(bound as usize * 2);
    let size = kept as usize;
    move_entries(
        nodes,
        entries,
        visited,
        bound,
        kept,
        &mut space[..moved as usize],
    );
    move_nodes(nodes, &visited[..size], &mut space[..size]);
    clearing::clear_words(s);
    clearing::clear_words(slots);
}
