// The records of the three lent stores: how many a store holds, and a node's, an entry's and a slot's numbers, written and looked up.
// Only here the code knows how many numbers a record is and where each of them stands; claiming a record writes nothing.
#![tactic(auto)]

ghost use Rattle.std.specs.Prelude.{◌≡◌, ◌+◌, ◌≤◌, ◌<◌, min, length, get_or};
ghost use Rattle.grammar.specs.State.{node_at, entry_at, node_capacity, entry_capacity};
ghost use Rattle.grammar.specs.Record;
ghost use Rattle.grammar.specs.Steps.{fill};
ghost use Rattle.refusals.specs.Limits.{most_records, nothing};
ghost use Rattle.stores.specs.Written.{NodeIn, EntryIn, node_of, node_written, entry_written, entry_linked};

// How many numbers a node and an entry are.
pub const NODE_WIDTH: usize = 7;

pub const ENTRY_WIDTH: usize = 2;

// A node's numbers, in their order in the store.
#[derive(Clone, Copy)]
pub struct Node {
    pub letter: u32,
    pub place: u32,
    pub size: u32,
    pub first: u32,
    pub count: u32,
    pub end: u32,
    pub input: u32,
}

// What is above a limit counts as the limit.
pub fn at_most(n: usize, most: u32) -> u32
    ensures { result ≡ min n most }
{
    if n < most as usize { n as u32 } else { most }
}

// How many nodes and how many entries a store of so many numbers can hold.
pub fn node_capacity(numbers: usize) -> u32
    ensures { result ≡ node_capacity numbers }
{
    at_most(numbers / NODE_WIDTH, refusals::MOST_RECORDS)
}

pub fn entry_capacity(numbers: usize) -> u32
    ensures { result ≡ entry_capacity numbers }
{
    at_most(numbers / ENTRY_WIDTH, refusals::MOST_RECORDS)
}

// How many of a store may be named, where so many are said to be used.
pub fn nodes_in(nodes: &[u32], used: u32) -> u32
    ensures { result ≡ Record.nodes_in nodes.now used }
{
    at_most(used as usize, node_capacity(nodes.len()))
}

pub fn entries_in(entries: &[u32], used: u32) -> u32
    ensures { (result ≡ Record.entries_in entries.now used) × (result ≤ most_records) }
{
    at_most(used as usize, entry_capacity(entries.len()))
}

// A complete node's record.
pub fn write_node(nodes: &mut [u32], n: u32, node: Node)
    requires { NodeIn nodes.old n }
    ensures { nodes.new ≡ node_written nodes.old n (node_of node) }
{
    let base = n as usize * NODE_WIDTH;
    nodes[base] = node.letter;
    nodes[base + 1] = node.place;
    nodes[base + 2] = node.size;
    nodes[base + 3] = node.first;
    nodes[base + 4] = node.count;
    nodes[base + 5] = node.end;
    nodes[base + 6] = node.input;
}

// An entry's record: a child that nothing follows yet.
pub fn write_entry(entries: &mut [u32], e: u32, child: u32)
    requires { EntryIn entries.old e }
    ensures { entries.new ≡ entry_written entries.old e (record { child = child; next = nothing }) }
{
    let base = e as usize * ENTRY_WIDTH;
    entries[base] = child;
    entries[base + 1] = refusals::NOTHING;
}

// After the entry `last` comes `next`.
pub fn link_entry(entries: &mut [u32], last: u32, next: u32)
    requires { EntryIn entries.old last }
    ensures { entries.new ≡ entry_linked entries.old last next }
{
    let base = last as usize * ENTRY_WIDTH;
    entries[base + 1] = next;
}

// Where the value was flagged, its slot names its node.
pub fn fill_slot(slots: &mut [u32], flag: u32, slot: u32, node: u32)
    requires { (slot + flag ≤ length slots.old) × (node < most_records) }
    ensures { slots.new ≡ fill flag slot node slots.old }
{
    if flag != 0 {
        slots[slot as usize] = node + 1;
    }
}

// A number of a store; past its end all are 0.
fn cell(store: &[u32], i: usize) -> u32
    ensures { result ≡ get_or store.now i 0 }
{
    if i < store.len() { store[i] } else { 0 }
}

// The numbers of any record, also of one past the store.
pub fn node_of(nodes: &[u32], n: u32) -> Node
    ensures { node_of result ≡ node_at nodes.now n }
{
    let base = n as usize * NODE_WIDTH;
    Node {
        letter: cell(nodes, base),
        place: cell(nodes, base + 1),
        size: cell(nodes, base + 2),
        first: cell(nodes, base + 3),
        count: cell(nodes, base + 4),
        end: cell(nodes, base + 5),
        input: cell(nodes, base + 6),
    }
}

pub fn letter_of(nodes: &[u32], n: u32) -> u32
    ensures { result ≡ (node_at nodes.now n).letter }
{
    cell(nodes, n as usize * NODE_WIDTH)
}

pub fn place_of(nodes: &[u32], n: u32) -> u32
    ensures { result ≡ (node_at nodes.now n).place }
{
    cell(nodes, n as usize * NODE_WIDTH + 1)
}

pub fn size_of(nodes: &[u32], n: u32) -> u32
    ensures { result ≡ (node_at nodes.now n).size }
{
    cell(nodes, n as usize * NODE_WIDTH + 2)
}

pub fn first_of(nodes: &[u32], n: u32) -> u32
    ensures { result ≡ (node_at nodes.now n).first }
{
    cell(nodes, n as usize * NODE_WIDTH + 3)
}

pub fn count_of(nodes: &[u32], n: u32) -> u32
    ensures { result ≡ (node_at nodes.now n).count }
{
    cell(nodes, n as usize * NODE_WIDTH + 4)
}

pub fn end_of(nodes: &[u32], n: u32) -> u32
    ensures { result ≡ (node_at nodes.now n).end }
{
    cell(nodes, n as usize * NODE_WIDTH + 5)
}

pub fn input_of(nodes: &[u32], n: u32) -> u32
    ensures { result ≡ (node_at nodes.now n).input }
{
    cell(nodes, n as usize * NODE_WIDTH + 6)
}

pub fn child_of(entries: &[u32], e: u32) -> u32
    ensures { result ≡ (entry_at entries.now e).child }
{
    cell(entries, e as usize * ENTRY_WIDTH)
}

pub fn next_of(entries: &[u32], e: u32) -> u32
    ensures { result ≡ (entry_at entries.now e).next }
{
    cell(entries, e as usize * ENTRY_WIDTH + 1)
}

// The same of a record that is in the store, which is not tested.
pub fn node_at(nodes: &[u32], n: u32) -> Node
    requires { NodeIn nodes.now n }
    ensures { node_of result ≡ node_at nodes.now n }
{
    let base = n as usize * NODE_WIDTH;
    Node {
        letter: nodes[base],
        place: nodes[base + 1],
        size: nodes[base + 2],
        first: nodes[base + 3],
        count: nodes[base + 4],
        end: nodes[base + 5],
        input: nodes[base + 6],
    }
}

pub fn child_at(entries: &[u32], e: u32) -> u32
    requires { EntryIn entries.now e }
    ensures { result ≡ (entry_at entries.now e).child }
{
    entries[e as usize * ENTRY_WIDTH]
}

pub fn next_at(entries: &[u32], e: u32) -> u32
    requires { EntryIn entries.now e }
    ensures { result ≡ (entry_at entries.now e).next }
{
    entries[e as usize * ENTRY_WIDTH + 1]
}

// The node that a slot names, and one more; 0 where it is open or not reserved.
pub fn slot_of(slots: &[u32], slot: u32) -> u32
    ensures { result ≡ get_or slots.now slot 0 }
{
    cell(slots, slot as usize)
}
