// The numbers of a new read raised in its stores, behind what is kept: one loop over the nodes, one over the entries, one over the slots.
// Only numbers that a reading left are raised; their sums have 32 bits.
#![tactic(auto)]

ghost use Rattle.std.specs.Prelude.{◌≡◌, ◌+◌, ◌*◌, ◌%◌, ◌≤◌, length};
ghost use Rattle.refusals.specs.Limits.{nothing};
ghost use Rattle.grammar.specs.State.{node_width, entry_width, node_at, entry_at};
ghost use Rattle.stores.specs.Written.{NodeIn, EntryIn, node_written, entry_written};
ghost use Rattle.raising.specs.Appended.{relabelled};
ghost use Rattle.raising.specs.Raised.{sum32, NodesRaised, EntriesRaised, SlotsRaised};

// A number raised by those kept, but for the one that stands for none.
fn raised(stays: u32, kept: u32, n: u32) -> u32
    ensures { result ≡ sum32 stays kept n }
{
    if n == stays {
        return n;
    }
    std::num::wrapping_add_u32(kept, n)
}

// One node: its first entry is raised, and it names the input.
// `nodes`, and `entries` and `slots` below, are the stores by index that C lends; there is no heap.
fn raise_node(nodes: &mut [u32], n: u32, kept: u32, number: u32)
    requires { NodeIn nodes.old n }
    ensures { nodes.new ≡ node_written nodes.old n (relabelled (sum32 nothing kept (node_at nodes.old n).first) number (node_at nodes.old n)) }
{
    let read = stores::node_at(nodes, n);
    let record = stores::Node {
        first: raised(refusals::NOTHING, kept, read.first),
        input: number,
        ..read
    };
    stores::write_node(nodes, n, record);
}

// The nodes of a new read.
// `raise_entries` and `raise_slots` do other things at each turn; a count of records goes with each store, since a slice of nodes or entries would give it as its length divided by their width: no plainer.
pub fn raise_nodes(nodes: &mut [u32], count: u32, kept: u32, number: u32)
    requires { count * node_width ≤ length nodes.old }
    ensures { NodesRaised nodes.old count kept number nodes.new }
{
    for i in 0..count {
        raise_node(nodes, i, kept, number);
    }
}

// One entry: its child and the entry after it are raised.
fn raise_entry(entries: &mut [u32], e: u32, nodes: u32, kept: u32)
    requires { EntryIn entries.old e }
    ensures { entries.new ≡ entry_written entries.old e
        (record { child = (nodes + (entry_at entries.old e).child) % 4294967296; next = sum32 nothing kept (entry_at entries.old e).next }) }
{
    let child = std::num::wrapping_add_u32(nodes, stores::child_at(entries, e));
    let next = raised(refusals::NOTHING, kept, stores::next_at(entries, e));
    stores::write_entry(entries, e, child);
    stores::link_entry(entries, e, next);
}

// The entries of a new read.
pub fn raise_entries(entries: &mut [u32], count: u32, nodes: u32, kept: u32)
    requires { count * entry_width ≤ length entries.old }
    ensures { EntriesRaised entries.old count nodes kept entries.new }
{
    for i in 0..count {
        raise_entry(entries, i, nodes, kept);
    }
}

// The slots of a new read: those that are open stay open.
pub fn raise_slots(slots: &mut [u32], count: u32, nodes: u32)
    requires { count ≤ length slots.old }
    ensures { SlotsRaised slots.old count nodes slots.new }
{
    for i in 0..count as usize {
        slots[i] = raised(0, nodes, slots[i]);
    }
}
