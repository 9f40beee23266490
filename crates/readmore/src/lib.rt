// One more value read behind kept nodes and entries. The plain reading takes the room that is left, and then what it wrote is raised.
// The kept part is never written: refused, it is as it was and all behind it is zero.
#![tactic(auto)]

ghost use Rattle.std.specs.Prelude.{◌≡◌, ◌+◌, ◌*◌, ◌≤◌, length};
ghost use Rattle.grammar.specs.State.{node_capacity, entry_capacity};
ghost use Rattle.readsteps.specs.Linking.{fault_number};
ghost use Rattle.reader.specs.Delivered.{Delivers};
ghost use Rattle.readmore.specs.More.{more_of, keeping, kept_part};
ghost use Rattle.readmore.specs.Parts.{turned_away, Fitting, Refused, unraised, counting, Room, Raised};

use reader::Read;
use refusals::{Fault, Refusal};

// All behind the numbers that stay is zero; they may be more than there are.
fn clear_behind(store: &mut [u32], stay: usize)
    ensures { store.new ≡ kept_part stay store.old }
{
    if stay < store.len() {
        clearing::clear_words(&mut store[stay..]);
    }
}

// The refusal that comes before reading: the input is too long, then nodes, then entries are kept above the capacity.
fn turned_away(
    bytes: usize,
    nodes: usize,
    entries: usize,
    keptnodes: u32,
    keptentries: u32,
) -> Result<(), Refusal>
    ensures { fault_number result ≡ turned_away bytes (node_capacity nodes) (entry_capacity entries) (keeping keptnodes keptentries 0) }
{
    if (refusals::MOST_BYTES as usize) < bytes {
        return Err(Refusal::InputTooLong);
    }
    if stores::node_capacity(nodes) < keptnodes {
        return Err(Refusal::NoNode);
    }
    if stores::entry_capacity(entries) < keptentries {
        return Err(Refusal::NoEntry);
    }
    Ok(())
}

// A refused append: the kept part stays, and all else is zero.
// `nodes`, `entries` and `slots`, here and below, are the stores by index that C lends, each by itself: in `read_behind` they are cut at other places, so a struct of them would be taken apart there.
fn refuse(
    nodes: &mut [u32],
    entries: &mut [u32],
    slots: &mut [u32],
    keptnodes: u32,
    keptentries: u32,
)
    ensures { Refused nodes.old entries.old slots.old (keeping keptnodes keptentries 0)
        nodes.new entries.new slots.new }
{
    clear_behind(nodes, keptnodes as usize * stores::NODE_WIDTH);
    clear_behind(entries, keptentries as usize * stores::ENTRY_WIDTH);
    clearing::clear_words(slots);
}

// The plain reading in the room that is left; behind the kept part stands what it leaves.
fn read_behind(
    input: &[u8],
    nodes: &mut [u32],
    entries: &mut [u32],
    slots: &mut [u32],
    nesting: u32,
    keptnodes: u32,
    keptentries: u32,
) -> Result<Read, Fault>
    requires { Fitting (length input.now) (length nodes.old) (length entries.old) (keeping keptnodes keptentries 0) }
    ensures { Delivers (unraised input.now nodes.old entries.old (length slots.old) nesting (keeping keptnodes keptentries 0))
        result nodes.new entries.new slots.new }
{
    let from = keptnodes as usize * stores::NODE_WIDTH;
    let to = stores::node_capacity(nodes.len()) as usize * stores::NODE_WIDTH;
    let first = keptentries as usize * stores::ENTRY_WIDTH;
    let last = stores::entry_capacity(entries.len()) as usize * stores::ENTRY_WIDTH;
    clear_behind(nodes, to);
    clear_behind(entries, last);
    reader::deserialize_value(
        input,
        &mut nodes[from..to],
        &mut entries[first..last],
        slots,
        nesting,
    )
}

// What was read is raised by those kept, and its nodes name the input.
fn raise_read(
    nodes: &mut [u32],
    entries: &mut [u32],
    slots: &mut [u32],
    keptnodes: u32,
    keptentries: u32,
    number: u32,
    read: Read,
)
    requires { Room nodes.old entries.old slots.old (keeping keptnodes keptentries number) (counting read.nodes read.entries read.slots) }
    ensures { Raised nodes.old entries.old slots.old (keeping keptnodes keptentries number)
        (counting read.nodes read.entries read.slots) nodes.new entries.new slots.new }
{
    let from = keptnodes as usize * stores::NODE_WIDTH;
    raising::raise_nodes(&mut nodes[from..], read.nodes, keptentries, number);
    let first = keptentries as usize * stores::ENTRY_WIDTH;
    raising::raise_entries(&mut entries[first..], read.entries, keptnodes, keptentries);
    raising::raise_slots(slots, read.slots, keptnodes);
}

// One value from the start of the input, appended to so many nodes and entries that are kept; its nodes name the input by its number.
pub fn read_more(
    input: &[u8],
    nodes: &mut [u32],
    entries: &mut [u32],
    slots: &mut [u32],
    nesting: u32,
    keptnodes: u32,
    keptentries: u32,
    number: u32,
) -> Result<Read, Fault>
    ensures { Delivers (more_of input.now nodes.old entries.old (length slots.old) nesting keptnodes keptentries number)
        result nodes.new entries.new slots.new }
{
    match turned_away(
        input.len(),
        nodes.len(),
        entries.len(),
        keptnodes,
        keptentries,
    ) {
        Err(refusal) => {
            refuse(nodes, entries, slots, keptnodes, keptentries);
            Err(refusal.at(0))
        }
        Ok(()) => {
            let read = read_behind(
                input,
                nodes,
                entries,
                slots,
                nesting,
                keptnodes,
                keptentries,
            )?;
            raise_read(nodes, entries, slots, keptnodes, keptentries, number, read);
            Ok(Read {
                nodes: keptnodes + read.nodes,
                entries: keptentries + read.entries,
                ..read
            })
        }
    }
}
