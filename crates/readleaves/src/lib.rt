// Plain values, a reference or a leaf that a few steps read, and the loop over children as long as they are plain. Most children are,
// and a loop in which no reader calls itself is some five times as fast. What is not plain is left to the reader of any value.
#![tactic(auto)]

ghost use Rattle.std.specs.Prelude.{◌≡◌, ◌+◌, ◌≤◌, ◌<◌, length};
ghost use Rattle.refusals.specs.Limits.{most_bytes, most_records};
ghost use Rattle.readsteps.specs.Held.{Safe, LineIn};
ghost use Rattle.readleaves.specs.Fronts.{Refers, Spans, Leafs, Plainly};
ghost use Rattle.readleaves.specs.Turns.{NumbersIn, SafeLeaf, Takes, Tries, Runs};

use fields::byte_tables::{ByteTables, LeadTable};
use fields::cursor::Cursor;
use fields::{Behind, Kids};
use readsteps::{Head, Line, Next, Opened, Room, Step, Walk};
use refusals::{Fault, Refusal};

// A value that is known already and the place after it, or a leaf. None is what is left to others.
#[derive(Clone, Copy)]
pub enum Plain {
    Known(u32, u32),
    Leaf(Head),
}

// A reference whose slot is filled.
fn reference(from: Cursor, slots: &[u32]) -> Option<Plain>
    ensures { Refers from.entry.input.now slots.now from.entry.at result }
{
    match readsteps::resolve_ref(from, slots) {
        Ok(Opened::Known(node, after)) => Some(Plain::Known(node, after)),
        _ => None,
    }
}

// The fields of the classes that are read in a few steps. Any other class is answered as fields that are refused are: both are left to
// others.
fn read_leaf(from: Cursor, class: u32, table: &LeadTable) -> Option<Behind>
    ensures { Spans from.entry.input.now class from.entry.at result }
{
    match class {
        fields::SINGLE_CLASS => Some(Behind {
            place: from.at,
            size: 0,
            kids: Kids::Items(0),
        }),
        fields::FIXED4_CLASS => fields::read_fixed(from, 4).ok(),
        fields::FIXED8_CLASS => fields::read_fixed(from, 8).ok(),
        fields::BYTES_CLASS => fields::read_bytes(from).ok(),
        fields::TEXT_CLASS => fields::read_text(from, table).ok(),
        fields::SHORT_CLASS => fields::read_short(from, table).ok(),
        _ => None,
    }
}

// The head of a leaf: of a node without children.
fn head(from: Cursor, letter: u32, flag: u32, class: u32, table: &LeadTable) -> Option<Plain>
    ensures { Leafs from.entry.input.now letter flag class from.entry.at result }
{
    let behind = read_leaf(from, class, table)?;
    match behind.kids {
        Kids::Pairs => None,
        Kids::Parts => None,
        Kids::Items(count) => {
            if count != 0 {
                return None;
            }
            Some(Plain::Leaf(Head {
                letter,
                flag,
                place: behind.place,
                size: behind.size,
            }))
        }
    }
}

// All that comes before a plain value's end, but for its record and its slot: it only reads.
fn front(
    s: &[u8],
    slots: &[u32],
    room: Room,
    allowance: u32,
    w: Walk,
    tables: &ByteTables,
) -> Option<Plain>
    requires { (w.at ≤ length s.now) × (length s.now ≤ most_bytes) × (w.slots ≤ room.slots) × (room.slots ≤ most_records) }
    ensures { Plainly s.now slots.now room allowance w result }
{
    let at = w.at;
    if allowance == 0 {
        return None;
    }
    if s.len() <= at as usize {
        return None;
    }
    let byte = readsteps::byte_at(s, at);
    let letter = byte % 128;
    let flag = byte / 128;
    let class = fields::class_at(&tables.headers, byte);
    let from = Cursor {
        input: s,
        at: at + 1,
    };
    if class == fields::REFERENCE_CLASS {
        return reference(from, slots);
    }
    if room.slots < w.slots + flag {
        return None;
    }
    if room.nodes <= w.nodes {
        return None;
    }
    head(from, letter, flag, class, &tables.first_bytes)
}

// A plain value, read on the spot: it has no children, so that its record and its slot are written at once. None, and nothing is written,
// where it is not plain.
fn leaf(
    s: &[u8],
    nodes: &mut [u32],
    slots: &mut [u32],
    room: Room,
    allowance: u32,
    w: Walk,
    tables: &ByteTables,
) -> Option<Step>
    requires { SafeLeaf s.now room w nodes.old slots.old }
    ensures { Takes s.now room allowance w nodes.old slots.old result nodes.new slots.new }
{
    match front(s, slots, room, allowance, w, tables)? {
        Plain::Known(node, at) => Some(Step {
            node,
            walk: Walk { at, ..w },
        }),
        Plain::Leaf(h) => {
            let node = w.nodes;
            let walk = Walk {
                at: h.place + h.size,
                nodes: node + 1,
                entries: w.entries,
                slots: w.slots + h.flag,
            };
            let record = stores::Node {
                letter: h.letter,
                place: h.place,
                size: h.size,
                first: refusals::NOTHING,
                count: 0,
                end: walk.at,
                input: 0,
            };
            stores::fill_slot(slots, h.flag, w.slots, node);
            stores::write_node(nodes, node, record);
            Some(Step { node, walk })
        }
    }
}

// One child that is plain, with its entry, as the reader's `child` reads any; or none, and then nothing is written.
fn leaf_child(
    s: &[u8],
    nodes: &mut [u32],
    entries: &mut [u32],
    slots: &mut [u32],
    room: Room,
    allowance: u32,
    line: Line,
    rule: u32,
    tables: &ByteTables,
) -> Result<Option<Line>, Fault>
    requires { Safe s.now room line.walk nodes.old entries.old slots.old × LineIn line }
    ensures { Tries rule s.now room allowance line nodes.old entries.old slots.old
        result nodes.new entries.new slots.new }
{
    let from = line.walk;
    let Some(step) = leaf(s, nodes, slots, room, allowance, from, tables) else {
        return Ok(None);
    };
    if !readsteps::suits(rule, nodes, entries, step.node) {
        return Err(Refusal::BadType.at(from.at));
    }
    // Here and in `run` no `?`: it hands a fault on as one word, over two fields of a line, which each turn then packs and takes apart:
    // 57 million instructions in place of 40 for 400,000 small integers (callgrind).
    match readsteps::attach(entries, room.entries, line, from.at, step.node, step.walk) {
        Ok(l) => Ok(Some(l)),
        Err(Fault { refusal, place }) => Err(Fault { refusal, place }),
    }
}

// Plain children one after another: to the first that is not plain, to the last, or to a refusal.
pub fn run(
    s: &[u8],
    nodes: &mut [u32],
    entries: &mut [u32],
    slots: &mut [u32],
    room: Room,
    allowance: u32,
    line: Line,
    kids: Kids,
    header: u32,
    tables: &ByteTables,
) -> Result<Next, Fault>
    requires { Safe s.now room line.walk nodes.old entries.old slots.old × LineIn line × NumbersIn kids header s.now }
    ensures { Runs kids header s.now room allowance line nodes.old entries.old slots.old
        result nodes.new entries.new slots.new }
{
    let mut l = line;
    loop {
        match readsteps::next_child(s, nodes, kids, header, l) {
            Err(Fault { refusal, place }) => {
                return Err(Fault { refusal, place });
            }
            Ok(Next::Done(m)) => {
                return Ok(Next::Done(m));
            }
            Ok(Next::Child(m, rule)) => {
                match leaf_child(s, nodes, entries, slots, room, allowance, m, rule, tables) {
                    Err(Fault { refusal, place }) => {
                        return Err(Fault { refusal, place });
                    }
                    Ok(None) => {
                        return Ok(Next::Child(m, rule));
                    }
                    Ok(Some(k)) => {
                        l = k;
                    }
                }
            }
        }
    }
}
