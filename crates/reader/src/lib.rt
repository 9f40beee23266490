// The reader: `deserialize_value`, and below it a reader of values and a reader of containers and of code that call one another.
// The nesting allowance falls from a value to its container or its code's body, and from a code's body to its parts once more.
#![tactic(auto)]

ghost use Rattle.std.specs.Prelude.{◌≡◌, ℕ, ◌+◌, ◌*◌, ◌≤◌, ◌<◌, length, get_or};
ghost use Rattle.grammar.specs.Answer.{read_of};
ghost use Rattle.readsteps.specs.Held.{Safe, LineIn};
ghost use Rattle.readleaves.specs.Turns.{PartsIn};
ghost use Rattle.readleaves.specs.Readings.{ReadsValue, ReadsBody, ReadsChild};
ghost use Rattle.reader.specs.Delivered.{Delivers};

use fields::Kids;
use fields::byte_tables::{ByteTables, ClassTable, LeadTable};
use readsteps::{Line, Next, Opened, Room, Step, Walk};
use refusals::{Fault, Refusal};

// A value, the Rust's deserialize_value_depth: what stands before its children, then these, then its record and its slot, which are
// written when it is complete. Letter and flag are read again then, so that no level holds them while its children are read.
#[cycle(child_typed_value)]
fn value(
    s: &[u8],
    nodes: &mut [u32],
    entries: &mut [u32],
    slots: &mut [u32],
    room: Room,
    allowance: u32,
    w: Walk,
    tables: &ByteTables,
) -> Result<Step, Fault>
    requires { Safe s.now room w nodes.old entries.old slots.old }
    ensures { ReadsValue s.now room allowance w nodes.old entries.old slots.old result nodes.new entries.new slots.new }
{
    // Here, in `typed` and in `child` no `?`, as in readleaves: 89 million instructions in place of 70 for values 1,900 levels deep.
    match readsteps::front(s, slots, room, allowance, w, tables) {
        Err(Fault { refusal, place }) => Err(Fault { refusal, place }),
        Ok(Opened::Known(node, at)) => Ok(Step {
            node,
            walk: Walk { at, ..w },
        }),
        Ok(Opened::Node(h, kids)) => {
            let node = w.nodes;
            let slot = w.slots;
            let inside = Walk {
                at: h.place + h.size,
                nodes: node + 1,
                entries: w.entries,
                slots: slot + h.flag,
            };
            let line = Line {
                first: refusals::NOTHING,
                last: refusals::NOTHING,
                count: 0,
                line: 0,
                code: 0,
                locals: 0,
                kinds: 0,
                walk: inside,
            };
            let l = match typed(
                s,
                nodes,
                entries,
                slots,
                room,
                allowance - 1,
                line,
                kids,
                w.at,
                tables,
            ) {
                Ok(l) => l,
                Err(Fault { refusal, place }) => {
                    return Err(Fault { refusal, place });
                }
            };
            let size = readsteps::node_size(kids, h.place, h.size, l.line);
            let byte = readsteps::byte_at(s, w.at);
            let record = stores::Node {
                letter: byte % 128,
                place: h.place,
                size,
                first: l.first,
                count: l.count,
                end: l.walk.at,
                input: 0,
            };
            stores::fill_slot(slots, byte / 128, slot, node);
            stores::write_node(nodes, node, record);
            Ok(Step { node, walk: l.walk })
        }
    }
}

// The children of a container, or the parts of a code, one after another; the Rust's deserialize_value_typed and
// deserialize_code_value_inner. It has the value's allowance less one, and hands it on to children; a code's body hands its parts one
// less again. `readleaves::run` reads those that are plain, `child` any other.
#[cycle(child_typed_value)]
fn typed(
    s: &[u8],
    nodes: &mut [u32],
    entries: &mut [u32],
    slots: &mut [u32],
    room: Room,
    allowance: u32,
    line: Line,
    kids: Kids,
    header: u32,
    tables: &ByteTables,
) -> Result<Line, Fault>
    requires { Safe s.now room line.walk nodes.old entries.old slots.old × LineIn line × (line.count ≡ 0) × PartsIn kids allowance header s.now }
    ensures { ReadsBody kids header s.now room allowance line nodes.old entries.old slots.old
        result nodes.new entries.new slots.new }
{
    let below = readsteps::below(kids, allowance);
    let mut l = line;
    loop {
        match readleaves::run(
            s, nodes, entries, slots, room, below, l, kids, header, tables,
        ) {
            Err(Fault { refusal, place }) => {
                return Err(Fault { refusal, place });
            }
            Ok(Next::Done(m)) => {
                return Ok(m);
            }
            Ok(Next::Child(m, rule)) => {
                match child(s, nodes, entries, slots, room, below, m, rule, tables) {
                    Err(Fault { refusal, place }) => {
                        return Err(Fault { refusal, place });
                    }
                    Ok(k) => {
                        l = k;
                    }
                }
            }
        }
    }
}

// One child: a value, held to a rule, which gets its entry once it is complete.
#[cycle(child_typed_value)]
fn child(
    s: &[u8],
    nodes: &mut [u32],
    entries: &mut [u32],
    slots: &mut [u32],
    room: Room,
    allowance: u32,
    line: Line,
    rule: u32,
    tables: &ByteTables,
) -> Result<Line, Fault>
    requires { Safe s.now room line.walk nodes.old entries.old slots.old × LineIn line }
    ensures { ReadsChild rule s.now room allowance line nodes.old entries.old slots.old
        result nodes.new entries.new slots.new }
{
    let from = line.walk;
    let step = match value(s, nodes, entries, slots, room, allowance, from, tables) {
        Ok(step) => step,
        Err(Fault { refusal, place }) => {
            return Err(Fault { refusal, place });
        }
    };
    if !readsteps::suits(rule, nodes, entries, step.node) {
        return Err(Refusal::BadType.at(from.at));
    }
    readsteps::attach(entries, room.entries, line, from.at, step.node, step.walk)
}

// A value, by the tables of header bytes and of first bytes, which are made here, once for all that is read.
fn by_tables(
    s: &[u8],
    nodes: &mut [u32],
    entries: &mut [u32],
    slots: &mut [u32],
    room: Room,
    allowance: u32,
    w: Walk,
) -> Result<Step, Fault>
    requires { Safe s.now room w nodes.old entries.old slots.old }
    ensures { ReadsValue s.now room allowance w nodes.old entries.old slots.old result nodes.new entries.new slots.new }
{
    let tables = ByteTables {
        headers: ClassTable {
            classes: fields::header_bytes::CLASSES,
        },
        first_bytes: LeadTable {
            leads: wtf8::first_bytes::LEADS,
        },
    };
    value(s, nodes, entries, slots, room, allowance, w, &tables)
}

// What was read: bytes consumed and the counts of nodes, entries and slots.
#[derive(Clone, Copy)]
pub struct Read {
    pub consumed: u32,
    pub nodes: u32,
    pub entries: u32,
    pub slots: u32,
}

// One value from the start of the input. The stores are cleared first; refused, they are all zero, and read, all past what is used is.
pub fn deserialize_value(
    input: &[u8],
    nodes: &mut [u32],
    entries: &mut [u32],
    slots: &mut [u32],
    nesting: u32,
) -> Result<Read, Fault>
    ensures { Delivers (read_of input.now (length nodes.old) (length entries.old) (length slots.old) nesting)
        result nodes.new entries.new slots.new }
{
    clearing::clear_words(nodes);
    clearing::clear_words(entries);
    clearing::clear_words(slots);
    if (refusals::MOST_BYTES as usize) < input.len() {
        return Err(Refusal::InputTooLong.at(0));
    }
    let room = Room {
        nodes: stores::node_capacity(nodes.len()),
        entries: stores::entry_capacity(entries.len()),
        slots: stores::at_most(slots.len(), refusals::MOST_RECORDS),
    };
    let allowance = stores::at_most(nesting as usize, refusals::MOST_NESTING);
    let start = Walk {
        at: 0,
        nodes: 0,
        entries: 0,
        slots: 0,
    };
    match by_tables(input, nodes, entries, slots, room, allowance, start) {
        Ok(step) => Ok(Read {
            consumed: step.walk.at,
            nodes: step.walk.nodes,
            entries: step.walk.entries,
            slots: step.walk.slots,
        }),
        Err(fault) => {
            clearing::clear_words(nodes);
            clearing::clear_words(entries);
            clearing::clear_words(slots);
            Err(fault)
        }
    }
}
