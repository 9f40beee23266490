// The steps of the reader that call no other reading: what stands in front of a value's children, a child's entry, a part's rule,
// a code's first line and its end. Each is the definition of its name in `grammar`, over the lent stores.
#![tactic(auto)]

ghost use Rattle.std.specs.Prelude.{◌≡◌, ℕ, ◌+◌, ◌*◌, ◌≤◌, ◌<◌, cond, eqb, length, get_or};
ghost use Rattle.refusals.specs.Limits.{most_bytes, most_records, nothing};
ghost use Rattle.grammar.specs.Letters.{is_bytes, is_tuple, is_string};
ghost use Rattle.grammar.specs.Fields.{parts, code_numbers};
ghost use Rattle.grammar.specs.State.{entry_width};
ghost use Rattle.grammar.specs.Steps.{rules, whatever, code_parts, size_of};
ghost use Rattle.fields.specs.Classes.{code_class, kept_classes};
ghost use Rattle.fields.specs.Behind.{children_of};
ghost use Rattle.readsteps.specs.Opening.{References, Opens, Fronts};
ghost use Rattle.readsteps.specs.Linking.{Attaches, ItemNext, PairNext, PartNext, Nexts, below_of, rule_of, rule_number, strings_in, suits_in, first_lined, fault_in, fault_number};
ghost use Rattle.readsteps.specs.Linking;
ghost use Rattle.std.specs.Prelude.{Ok};

use fields::byte_tables::{ByteTables, LeadTable};
use fields::cursor::Cursor;
use refusals::{Fault, Refusal};

// How much of each store may be used.
#[derive(Clone, Copy)]
pub struct Room {
    pub nodes: u32,
    pub entries: u32,
    pub slots: u32,
}

// Where a reading stands: the next byte, and how many of each have been claimed.
#[derive(Clone, Copy)]
pub struct Walk {
    pub at: u32,
    pub nodes: u32,
    pub entries: u32,
    pub slots: u32,
}

// A value's node, and where the reading stands after it.
#[derive(Clone, Copy)]
pub struct Step {
    pub node: u32,
    pub walk: Walk,
}

// What stands in front of a node's children.
#[derive(Clone, Copy)]
pub struct Head {
    pub letter: u32,
    pub flag: u32,
    pub place: u32,
    pub size: u32,
}

// A value that is known already and the place after it, or a node and its children to come.
#[derive(Clone, Copy)]
pub enum Opened {
    Known(u32, u32),
    Node(Head, fields::Kids),
}

// The children read so far: the first and the last of their entries, how many they are, where a code's first line stands, the three
// parts that a code's end looks at, and where the reading stands.
#[derive(Clone, Copy)]
pub struct Line {
    pub first: u32,
    pub last: u32,
    pub count: u32,
    pub line: u32,
    pub code: u32,
    pub locals: u32,
    pub kinds: u32,
    pub walk: Walk,
}

// What comes next among a node's children: one more, held to a rule; or they are done, and the line stands behind them.
#[derive(Clone, Copy)]
pub enum Next {
    Child(Line, u32),
    Done(Line),
}

// A reference's index: the node that its slot names. An index not yet reserved, or still open, is refused.
pub fn resolve_ref(from: Cursor, slots: &[u32]) -> Result<Opened, Fault>
    ensures { References from.entry.input.now slots.now from.entry.at result }
{
    let p = from.at as usize;
    if from.input.len() < p + 4 {
        return Err(Refusal::DataTooShort.at(from.at));
    }
    let stored = stores::slot_of(slots, fields::le32(from.input, p));
    if stored == 0 {
        return Err(Refusal::InvalidRef.at(from.at));
    }
    Ok(Opened::Known(stored - 1, from.at + 4))
}

// How many levels a node of this class needs: two for a code, its header's and its body's.
fn levels(class: u32) -> u32
    ensures { result ≡ cond (eqb class code_class) 2 1 }
{
    if class == fields::CODE_CLASS { 2 } else { 1 }
}

// The fields of a node whose slot and record are claimed. A code's body is tested for its level before any field.
fn open_node(
    from: Cursor,
    allowance: u32,
    letter: u32,
    flag: u32,
    class: u32,
    table: &LeadTable,
) -> Result<Opened, Fault>
    requires { (0 < allowance) × (class < kept_classes) }
    ensures { Opens from.entry.input.now allowance letter flag class from.entry.at result }
{
    if allowance < levels(class) {
        return Err(Refusal::TooDeep.at(from.at));
    }
    // Here and in `next_part` no `?`, as in readleaves: 17.3 million instructions in place of 15.8 for code objects of CPython's library.
    match fields::read_fields(from, class, table) {
        Err(Fault { refusal, place }) => Err(Fault { refusal, place }),
        Ok(behind) => {
            let head = Head {
                letter,
                flag,
                place: behind.place,
                size: behind.size,
            };
            Ok(Opened::Node(head, behind.kids))
        }
    }
}

pub fn byte_at(s: &[u8], at: u32) -> u32
    requires { at < length s.now }
    ensures { (result ≡ get_or s.now at 0) × (result < 256) }
{
    s[at as usize] as u32
}

// All that comes before a value's children, in 01's order: allowance, header, reference, slot, letter, node, fields. It only reads:
// what it claims is claimed by going on.
pub fn front(
    s: &[u8],
    slots: &[u32],
    room: Room,
    allowance: u32,
    w: Walk,
    tables: &ByteTables,
) -> Result<Opened, Fault>
    requires { (w.at ≤ length s.now) × (length s.now ≤ most_bytes) × (w.slots ≤ room.slots) × (room.slots ≤ most_records) }
    ensures { Fronts s.now slots.now room allowance w result }
{
    let at = w.at;
    if allowance == 0 {
        return Err(Refusal::TooDeep.at(at));
    }
    if s.len() <= at as usize {
        return Err(Refusal::EofObject.at(at));
    }
    let byte = byte_at(s, at);
    let letter = byte % 128;
    let flag = byte / 128;
    let class = fields::class_at(&tables.headers, byte);
    let from = Cursor {
        input: s,
        at: at + 1,
    };
    if class == fields::REFERENCE_CLASS {
        return resolve_ref(from, slots);
    }
    if room.slots < w.slots + flag {
        return Err(Refusal::NoSlot.at(at));
    }
    if fields::REFUSED_CLASS <= class {
        return Err(fields::refusal_of(class).at(at));
    }
    if room.nodes <= w.nodes {
        return Err(Refusal::NoNode.at(at));
    }
    open_node(from, allowance, letter, flag, class, &tables.first_bytes)
}

// The node of one part of a code: this child, where so many came before it.
fn kept(part: u32, count: u32, child: u32, before: u32) -> u32
    ensures { result ≡ Linking.kept part count child before }
{
    if count == part { child } else { before }
}

// A child that was read from `place` on is complete: it gets an entry behind the last one.
pub fn attach(
    entries: &mut [u32],
    room: u32,
    line: Line,
    place: u32,
    child: u32,
    after: Walk,
) -> Result<Line, Fault>
    requires { (room * entry_width ≤ length entries.old) × (room ≤ most_records) × ((line.last ≡ nothing → ⊥) → line.last < after.entries) × (line.count ≤ most_records) }
    ensures { Attaches room line place child after entries.old result entries.new }
{
    let e = after.entries;
    let last = line.last;
    if room <= e {
        return Err(Refusal::NoEntry.at(place));
    }
    let code = kept(grammar::CODE_PART, line.count, child, line.code);
    let locals = kept(grammar::LOCALS_PART, line.count, child, line.locals);
    let kinds = kept(grammar::KINDS_PART, line.count, child, line.kinds);
    let linked = Line {
        last: e,
        count: line.count + 1,
        code,
        locals,
        kinds,
        walk: Walk {
            entries: e + 1,
            ..after
        },
        ..line
    };
    stores::write_entry(entries, e, child);
    if last == refusals::NOTHING {
        return Ok(Line { first: e, ..linked });
    }
    stores::link_entry(entries, last, e);
    Ok(linked)
}

pub fn is_tuple(letter: u32) -> bool
    ensures { result ≡ is_tuple letter }
{
    match letter {
        grammar::TUPLE_LETTER => true,
        grammar::SMALL_TUPLE_LETTER => true,
        _ => false,
    }
}

pub fn is_string(letter: u32) -> bool
    ensures { result ≡ is_string letter }
{
    match letter {
        grammar::UNICODE_LETTER => true,
        grammar::INTERNED_LETTER => true,
        grammar::ASCII_LETTER => true,
        grammar::ASCII_INTERNED_LETTER => true,
        grammar::SHORT_LETTER => true,
        grammar::SHORT_INTERNED_LETTER => true,
        _ => false,
    }
}

// Whether so many children, linked from an entry on, are all strings.
fn strings(nodes: &[u32], entries: &[u32], count: u32, first: u32) -> bool
    ensures { result ≡ strings_in nodes.now entries.now count first }
{
    let mut e = first;
    for _ in 0..count {
        let letter = stores::letter_of(nodes, stores::child_of(entries, e));
        if !is_string(letter) {
            return false;
        }
        e = stores::next_of(entries, e);
    }
    true
}

// The rules that a child can be held to, as `specs/Linking` counts them. Numbers and no enum: the edit `another_number_for_a_rule` gives a
// part a number that is no rule's.
pub const WHATEVER: u32 = 0;

pub const AS_BYTES: u32 = 1;

pub const AS_TUPLE: u32 = 2;

pub const AS_NAMES: u32 = 3;

pub const AS_STRING: u32 = 4;

// The rule of the ith part of a code.
fn rule_at(i: u32) -> u32
    ensures { result ≡ rule_number (get_or rules i whatever) }
{
    match i {
        grammar::CODE_PART => AS_BYTES,
        grammar::CONSTANTS_PART => AS_TUPLE,
        grammar::NAMES_PART => AS_NAMES,
        grammar::LOCALS_PART => AS_NAMES,
        grammar::KINDS_PART => AS_BYTES,
        grammar::FILE_PART => AS_STRING,
        grammar::NAME_PART => AS_STRING,
        grammar::QUALIFIED_NAME_PART => AS_STRING,
        grammar::LINES_PART => AS_BYTES,
        grammar::EXCEPTIONS_PART => AS_BYTES,
        _ => WHATEVER,
    }
}

// Whether a node suits a rule.
pub fn suits(rule: u32, nodes: &[u32], entries: &[u32], v: u32) -> bool
    ensures { result ≡ suits_in (rule_of rule) nodes.now entries.now v }
{
    if rule == WHATEVER {
        return true;
    }
    let letter = stores::letter_of(nodes, v);
    if rule == AS_BYTES {
        return letter == grammar::BYTES_LETTER;
    }
    if rule == AS_TUPLE {
        return is_tuple(letter);
    }
    if rule == AS_NAMES {
        if !is_tuple(letter) {
            return false;
        }
        let count = stores::count_of(nodes, v);
        let first = stores::first_of(nodes, v);
        return strings(nodes, entries, count, first);
    }
    is_string(letter)
}

// The first line, which stands before the ninth part.
fn first_line(s: &[u8], i: u32, line: Line) -> Result<Line, Fault>
    requires { (line.walk.at ≤ length s.now) × (length s.now ≤ most_bytes) }
    ensures { result ≡ first_lined s.now i line }
{
    if i != grammar::LINE_PART {
        return Ok(line);
    }
    let at = line.walk.at;
    if s.len() < at as usize + 4 {
        return Err(Refusal::DataTooShort.at(at));
    }
    Ok(Line {
        line: at,
        walk: Walk {
            at: at + 4,
            ..line.walk
        },
        ..line
    })
}

// The checks at a code's end.
fn code_fault(s: &[u8], nodes: &[u32], place: u32, line: Line) -> Result<(), Refusal>
    requires { (place + code_numbers ≤ length s.now) × (length s.now ≤ most_bytes) }
    ensures { fault_number result ≡ fault_in s.now nodes.now place line }
{
    let names = stores::count_of(nodes, line.locals);
    let kinds = stores::size_of(nodes, line.kinds);
    if names != kinds {
        return Err(Refusal::InvalidBytecode);
    }
    if 0x1_0000_0000 <= fields::argument_sum(s, place as usize) {
        return Err(Refusal::NumberRange);
    }
    if stores::size_of(nodes, line.code) % 2 != 0 {
        return Err(Refusal::InvalidBytecode);
    }
    Ok(())
}

// A node's size: that of its fields, but a code's is the distance to its first line.
pub fn node_size(kids: fields::Kids, place: u32, size: u32, line: u32) -> u32
    ensures { result ≡ size_of (children_of kids) place size line }
{
    match kids {
        fields::Kids::Items(_) => size,
        fields::Kids::Pairs => size,
        fields::Kids::Parts => {
            if line < place {
                return 0;
            }
            line - place
        }
    }
}

// So many children.
fn next_item(count: u32, line: Line) -> Next
    ensures { ItemNext count line (Ok result) }
{
    if line.count < count {
        return Next::Child(line, WHATEVER);
    }
    Next::Done(line)
}

// A dict's keys and values, up to the null in a key's place: that byte is looked at before the key's allowance is tested.
fn next_key(s: &[u8], line: Line) -> Result<Next, Fault>
    requires { (line.walk.at ≤ length s.now) × (length s.now ≤ most_bytes) }
    ensures { PairNext s.now line result }
{
    if line.count % 2 != 0 {
        return Ok(Next::Child(line, WHATEVER));
    }
    let w = line.walk;
    if s.len() <= w.at as usize {
        return Err(Refusal::EofObject.at(w.at));
    }
    if byte_at(s, w.at) % 128 != grammar::NULL_LETTER {
        return Ok(Next::Child(line, WHATEVER));
    }
    Ok(Next::Done(Line {
        walk: Walk { at: w.at + 1, ..w },
        ..line
    }))
}

// After the last part of a code the checks at its end, which are refused at its header.
fn code_end(s: &[u8], nodes: &[u32], header: u32, line: Line) -> Result<Next, Fault>
    requires { (code_parts ≤ line.count) × (header + 1 + code_numbers ≤ length s.now) × (length s.now ≤ most_bytes) }
    ensures { PartNext s.now nodes.now header line result }
{
    match code_fault(s, nodes, header + 1, line) {
        Err(refusal) => Err(refusal.at(header)),
        Ok(()) => Ok(Next::Done(line)),
    }
}

// A code's ten parts, each held to its rule, the first line before the ninth.
fn next_part(s: &[u8], nodes: &[u32], header: u32, line: Line) -> Result<Next, Fault>
    requires { (line.walk.at ≤ length s.now) × (header + 1 + code_numbers ≤ length s.now) × (length s.now ≤ most_bytes) }
    ensures { PartNext s.now nodes.now header line result }
{
    if grammar::CODE_PARTS <= line.count {
        return code_end(s, nodes, header, line);
    }
    match first_line(s, line.count, line) {
        Err(Fault { refusal, place }) => Err(Fault { refusal, place }),
        Ok(part) => Ok(Next::Child(part, rule_at(line.count))),
    }
}

// What comes next among the children of a node of any kind.
pub fn next_child(
    s: &[u8],
    nodes: &[u32],
    kids: fields::Kids,
    header: u32,
    line: Line,
) -> Result<Next, Fault>
    requires { (line.walk.at ≤ length s.now) × (length s.now ≤ most_bytes) × (children_of kids ≡ parts → header + 1 + code_numbers ≤ length s.now) }
    ensures { Nexts s.now nodes.now kids header line result }
{
    match kids {
        fields::Kids::Items(count) => Ok(next_item(count, line)),
        fields::Kids::Pairs => next_key(s, line),
        fields::Kids::Parts => next_part(s, nodes, header, line),
    }
}

// The allowance of a node's children: a container's have what the container has, and a code's body hands its parts one less again.
pub fn below(kids: fields::Kids, allowance: u32) -> u32
    requires { children_of kids ≡ parts → 0 < allowance }
    ensures { result ≡ below_of kids allowance }
{
    match kids {
        fields::Kids::Items(_) => allowance,
        fields::Kids::Pairs => allowance,
        fields::Kids::Parts => allowance - 1,
    }
}
