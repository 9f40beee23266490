// Where a node's bytes begin and end, and whether they stand alone: answered from the stores, for any stores.
// The nodes are gone through once for each of the two counts, and the chains of those inside: together no more steps than entries are used.
#![tactic(auto)]

ghost use Rattle.std.specs.Prelude.{◌≡◌, ◌&&◌, [], get_or, ◌+◌, ◌≤◌, ◌<◌};
ghost use Rattle.refusals.specs.Limits.{most_records};
ghost use Rattle.grammar.specs.Letters.{flag_of, class_of};
ghost use Rattle.grammar.specs.State.{node_at};
ghost use Rattle.grammar.specs.Record.{tables_of};
ghost use Rattle.grammar.specs.Numbered.{numbered};
ghost use Rattle.stores.specs.Written.{node_of};
ghost use Rattle.nodespan.specs.Header;
ghost use Rattle.nodespan.specs.Span as definition;
ghost use Rattle.nodespan.specs.Walk.{among, along, visits, asks, bounded, span_at, answered_of};

use refusals::{Fault, Refusal};

// The span of a node, whether it stands alone, and how many slots are reserved before it.
#[derive(Clone, Copy, Debug, PartialEq, Eq)]
pub struct Found {
    pub start: u32,
    pub end: u32,
    pub closed: bool,
    pub slots_before: u32,
}

// How many nodes and entries are used, and a span of the input of this number.
// No ghost field says that the nodes are few: the definitions name this struct, and such a field would need a file of its own.
#[derive(Clone, Copy, Debug, PartialEq, Eq)]
struct Bounds {
    many: u32,
    room: u32,
    source: u32,
    start: u32,
    end: u32,
}

// Of one node whose chain does not fail: how many steps it took, and whether all its children are inside.
#[derive(Clone, Copy, Debug, PartialEq, Eq)]
struct Walked {
    took: u32,
    all: bool,
}

// How many bytes a node's header stands before its place.
fn lead_of(letter: u32) -> u32
    ensures { result ≡ Header.lead (class_of letter) }
{
    match fields::class_of(letter) {
        fields::BYTES_CLASS => 5,
        fields::TEXT_CLASS => 5,
        fields::SHORT_CLASS => 2,
        _ => 1,
    }
}

// Where a node's header stands.
fn header_of(nodes: &[u32], node: u32) -> u32
    ensures { result ≡ Header.header_of (node_at nodes.now node) }
{
    let place = stores::place_of(nodes, node);
    let lead = lead_of(stores::letter_of(nodes, node));
    if place < lead { 0 } else { place - lead }
}

// How many bytes a node itself holds from its place on, a code's first line included.
fn own_size(letter: u32, size: u32) -> usize
    ensures { (result ≡ Header.own_size (class_of letter) size) × (result ≤ size + 4) }
{
    match fields::class_of(letter) {
        fields::CODE_CLASS => size as usize + 4,
        _ => size as usize,
    }
}

// Whether a node's header and end stand in the input, the end not before what the node itself holds.
fn spanned(s: &[u8], node: stores::Node) -> bool
    ensures { result ≡ Header.spanned s.now (node_of node) }
{
    if node.place < lead_of(node.letter) {
        return false;
    }
    if (node.end as usize) < node.place as usize + own_size(node.letter, node.size) {
        return false;
    }
    node.end as usize <= s.len()
}

// Whether a node is of the span's input and its header stands in the span.
fn inside(nodes: &[u32], b: Bounds, node: u32) -> bool
    ensures { result ≡ definition.inside (among [] nodes.now) b.source b.start b.end node }
{
    if stores::input_of(nodes, node) != b.source {
        return false;
    }
    let header = header_of(nodes, node);
    if header < b.start {
        return false;
    }
    header < b.end
}

// So many children, linked from an entry on: whether all are inside, where all are entries and nodes.
fn walk(nodes: &[u32], entries: &[u32], b: Bounds, first: u32, count: u32) -> Option<bool>
    ensures { result ≡ along (bounded nodes.now entries.now b) count first }
{
    let mut all = true;
    let mut e = first;
    for i in 0..count {
        if b.room <= e {
            return None;
        }
        let child = stores::child_of(entries, e);
        if b.many <= child {
            return None;
        }
        all = inside(nodes, b, child) && all;
        e = stores::next_of(entries, e);
    }
    Some(all)
}

// One node, with so many steps left for its chain.
fn visit(nodes: &[u32], entries: &[u32], b: Bounds, steps: u32, node: u32) -> Option<Walked>
    ensures { result ≡ visits (bounded nodes.now entries.now b) steps node }
{
    if !inside(nodes, b, node) {
        return Some(Walked { took: 0, all: true });
    }
    let count = stores::count_of(nodes, node);
    if steps < count {
        return None;
    }
    let all = walk(nodes, entries, b, stores::first_of(nodes, node), count)?;
    Some(Walked { took: count, all })
}

// Whether no entry of a node inside names a node outside.
fn closed(nodes: &[u32], entries: &[u32], b: Bounds) -> Result<bool, Fault>
    requires { b.many ≤ most_records }
    ensures { result ≡ asks (bounded nodes.now entries.now b) b.many 0 b.room }
{
    let mut all = true;
    let mut steps = b.room;
    for node in 0..b.many {
        match visit(nodes, entries, b, steps, node) {
            None => {
                return Err(Refusal::BadTable.at(node));
            }
            Some(walked) => {
                steps -= walked.took;
                all = walked.all && all;
            }
        }
    }
    Ok(all)
}

fn word(byte: u8) -> u32
    ensures { (result ≡ byte) × (result < 256) }
{
    byte as u32
}

// Whether a byte is flagged, as a number.
fn flag_at(s: &[u8], at: u32) -> u32
    ensures { (result ≡ flag_of (get_or s.now at 0)) × (result ≤ 1) }
{
    let at = at as usize;
    if s.len() <= at {
        return 0;
    }
    word(s[at]) / 128
}

// One where a node is of the span's input and its header is flagged and stands before the span.
fn reserves(s: &[u8], nodes: &[u32], b: Bounds, node: u32) -> u32
    ensures { (result ≡ definition.reserved (among s.now nodes.now) b.source b.start node) × (result ≤ 1) }
{
    if stores::input_of(nodes, node) != b.source {
        return 0;
    }
    let header = header_of(nodes, node);
    if b.start <= header {
        return 0;
    }
    flag_at(s, header)
}

// How many of the nodes do.
fn flagged_before(s: &[u8], nodes: &[u32], b: Bounds) -> u32
    requires { b.many ≤ most_records }
    ensures { result ≡ definition.flagged_before (among s.now nodes.now) b.source b.start b.many 0 }
{
    let mut slots = 0u32;
    for node in 0..b.many {
        slots += reserves(s, nodes, b, node);
    }
    slots
}

// The span of a sound node.
fn span_at(s: &[u8], nodes: &[u32], entries: &[u32], b: Bounds) -> Result<Found, Fault>
    requires { b.many ≤ most_records }
    ensures { result ≡ span_at s.now nodes.now entries.now b }
{
    let closed = closed(nodes, entries, b)?;
    Ok(Found {
        start: b.start,
        end: b.end,
        closed,
        slots_before: flagged_before(s, nodes, b),
    })
}

// The span of a node, whose input and stores with the counts of what is used of them C lends: 14 before all, then 16 at the node's number, or at that of a container whose chain fails.
pub fn span_of(
    input: &[u8],
    nodes: &[u32],
    entries: &[u32],
    used_nodes: u32,
    used_entries: u32,
    node: u32,
) -> Result<Found, Fault>
    ensures { numbered result ≡ answered_of (definition.span_of (tables_of input.now nodes.now entries.now used_nodes used_entries) node) }
{
    if (refusals::MOST_BYTES as usize) < input.len() {
        return Err(Refusal::InputTooLong.at(0));
    }
    if !soundness::sound_at(input, nodes, used_nodes, node) {
        return Err(Refusal::BadTable.at(node));
    }
    if !spanned(input, stores::node_at(nodes, node)) {
        return Err(Refusal::BadTable.at(node));
    }
    let b = Bounds {
        many: stores::nodes_in(nodes, used_nodes),
        room: stores::entries_in(entries, used_entries),
        source: stores::input_of(nodes, node),
        start: header_of(nodes, node),
        end: stores::end_of(nodes, node),
    };
    span_at(input, nodes, entries, b)
}
