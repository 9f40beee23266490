// What the writer asks of chains and leaves in the stores it is lent: whether entries are linked, and whether a node is sound bytes or a sound
// string. Everything here only reads, and holds for any stores whatever: a number past a store reads as 0, as the definitions have it.
#![tactic(auto)]

ghost use Rattle.std.specs.Prelude.{◌≡◌, ◌*◌, ◌≤◌, length};
ghost use Rattle.refusals.specs.Limits.{most_bytes, most_records};
ghost use Rattle.grammar.specs.Letters;
ghost use Rattle.grammar.specs.State.{entry_width};
ghost use Rattle.grammar.specs.Record;
ghost use Rattle.chains.specs.Chained.{links, is_some, bytes_at, string_at, Straight};

use grammar::{
    ASCII_INTERNED_LETTER, ASCII_LETTER, BYTES_LETTER, INTERNED_LETTER, SHORT_INTERNED_LETTER,
    SHORT_LETTER, SMALL_TUPLE_LETTER, TUPLE_LETTER, UNICODE_LETTER,
};

// How many entries, from one on and up to so many, are each linked to the one behind it, as a reading leaves the leaves of a row.
// None of these waits for the one before it.
fn straight(entries: &[u32], room: u32, first: u32, steps: u32) -> u32
    requires { (room * entry_width ≤ length entries.now) × (room ≤ most_records) }
    ensures { Straight entries.now room first steps result }
{
    let mut e = first;
    for i in 0..steps {
        if room <= e {
            return i;
        }
        if stores::next_at(entries, e) != e + 1 {
            return i;
        }
        e += 1;
    }
    steps
}

// Whether so many entries are linked from one on. More steps than there are entries can only go round, and are not taken.
pub fn linked(entries: &[u32], used: u32, first: u32, count: u32) -> bool
    ensures { result ≡ is_some (Record.chain (links entries.now used) count first) }
{
    let room = stores::entries_in(entries, used);
    let steps = stores::at_most(count as usize, room + 1);
    let ahead = straight(entries, room, first, steps);
    let mut e = first + ahead;
    for _ in ahead..steps {
        if room <= e {
            return false;
        }
        e = stores::next_at(entries, e);
    }
    true
}

// bytes: s
fn is_bytes(letter: u32) -> bool
    ensures { result ≡ Letters.is_bytes letter }
{
    match letter {
        BYTES_LETTER => true,
        _ => false,
    }
}

// tuples: ( )
pub fn is_tuple(letter: u32) -> bool
    ensures { result ≡ Letters.is_tuple letter }
{
    match letter {
        TUPLE_LETTER => true,
        SMALL_TUPLE_LETTER => true,
        _ => false,
    }
}

// strings: u t a A z Z
pub fn is_string(letter: u32) -> bool
    ensures { result ≡ Letters.is_string letter }
{
    match letter {
        UNICODE_LETTER => true,
        INTERNED_LETTER => true,
        ASCII_LETTER => true,
        ASCII_INTERNED_LETTER => true,
        SHORT_LETTER => true,
        SHORT_INTERNED_LETTER => true,
        _ => false,
    }
}

// Whether a node is a sound string.
pub fn string_at(s: &[u8], nodes: &[u32], used: u32, node: u32) -> bool
    requires { length s.now ≤ most_bytes }
    ensures { result ≡ string_at s.now nodes.now used node }
{
    if stores::nodes_in(nodes, used) <= node {
        return false;
    }
    let n = stores::node_at(nodes, node);
    if !is_string(n.letter) {
        return false;
    }
    soundness::text_sound(s, n)
}

// Whether a node is sound bytes.
pub fn bytes_at(s: &[u8], nodes: &[u32], used: u32, node: u32) -> bool
    ensures { result ≡ bytes_at s.now nodes.now used node }
{
    if stores::nodes_in(nodes, used) <= node {
        return false;
    }
    let n = stores::node_at(nodes, node);
    if !is_bytes(n.letter) {
        return false;
    }
    if s.len() < n.place as usize + n.size as usize {
        return false;
    }
    n.count == 0
}
