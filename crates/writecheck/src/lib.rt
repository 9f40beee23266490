// What the writer asks of the stores it is lent before it writes a node: its record, its chain, and the parts of a code.
// Everything here only reads, and holds for any stores whatever: a number past a store reads as 0, as the definitions have it.
#![tactic(auto)]

ghost use Rattle.std.specs.Prelude.{◌≡◌, ◌<◌, get_or};
ghost use Rattle.grammar.specs.State.{entry_at};
ghost use Rattle.grammar.specs.Steps.{rules, whatever, as_tuple, as_names, code_parts, code_part, locals_part, kinds_part};
ghost use Rattle.grammar.specs.Record;
ghost use Rattle.chains.specs.Chained.{is_some, Names};
ghost use Rattle.writecheck.specs.Looking.{lent_of, fits, NamesFit, Parts, after, part_of, evenly, Looks};

pub mod lending;

use grammar::{
    CODE_LETTER, CODE_PART, CODE_PARTS, CONSTANTS_PART, FILE_PART, KINDS_PART, LOCALS_PART,
    NAME_PART, NAMES_PART, QUALIFIED_NAME_PART,
};
pub use lending::{Bounded, Lent, Used};

// Whether so many children, linked from an entry on, are sound strings: those that go round are tested once.
fn named(values: &Bounded, first: u32, count: u32) -> bool
    ensures { Names (lent_of values.now.lent) first count result }
{
    let room = stores::entries_in(values.lent.entries, values.lent.used.entries);
    let steps = stores::at_most(count as usize, room + 1);
    let mut e = first;
    for _ in 0..steps {
        if room <= e {
            return false;
        }
        if !chains::string_at(
            values.lent.input,
            values.lent.nodes,
            values.lent.used.nodes,
            stores::child_of(values.lent.entries, e),
        ) {
            return false;
        }
        e = stores::next_of(values.lent.entries, e);
    }
    true
}

// Whether a node's own record and its chain are sound.
fn whole(values: &Bounded, node: u32) -> bool
    ensures { result ≡ is_some (Record.whole (lent_of values.now.lent) node) }
{
    if !soundness::sound_at(
        values.lent.input,
        values.lent.nodes,
        values.lent.used.nodes,
        node,
    ) {
        return false;
    }
    let n = stores::node_of(values.lent.nodes, node);
    chains::linked(
        values.lent.entries,
        values.lent.used.entries,
        n.first,
        n.count,
    )
}

// Whether a tuple's children are all sound strings.
fn names_fit(values: &Bounded, node: u32) -> bool
    ensures { NamesFit (lent_of values.now.lent) node result }
{
    let n = stores::node_of(values.lent.nodes, node);
    if !chains::is_tuple(n.letter) {
        return false;
    }
    named(values, n.first, n.count)
}

// Whether a part of a code is a sound tuple.
fn tuple_fits(values: &Bounded, node: u32) -> bool
    ensures { result ≡ fits (lent_of values.now.lent) as_tuple node }
{
    if !whole(values, node) {
        return false;
    }
    chains::is_tuple(stores::letter_of(values.lent.nodes, node))
}

// Whether a part of a code is a sound tuple of sound strings.
fn whole_names_fit(values: &Bounded, node: u32) -> bool
    ensures { result ≡ fits (lent_of values.now.lent) as_names node }
{
    if !whole(values, node) {
        return false;
    }
    names_fit(values, node)
}

// Whether a part of a code is what its rule asks.
fn part_fits(values: &Bounded, part: u32, node: u32) -> bool
    requires { part < code_parts }
    ensures { result ≡ fits (lent_of values.now.lent) (get_or rules part whatever) node }
{
    match part {
        CONSTANTS_PART => tuple_fits(values, node),
        NAMES_PART => whole_names_fit(values, node),
        LOCALS_PART => whole_names_fit(values, node),
        FILE_PART => chains::string_at(
            values.lent.input,
            values.lent.nodes,
            values.lent.used.nodes,
            node,
        ),
        NAME_PART => chains::string_at(
            values.lent.input,
            values.lent.nodes,
            values.lent.used.nodes,
            node,
        ),
        QUALIFIED_NAME_PART => chains::string_at(
            values.lent.input,
            values.lent.nodes,
            values.lent.used.nodes,
            node,
        ),
        _ => chains::bytes_at(
            values.lent.input,
            values.lent.nodes,
            values.lent.used.nodes,
            node,
        ),
    }
}

// Whether the ten parts of a code are what their rules ask.
fn parts_fit(values: &Bounded, first: u32) -> bool
    ensures { Parts (lent_of values.now.lent) first result }
{
    let mut e = first;
    for part in 0..CODE_PARTS {
        if !part_fits(values, part, stores::child_of(values.lent.entries, e)) {
            return false;
        }
        e = stores::next_of(values.lent.entries, e);
    }
    true
}

// The node of a code's part.
pub fn part_at(entries: &[u32], first: u32, part: u32) -> u32
    ensures { result ≡ (entry_at entries.now (after entries.now part first)).child }
{
    let mut e = first;
    for _ in 0..part {
        e = stores::next_of(entries, e);
    }
    stores::child_of(entries, e)
}

// As many kinds as local names, and an even number of code bytes.
fn ends_fit(lent: &Lent, first: u32) -> bool
    ensures { result ≡ evenly lent.now.nodes.now (part_of lent.now.entries.now first code_part) (part_of lent.now.entries.now first locals_part) (part_of lent.now.entries.now first kinds_part) }
{
    let code = stores::node_of(lent.nodes, part_at(lent.entries, first, CODE_PART));
    let locals = stores::node_of(lent.nodes, part_at(lent.entries, first, LOCALS_PART));
    let kinds = stores::node_of(lent.nodes, part_at(lent.entries, first, KINDS_PART));
    if locals.count != kinds.size {
        return false;
    }
    code.size % 2 == 0
}

// The record test of a node, with its chain, and for a code with its parts.
pub fn look(values: &Bounded, node: u32) -> bool
    ensures { Looks (lent_of values.now.lent) node result }
{
    if !whole(values, node) {
        return false;
    }
    let n = stores::node_of(values.lent.nodes, node);
    if n.letter != CODE_LETTER {
        return true;
    }
    if !parts_fit(values, n.first) {
        return false;
    }
    ends_fit(&values.lent, n.first)
}
