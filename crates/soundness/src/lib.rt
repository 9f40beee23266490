// The record test behind refusal 16, for any node store, also one that no reading made: the leaf question and the writer ask it.
// Only a node's own numbers are tested: chains, and what the parts of a code are, are the writer's.
#![tactic(auto)]

ghost use Rattle.std.specs.Prelude.{◌≡◌, true, ◌+◌, ◌≤◌, ◌<◌, length};
ghost use Rattle.refusals.specs.Limits.{most_bytes};
ghost use Rattle.grammar.specs.Letters.{codes, is_string};
ghost use Rattle.wtf8.specs.Forms.{well_formed};
ghost use Rattle.grammar.specs.Fields;
ghost use Rattle.grammar.specs.Record;
ghost use Rattle.fields.specs.Classes.{class_at, form_classes};
ghost use Rattle.fields.specs.Behind.{children_of};
ghost use Rattle.stores.specs.Written.{node_of};
ghost use Rattle.soundness.specs.Texts.{too_long};

use fields::cursor::Cursor;
use grammar::{CODE_NUMBERS, CODE_PARTS, SHORT_INTERNED_LETTER, SHORT_LETTER};

// Whether a count is what the fields say of the children.
fn counted(kids: fields::Kids, count: u32) -> bool
    ensures { result ≡ Record.counted (children_of kids) count }
{
    match kids {
        fields::Kids::Items(items) => count == items,
        fields::Kids::Pairs => count % 2 == 0,
        fields::Kids::Parts => count == CODE_PARTS,
    }
}

// A container's or a number's fields, read again from its place, give its size and its count.
fn read_again(s: &[u8], node: stores::Node, class: u32) -> bool
    requires { (class < form_classes) × (node.place ≤ length s.now) × (length s.now ≤ most_bytes) }
    ensures { result ≡ Record.ruled s.now (node_of node) (class_at class) }
{
    let from = Cursor {
        input: s,
        at: node.place,
    };
    match fields::read_form(from, class) {
        Err(_) => false,
        Ok(read) => node.size == read.size && counted(read.kids, node.count),
    }
}

// A string's contents, at its place.
fn well_formed(s: &[u8], place: u32, size: u32) -> bool
    requires { (place + size ≤ length s.now) × (length s.now ≤ most_bytes) }
    ensures { result ≡ well_formed (Fields.contents s.now place size) }
{
    let from = place as usize;
    wtf8::is_wtf8(&s[from..from + size as usize])
}

// A code's size, first line, count and argument sum.
fn code_ruled(s: &[u8], node: stores::Node) -> bool
    requires { length s.now ≤ most_bytes }
    ensures { result ≡ Record.ruled s.now (node_of node) codes }
{
    let place = node.place as usize;
    if node.size < CODE_NUMBERS {
        return false;
    }
    if s.len() < place + node.size as usize + 4 {
        return false;
    }
    if node.count != CODE_PARTS {
        return false;
    }
    fields::argument_sum(s, place) < 0x1_0000_0000
}

// The node's letter is kept, and its numbers are what the letter's rules ask.
fn ruled(s: &[u8], node: stores::Node, class: u32) -> bool
    requires { (node.place + node.size ≤ length s.now) × (length s.now ≤ most_bytes) }
    ensures { result ≡ Record.ruled s.now (node_of node) (class_at class) }
{
    if class < fields::BYTES_CLASS {
        return read_again(s, node, class);
    }
    match class {
        fields::BYTES_CLASS => node.count == 0,
        fields::TEXT_CLASS => {
            if node.count != 0 {
                return false;
            }
            well_formed(s, node.place, node.size)
        }
        fields::SHORT_CLASS => {
            if node.count != 0 {
                return false;
            }
            if 255 < node.size {
                return false;
            }
            well_formed(s, node.place, node.size)
        }
        fields::CODE_CLASS => code_ruled(s, node),
        _ => false,
    }
}

// A node whose span lies in the input and whose numbers are ruled.
pub fn sound(s: &[u8], node: stores::Node) -> bool
    requires { length s.now ≤ most_bytes }
    ensures { result ≡ Record.sound s.now (node_of node) }
{
    if s.len() < node.place as usize + node.size as usize {
        return false;
    }
    ruled(s, node, fields::class_of(node.letter))
}

// Whether so many bytes are more than a string's letter counts: of z and Z, in one byte.
fn too_long(letter: u32, size: u32) -> bool
    ensures { result ≡ too_long letter size }
{
    if size <= 255 {
        return false;
    }
    match letter {
        SHORT_LETTER => true,
        SHORT_INTERNED_LETTER => true,
        _ => false,
    }
}

// The same of a node with a string's letter, whose class need not be looked up.
pub fn text_sound(s: &[u8], node: stores::Node) -> bool
    requires { (length s.now ≤ most_bytes) × (is_string node.letter ≡ true) }
    ensures { result ≡ Record.sound s.now (node_of node) }
{
    if s.len() < node.place as usize + node.size as usize {
        return false;
    }
    if node.count != 0 {
        return false;
    }
    if too_long(node.letter, node.size) {
        return false;
    }
    well_formed(s, node.place, node.size)
}

// Whether the node of a number is in the store and sound.
pub fn sound_at(s: &[u8], nodes: &[u32], used: u32, node: u32) -> bool
    requires { length s.now ≤ most_bytes }
    ensures { result ≡ Record.sound_at s.now nodes.now used node }
{
    if stores::nodes_in(nodes, used) <= node {
        return false;
    }
    sound(s, stores::node_at(nodes, node))
}
