// The leaf question: what a node without children is, for any node store.
// Whole numbers and floats are read from the input at the node's place; a float's stored bits stand beside it.
#![tactic(auto)]

ghost use Rattle.std.specs.Prelude.{◌≡◌, true, not, ◌+◌, ◌*◌, ◌≤◌, ◌<◌, length};
ghost use Rattle.std.specs.Float.{nan, binary64};
ghost use Rattle.std.specs.Float.Ieee.{of_bits};
ghost use Rattle.refusals.specs.Limits.{most_bytes};
ghost use Rattle.grammar.specs.Leaf as definition;
ghost use Rattle.grammar.specs.Record;
ghost use Rattle.grammar.specs.Numbered.{numbered};
ghost use Rattle.stores.specs.Written.{node_of};
ghost use Rattle.soundness.specs.Held.{LongAt};
ghost use Rattle.leaf.specs.Answers.{kind_of, plainly, told_of, answered_of};
ghost use Rattle.leaf.specs.Longs.{Measures};

use refusals::{Fault, Refusal};

// What a leaf is.
#[derive(Clone, Copy, Debug, PartialEq)]
pub enum Leaf {
    None,
    Truth(bool),
    Ellipsis,
    Stop,
    Whole(i64),
    Float(f64),
    Complex(f64, f64),
    Wide,
    NotLeaf,
}

// The leaf with the numbers of its case beside it: a truth value's 0 or 1, a whole number's bits, the stored bits of one or two floats.
#[derive(Clone, Copy, Debug, PartialEq)]
pub struct Told {
    pub leaf: Leaf,
    pub first: u64,
    pub second: u64,
}

// The number of a leaf's case.
// The exports give the case by the documents' number, with the bits beside it: a `From` would not say that the value is dropped.
pub fn kind_of(leaf: Leaf) -> u32
    ensures { result ≡ kind_of leaf }
{
    match leaf {
        Leaf::NotLeaf => 0,
        Leaf::None => 1,
        Leaf::Truth(_) => 2,
        Leaf::Ellipsis => 3,
        Leaf::Stop => 4,
        Leaf::Whole(_) => 5,
        Leaf::Float(_) => 6,
        Leaf::Complex(_, _) => 7,
        Leaf::Wide => 8,
    }
}

// The language's one NaN.
fn not_a_number() -> f64
    ensures { result ≡ nan }
{
    0.0 / 0.0
}

// The float that stored bits stand for. Which of the NaNs they are stays with the bits.
#[tactic(auto, using(crate::proofs::Patterns::no_nan, crate::proofs::Patterns::a_nan))]
pub fn float_of(bits: u64) -> f64
    ensures { result ≡ of_bits binary64 bits }
{
    if 0x7FF0_0000_0000_0000 < bits % 0x8000_0000_0000_0000 {
        not_a_number()
    } else {
        f64::from_bits(bits)
    }
}

// A leaf that has no numbers.
fn plain(leaf: Leaf) -> Told
    ensures { result ≡ plainly leaf }
{
    Told {
        leaf,
        first: 0,
        second: 0,
    }
}

// A truth is told as a number: the flag is the value itself, no choice of steps.
fn truth(value: bool) -> Told
    ensures { result ≡ told_of (definition.truth value) }
{
    Told {
        leaf: Leaf::Truth(value),
        first: u64::from(value),
        second: 0,
    }
}

fn whole(bits: u64) -> Told
    ensures { result ≡ told_of (definition.whole bits) }
{
    Told {
        leaf: Leaf::Whole(signed::signed64(bits)),
        first: bits,
        second: 0,
    }
}

fn float(bits: u64) -> Told
    ensures { result ≡ told_of (definition.float bits) }
{
    Told {
        leaf: Leaf::Float(float_of(bits)),
        first: bits,
        second: 0,
    }
}

fn complex(real: u64, imaginary: u64) -> Told
    ensures { result ≡ told_of (definition.complex real imaginary) }
{
    Told {
        leaf: Leaf::Complex(float_of(real), float_of(imaginary)),
        first: real,
        second: imaginary,
    }
}

// Signed 32 bits as 64.
fn extended(word: u32) -> u64
    ensures { result ≡ definition.extended word }
{
    i64::from(signed::signed32(word)).cast_unsigned()
}

// The number that so many 15-bit digits stand for, from the last to the first, where it is not known to be above 2^63: what is above 2^48
// with a digit to come is above 2^63.
// The input and a place, as `le16` and the definition read it: a slice of the digits would need a law that both come to the same number.
fn magnitude(s: &[u8], count: u32, at: u32) -> Option<u64>
    requires { (at + 2 * count ≤ length s.now) × (length s.now ≤ most_bytes) }
    ensures { Measures (definition.magnitude s.now count at) result }
{
    let mut number = 0u64;
    for left in (0..count).rev() {
        if 0x1_0000_0000_0000 < number {
            return None;
        }
        let digit = fields::le16(s, (at + 2 * left) as usize);
        number = digit as u64 + 32768 * number;
    }
    Some(number)
}

// A number of a sign and a magnitude, if it fits 64 bits.
// The sign is a part of the number, no choice of steps.
fn long_of(negative: bool, number: u64) -> Told
    requires { negative ≡ true → 0 < number }
    ensures { result ≡ told_of (definition.long_of (not negative) number) }
{
    if negative {
        if 0x8000_0000_0000_0000 < number {
            return plain(Leaf::Wide);
        }
        return whole(0xFFFF_FFFF_FFFF_FFFF - number + 1);
    }
    if 0x8000_0000_0000_0000 <= number {
        return plain(Leaf::Wide);
    }
    whole(number)
}

// A long number whose fields are at a place.
fn long_leaf(s: &[u8], place: u32) -> Told
    requires { (LongAt s.now place) × (length s.now ≤ most_bytes) }
    ensures { result ≡ told_of (definition.long_leaf s.now place) }
{
    let word = fields::le32(s, place as usize);
    match magnitude(s, fields::digit_count(word), place + 4) {
        None => plain(Leaf::Wide),
        Some(number) => long_of(0x8000_0000 <= word, number),
    }
}

// What a sound node is, by its letter.
fn leaf_as(s: &[u8], node: stores::Node) -> Told
    requires { (Record.sound s.now (node_of node) ≡ true) × (length s.now ≤ most_bytes) }
    ensures { result ≡ told_of (definition.leaf_as s.now node.letter node.place) }
{
    let place = node.place;
    let at = place as usize;
    let letter = node.letter;
    match letter {
        grammar::NONE_LETTER => plain(Leaf::None),
        grammar::FALSE_LETTER => truth(false),
        grammar::TRUE_LETTER => truth(true),
        grammar::ELLIPSIS_LETTER => plain(Leaf::Ellipsis),
        grammar::STOP_LETTER => plain(Leaf::Stop),
        grammar::INT_LETTER => whole(extended(fields::le32(s, at))),
        grammar::INT64_LETTER => whole(fields::le64(s, at)),
        grammar::FLOAT_LETTER => float(fields::le64(s, at)),
        grammar::COMPLEX_LETTER => complex(fields::le64(s, at), fields::le64(s, at + 8)),
        grammar::LONG_LETTER => long_leaf(s, place),
        _ => plain(Leaf::NotLeaf),
    }
}

// The leaf of a node: 14 before all, then 16 at the node number.
// The input, the nodes with the count of those that are used, and the node: C lends these four.
#[tactic(auto, unfolding(grammar::specs::Leaf::leaf_of))]
pub fn leaf_of(input: &[u8], nodes: &[u32], used: u32, node: u32) -> Result<Told, Fault>
    ensures { numbered result ≡ answered_of (definition.leaf_of input.now nodes.now used node) }
{
    if (refusals::MOST_BYTES as usize) < input.len() {
        return Err(Refusal::InputTooLong.at(0));
    }
    if !soundness::sound_at(input, nodes, used, node) {
        return Err(Refusal::BadTable.at(node));
    }
    Ok(leaf_as(input, stores::node_at(nodes, node)))
}
