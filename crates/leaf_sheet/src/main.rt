// Leaf answers, a line each: the bytes of a value, or of one node's fields, and what the node is or why it is refused.
// Numbers stand beside a case as its 64 bits, so that a NaN shows which one was stored.
#![tactic(auto)]

use leaf::{Leaf, Told};
use printing::{say, say_bits, say_bytes, say_fault, say_number};
use refusals::Fault;
use std::io::{self, BufWriter, Write};

fn say_leaf(out: &mut impl Write, leaf: Leaf) -> io::Result<()> {
    match leaf {
        Leaf::None => say(out, b"none"),
        Leaf::Truth(_) => say(out, b"truth"),
        Leaf::Ellipsis => say(out, b"ellipsis"),
        Leaf::Stop => say(out, b"stop"),
        Leaf::Whole(_) => say(out, b"whole"),
        Leaf::Float(_) => say(out, b"float"),
        Leaf::Complex(_, _) => say(out, b"complex"),
        Leaf::Wide => say(out, b"wide"),
        Leaf::NotLeaf => say(out, b"not a leaf"),
    }
}

fn say_answer(out: &mut impl Write, answer: Result<Told, Fault>) -> io::Result<()> {
    match answer {
        Ok(told) => {
            let leaf = told.leaf;
            say_number(out, leaf::kind_of(leaf) as u64)?;
            say(out, b" ")?;
            say_leaf(out, leaf)?;
            say_bits(out, told.first)?;
            say_bits(out, told.second)?;
        }
        Err(fault) => say_fault(out, fault)?,
    }
    say(out, b"\n")
}

// The first node of a value, as the reader leaves it.
fn show(out: &mut impl Write, input: &[u8]) -> io::Result<()> {
    let mut nodes = [0u32; 35];
    say(out, b"read")?;
    say_bytes(out, input)?;
    say(out, b" -> ")?;
    match reader::deserialize_value(input, &mut nodes, &mut [0; 8], &mut [0; 1], 2) {
        Err(fault) => {
            say_fault(out, fault)?;
            say(out, b"\n")?;
        }
        Ok(read) => {
            say_answer(out, leaf::leaf_of(input, &nodes, read.nodes, 0))?;
        }
    }
    Ok(())
}

fn singles(out: &mut impl Write) -> io::Result<()> {
    show(out, b"N")?;
    show(out, b"F")?;
    show(out, b"T")?;
    show(out, b".")?;
    show(out, b"S")
}

fn wholes(out: &mut impl Write) -> io::Result<()> {
    show(out, b"i\x01\x00\x00\x00")?;
    show(out, b"i\xFF\xFF\xFF\xFF")?;
    show(out, b"I\x00\x00\x00\x00\x00\x00\x00\x80")
}

fn longs(out: &mut impl Write) -> io::Result<()> {
    show(out, b"l\x00\x00\x00\x00")?;
    show(out, b"l\x01\x00\x00\x00\x05\x00")?;
    show(out, b"l\xFF\xFF\xFF\xFF\x05\x00")?;
    show(
        out,
        b"l\x05\x00\x00\x00\xFF\x7F\xFF\x7F\xFF\x7F\xFF\x7F\x07\x00",
    )?;
    show(
        out,
        b"l\x05\x00\x00\x00\x00\x00\x00\x00\x00\x00\x00\x00\x08\x00",
    )?;
    show(
        out,
        b"l\xFB\xFF\xFF\xFF\x00\x00\x00\x00\x00\x00\x00\x00\x08\x00",
    )?;
    show(
        out,
        b"l\xFB\xFF\xFF\xFF\x01\x00\x00\x00\x00\x00\x00\x00\x08\x00",
    )?;
    show(
        out,
        b"l\x06\x00\x00\x00\x00\x00\x00\x00\x00\x00\x00\x00\x00\x00\x01\x00",
    )
}

fn floats(out: &mut impl Write) -> io::Result<()> {
    show(out, b"g\x00\x00\x00\x00\x00\x00\xF0\x3F")?;
    show(out, b"g\x01\x00\x00\x00\x00\x00\xF8\xFF")?;
    show(
        out,
        b"y\x00\x00\x00\x00\x00\x00\xF0\x7F\x01\x00\x00\x00\x00\x00\xF0\x7F",
    )
}

fn others(out: &mut impl Write) -> io::Result<()> {
    show(out, b"s\x03\x00\x00\x00abc")?;
    show(out, b")\x02NN")?;
    show(out, b":NNN")?;
    show(out, b"{NNNN0")
}

// A node that no reading leaves: of a letter, with the whole input as its fields.
fn damaged(
    out: &mut impl Write,
    letter: u8,
    fields: &[u8],
    size: u32,
    count: u32,
) -> io::Result<()> {
    let nodes = [letter as u32, 0, size, refusals::NOTHING, count, size, 0];
    say(out, &[letter])?;
    say_bytes(out, fields)?;
    say(out, b" -> ")?;
    say_answer(out, leaf::leaf_of(fields, &nodes, 1, 0))
}

// A number beyond the store, a letter that is not kept, a wrong size and count, a bad digit, a zero last digit, bytes that are no string.
fn refused(out: &mut impl Write) -> io::Result<()> {
    let nodes = [0x4E, 0, 0, refusals::NOTHING, 0, 0, 0];
    say(out, b"node 1 of 1 -> ")?;
    say_answer(out, leaf::leaf_of(b"", &nodes, 1, 1))?;
    say(out, b"node 1 of 2, one in the store -> ")?;
    say_answer(out, leaf::leaf_of(b"", &nodes, 2, 1))?;
    damaged(out, b'f', b"1", 1, 0)?;
    damaged(out, b'N', b"", 0, 1)?;
    damaged(out, b'i', b"\x01\x00\x00", 4, 0)?;
    damaged(out, b'l', b"\x01\x00\x00\x00\x00\x80", 6, 0)?;
    damaged(out, b'l', b"\x01\x00\x00\x00\x00\x00", 6, 0)?;
    damaged(out, b'l', b"\x00\x00\x00\x80\x01\x00", 6, 0)?;
    damaged(out, b'u', b"\xFF", 1, 0)?;
    damaged(out, b'{', b"", 0, 3)
}

fn main(rt: HostRuntime) -> io::Result<()> {
    let mut out = BufWriter::new(rt.alloc(), io::writer(&rt))?;
    singles(&mut out)?;
    wholes(&mut out)?;
    longs(&mut out)?;
    floats(&mut out)?;
    others(&mut out)?;
    refused(&mut out)?;
    out.flush()
}
