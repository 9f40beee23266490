// Reads document 01's sheets P1 to P12, a code object and some refusals of room, and prints of each the answer and the stores whole, a
// dash standing for "no entry". The stores are lent full of sevens, so that what is not written shows as cleared.
#![tactic(auto)]

use printing::{say, say_field, say_refused, say_store};
use reader::Read;
use refusals::Fault;
use std::io::{self, BufWriter, Write};

fn say_answer(out: &mut impl Write, answer: Result<Read, Fault>) -> io::Result<()> {
    match answer {
        Ok(read) => {
            say(out, b"  read: consumed")?;
            say_field(out, read.consumed)?;
            say(out, b", nodes")?;
            say_field(out, read.nodes)?;
            say(out, b", entries")?;
            say_field(out, read.entries)?;
            say(out, b", slots")?;
            say_field(out, read.slots)?;
        }
        Err(fault) => {
            say(out, b"  ")?;
            say_refused(out, fault.refusal.number(), fault.place)?;
        }
    }
    say(out, b"\n")
}

// One reading into stores that are lent.
fn show(
    out: &mut impl Write,
    title: &[u8],
    input: &[u8],
    nodes: &mut [u32],
    entries: &mut [u32],
    slots: &mut [u32],
    nesting: u32,
) -> io::Result<()> {
    say(out, title)?;
    say_answer(
        out,
        reader::deserialize_value(input, nodes, entries, slots, nesting),
    )?;
    say_store(out, b"  nodes  ", nodes)?;
    say_store(out, b"  entries", entries)?;
    say_store(out, b"  slots  ", slots)
}

// One reading into stores of three nodes, two entries and one slot, with a number to spare in each but the last.
fn sheet(out: &mut impl Write, title: &[u8], input: &[u8], nesting: u32) -> io::Result<()> {
    show(
        out,
        title,
        input,
        &mut [7; 22],
        &mut [7; 5],
        &mut [7; 1],
        nesting,
    )
}

// A code object, and why it is refused with less nesting and with less room.
fn code_object(out: &mut impl Write, code: &[u8]) -> io::Result<()> {
    show(
        out,
        b"a code object, its qualified name by reference\n",
        code,
        &mut [7; 80],
        &mut [7; 23],
        &mut [7; 3],
        4,
    )?;
    show(
        out,
        b"the same, nesting 3: a name is too deep\n",
        code,
        &mut [7; 80],
        &mut [7; 23],
        &mut [7; 3],
        3,
    )?;
    show(
        out,
        b"the same, ten entries: none for the exception table\n",
        code,
        &mut [7; 80],
        &mut [7; 21],
        &mut [7; 3],
        4,
    )
}

fn main(rt: HostRuntime) -> io::Result<()> {
    let mut out = BufWriter::new(rt.alloc(), io::writer(&rt))?;
    sheet(&mut out, b"P1 none\n", &[0x4E], 2000)?;
    sheet(&mut out, b"P2 nothing\n", &[], 2000)?;
    sheet(&mut out, b"P3 a null\n", &[0x30], 2000)?;
    sheet(
        &mut out,
        b"P4 (1, true)\n",
        &[0x29, 2, 0x69, 1, 0, 0, 0, 0x54],
        2000,
    )?;
    sheet(
        &mut out,
        b"P5 a tuple that refers to itself\n",
        &[0xA9, 1, 0x72, 0, 0, 0, 0],
        2000,
    )?;
    sheet(
        &mut out,
        b"P6 the same integer twice\n",
        &[0x29, 2, 0xE9, 5, 0, 0, 0, 0x72, 0, 0, 0, 0],
        2000,
    )?;
    sheet(
        &mut out,
        b"P7 an empty dict, its null flagged\n",
        &[0x7B, 0xB0],
        2000,
    )?;
    sheet(
        &mut out,
        b"P8 a digit of 32,768\n",
        &[0x6C, 1, 0, 0, 0, 0, 0x80],
        2000,
    )?;
    sheet(
        &mut out,
        b"P9 a negative length\n",
        &[0x28, 0xFF, 0xFF, 0xFF, 0xFF],
        2000,
    )?;
    sheet(&mut out, b"P10 a child, nesting 1\n", &[0x29, 1, 0x4E], 1)?;
    sheet(
        &mut out,
        b"P11 a key, nesting 1\n",
        &[0x7B, 0x4E, 0x4E, 0x30],
        1,
    )?;
    sheet(&mut out, b"P12 a code, nesting 1\n", &[0x63], 1)?;
    // in rows: letter and numbers; code and constants; names, local names and kinds; file, name and full name; first line and tables
    code_object(
        &mut out,
        b"\xE3\x01\x00\x00\x00\x00\x00\x00\x00\x00\x00\x00\x00\x02\x00\x00\x00\x03\x00\x00\x00\
          \x73\x02\x00\x00\x00\x09\x00\x29\x00\
          \x29\x00\x29\x01\x7A\x01\x78\x73\x01\x00\x00\x00\x20\
          \x7A\x01\x66\xFA\x01\x67\x72\x01\x00\x00\x00\
          \x05\x00\x00\x00\x73\x00\x00\x00\x00\x73\x00\x00\x00\x00",
    )?;
    out.flush()
}
