// Written values, a line each: a value is read, its root written from the stores, as they are or with one number of a node damaged. A line
// has the answer and the whole output, which holds EE before each call, so that what the writer clears is seen.
#![tactic(auto)]

ghost use Rattle.std.specs.Prelude.{◌<◌};

use printing::{say, say_bytes, say_number, say_refused};
use reader::Read;
use refusals::Fault;
use std::io::{self, BufWriter, Write};

// How many numbers the nodes of the longest value take.
const NODES: usize = 126;

fn say_answer(writer: &mut impl Write, answer: Result<u32, Fault>) -> io::Result<()> {
    match answer {
        Ok(count) => {
            say_number(writer, count as u64)?;
            say(writer, b" bytes")?;
        }
        Err(fault) => {
            say_refused(writer, fault.refusal.number(), fault.place)?;
        }
    }
    say(writer, b":")
}

// How many nodes and how many entries a reading used; none where it was refused, so that the writer then refuses the root.
fn used(read: Result<Read, Fault>) -> (u32, u32) {
    match read {
        Ok(read) => (read.nodes, read.entries),
        Err(_) => (0, 0),
    }
}

// The root of stores that a reading left.
fn show(
    writer: &mut impl Write,
    input: &[u8],
    nodes: &[u32],
    entries: &[u32],
    read: Result<Read, Fault>,
    nesting: u32,
    out: &mut [u8],
) -> io::Result<()> {
    let (used_nodes, used_entries) = used(read);
    say_answer(
        writer,
        writer::serialize_value(
            input,
            nodes,
            entries,
            used_nodes,
            used_entries,
            0,
            nesting,
            out,
        ),
    )?;
    say_bytes(writer, out)?;
    say(writer, b"\n")
}

fn written(writer: &mut impl Write, input: &[u8], nesting: u32, out: &mut [u8]) -> io::Result<()> {
    let mut nodes = [0u32; NODES];
    let mut entries = [0u32; 34];
    let read = reader::deserialize_value(input, &mut nodes, &mut entries, &mut [0; 8], 2000);
    show(writer, input, &nodes, &entries, read, nesting, out)
}

// The same with one number of the nodes replaced.
fn damaged(
    writer: &mut impl Write,
    input: &[u8],
    at: usize,
    with: u32,
    out: &mut [u8],
) -> io::Result<()>
    requires { at < 90 }
{
    let mut nodes = [0u32; NODES];
    let mut entries = [0u32; 34];
    let read = reader::deserialize_value(input, &mut nodes, &mut entries, &mut [0; 8], 2000);
    nodes[at] = with;
    show(writer, input, &nodes, &entries, read, 2000, out)
}

fn singles(writer: &mut impl Write) -> io::Result<()> {
    written(writer, b"\x4E", 2000, &mut [0xEE; 3])?;
    written(writer, b"\x54", 2000, &mut [0xEE; 3])
}

fn numbers(writer: &mut impl Write) -> io::Result<()> {
    written(writer, b"\x69\xC9\xA3\x25\xA7", 2000, &mut [0xEE; 7])?;
    written(writer, b"\x6C\x00\x00\x00\x00", 2000, &mut [0xEE; 7])?;
    written(
        writer,
        b"\x49\x35\x0F\x6A\x5C\x00\x00\x00\x00",
        2000,
        &mut [0xEE; 7],
    )?;
    written(
        writer,
        b"\x49\xE5\xD6\x44\x6B\x52\x9F\xCB\x64",
        2000,
        &mut [0xEE; 17],
    )?;
    written(
        writer,
        b"\x6C\xFC\xFF\xFF\xFF\xFF\x7F\x62\x6E\x01\x00\x08\x00",
        2000,
        &mut [0xEE; 15],
    )?;
    written(
        writer,
        b"\x67\xE7\x71\x16\xE5\x00\x00\x00\x00",
        2000,
        &mut [0xEE; 11],
    )?;
    written(
        writer,
        b"\xF9\xED\x16\x8C\x52\xE0\x8C\x60\x02\xA4\xDC\x2D\x21\xDC\xA3\x91\x4A",
        2000,
        &mut [0xEE; 19],
    )
}

fn texts(writer: &mut impl Write) -> io::Result<()> {
    written(writer, b"\x7A\x02\x61\x62", 2000, &mut [0xEE; 9])?;
    written(
        writer,
        b"\x75\x02\x00\x00\x00\x61\x62",
        2000,
        &mut [0xEE; 9],
    )?;
    written(
        writer,
        b"\x73\x02\x00\x00\x00\x03\x99",
        2000,
        &mut [0xEE; 9],
    )
}

fn containers(writer: &mut impl Write) -> io::Result<()> {
    written(writer, b"\x29\x01\x4E", 2000, &mut [0xEE; 8])?;
    written(writer, b"\x28\x01\x00\x00\x00\xAE", 2000, &mut [0xEE; 8])?;
    written(writer, b"\xDB\x01\x00\x00\x00\xC6", 2000, &mut [0xEE; 8])?;
    written(
        writer,
        b"\x3A\xE9\xA5\x24\xD7\x75\x54\xD4",
        2000,
        &mut [0xEE; 10],
    )?;
    written(writer, b"\x7B\x4E\x4E\x30", 2000, &mut [0xEE; 6])
}

// A code whose first line is negative and whose name is a reference to its bytes; its third part damaged; too little room.
fn code(writer: &mut impl Write, input: &[u8]) -> io::Result<()> {
    written(writer, input, 2000, &mut [0xEE; 81])?;
    damaged(writer, input, 23, 28, &mut [0xEE; 6])?;
    written(writer, input, 3, &mut [0xEE; 4])
}

// A code with names and a constant, and no level for its body.
fn code_with_names(writer: &mut impl Write, input: &[u8]) -> io::Result<()> {
    written(writer, input, 2000, &mut [0xEE; 94])?;
    written(writer, input, 1, &mut [0xEE; 6])
}

// The last has a list in a tuple among its constants.
fn codes(writer: &mut impl Write) -> io::Result<()> {
    code(
        writer,
        b"\x63\x01\x00\x00\x00\x01\x00\x00\x00\x00\x00\x00\x00\x00\x00\x00\x00\x01\x00\x00\x00\xF3\x00\x00\x00\x00\xA8\x00\x00\x00\x00\x28\x00\x00\x00\x00\x28\x01\x00\x00\x00\x74\x00\x00\x00\x00\xF3\x01\x00\x00\x00\x56\x5A\x00\x61\x00\x00\x00\x00\xFA\x03\xED\xA0\x80\xFB\xFF\xFF\xFF\x72\x00\x00\x00\x00\x73\x04\x00\x00\x00\xA3\x06\xB8\x57",
    )?;
    code_with_names(
        writer,
        b"\xE3\x02\x00\x00\x00\x02\x00\x00\x00\x01\x00\x00\x00\x01\x00\x00\x00\x01\x00\x00\x00\xF3\x02\x00\x00\x00\x78\xD6\x28\x01\x00\x00\x00\xD4\xA9\x01\x74\x02\x00\x00\x00\x61\x62\x29\x01\x74\x01\x00\x00\x00\x62\x73\x01\x00\x00\x00\x90\x61\x03\x00\x00\x00\xED\xA0\x80\x61\x01\x00\x00\x00\x62\x41\x03\x00\x00\x00\xED\xA0\x80\x07\x00\x00\x00\x73\x02\x00\x00\x00\xEC\x56\x73\x00\x00\x00\x00",
    )?;
    written(
        writer,
        b"\x63\x01\x00\x00\x00\x02\x00\x00\x00\x01\x00\x00\x00\x01\x00\x00\x00\x01\x00\x00\x00\x73\x00\x00\x00\x00\xA8\x02\x00\x00\x00\x29\x03\x5B\x00\x00\x00\x00\x53\x3E\x01\x00\x00\x00\x54\x4E\x28\x00\x00\x00\x00\xA8\x01\x00\x00\x00\x7A\x01\x61\xF3\x01\x00\x00\x00\x20\x75\x01\x00\x00\x00\x62\x41\x01\x00\x00\x00\x62\x61\x00\x00\x00\x00\xFB\xFF\xFF\xFF\x73\x00\x00\x00\x00\xF3\x02\x00\x00\x00\xEB\x69",
        2,
        &mut [0xEE; 64],
    )
}

// No level left, a child's place past the input, a count of none, and too little room.
fn refused(writer: &mut impl Write) -> io::Result<()> {
    written(writer, b"\x2E", 0, &mut [0xEE; 6])?;
    written(writer, b"\x3E\x01\x00\x00\x00\xCE", 1, &mut [0xEE; 6])?;
    damaged(writer, b"\xA9\x01\x46", 8, 4, &mut [0xEE; 6])?;
    damaged(
        writer,
        b"\x3E\x02\x00\x00\x00\x46\x4E",
        4,
        0,
        &mut [0xEE; 6],
    )?;
    written(writer, b"\x7A\x02\x61\x62", 1, &mut [0xEE; 6])
}

fn main(rt: HostRuntime) -> io::Result<()> {
    let mut writer = BufWriter::new(rt.alloc(), io::writer(&rt))?;
    singles(&mut writer)?;
    numbers(&mut writer)?;
    texts(&mut writer)?;
    containers(&mut writer)?;
    codes(&mut writer)?;
    refused(&mut writer)?;
    writer.flush()
}
