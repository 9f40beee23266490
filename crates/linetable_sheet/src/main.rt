// 01's sheet of the location table and cases that its text settles, run through `linetable_to_records` and `locate_node`.
// Each case prints its name, what is answered, and a line for each record: line:column - end line:end column.
#![tactic(auto)]

use linetable::Located;
use printing::{say, say_number, say_refused};
use refusals::Fault;
use std::io::{self, BufWriter, Write};

fn say_word(out: &mut impl Write, n: u32) -> io::Result<()> {
    say_number(out, n as u64)
}

fn say_record(out: &mut impl Write, records: &[u32], i: usize) -> io::Result<()> {
    if i < records.len() / 4 {
        let j = 4 * i;
        say(out, b"  ")?;
        say_word(out, records[j])?;
        say(out, b":")?;
        say_word(out, records[j + 1])?;
        say(out, b" - ")?;
        say_word(out, records[j + 2])?;
        say(out, b":")?;
        say_word(out, records[j + 3])?;
        say(out, b"\n")?;
    }
    Ok(())
}

fn say_records(out: &mut impl Write, records: &[u32], count: u32) -> io::Result<()> {
    for i in 0..count as usize {
        say_record(out, records, i)?;
    }
    Ok(())
}

fn say_answer(out: &mut impl Write, answer: Result<Located, Fault>) -> io::Result<()> {
    match answer {
        Ok(told) => {
            say_number(out, told.from_entries as u64)?;
            if told.whole {
                say(out, b" from entries, whole\n")?;
            } else {
                say(out, b" from entries, not whole\n")?;
            }
        }
        Err(why) => {
            say_refused(out, why.refusal.number(), why.place)?;
            say(out, b"\n")?;
        }
    }
    Ok(())
}

// A table of its own, with room for four records; `shown` of them are printed.
fn run(
    out: &mut impl Write,
    name: &[u8],
    table: &[u8],
    first_line: i32,
    count: u32,
    shown: u32,
) -> io::Result<()> {
    let mut records = [7u32; 16];
    say(out, name)?;
    say(out, b": ")?;
    say_answer(
        out,
        linetable::linetable_to_records(table, first_line, count, &mut records),
    )?;
    say_records(out, &records, shown)
}

// What is answered for the table of a node that was read, and its records.
fn show_node(
    out: &mut impl Write,
    input: &[u8],
    nodes: &[u32],
    used: u32,
    node: u32,
    count: u32,
) -> io::Result<()> {
    let mut records = [7u32; 16];
    say_answer(
        out,
        locate::locate_node(input, nodes, used, node, 10, count, &mut records),
    )?;
    say_records(out, &records, count)
}

// A table in the middle of an input, which is asked for by its node.
fn run_in(
    out: &mut impl Write,
    name: &[u8],
    input: &[u8],
    node: u32,
    count: u32,
) -> io::Result<()> {
    let mut nodes = [0u32; 21];
    say(out, name)?;
    say(out, b": ")?;
    match reader::deserialize_value(input, &mut nodes, &mut [0; 4], &mut [0; 1], 2) {
        Err(fault) => {
            say_refused(out, fault.refusal.number(), fault.place)?;
        }
        Ok(read) => {
            show_node(out, input, &nodes, read.nodes, node, count)?;
        }
    }
    Ok(())
}

fn sheet(out: &mut impl Write) -> io::Result<()> {
    run(out, b"E9 02, first line 10", b"\xE9\x02", 10, 3, 4)
}

fn whole_or_not(out: &mut impl Write) -> io::Result<()> {
    run(out, b"no place, whole", b"\xF8", 5, 1, 1)?;
    run(
        out,
        b"a byte follows the last instruction",
        b"\xF8\xF8",
        5,
        1,
        1,
    )?;
    run(
        out,
        b"an entry with more instructions than are left",
        b"\xF9",
        5,
        1,
        1,
    )?;
    run(out, b"empty table, no instruction", b"", 5, 0, 0)?;
    run(out, b"no instruction, one byte", b"\xF8", 5, 0, 0)?;
    run(out, b"a stop", b"\xF8\x00", 5, 2, 2)?;
    run(out, b"first line 0, empty table", b"", 0, 1, 1)?;
    run(out, b"first line -7, empty table", b"", -7, 1, 1)
}

fn forms(out: &mut impl Write) -> io::Result<()> {
    run(out, b"short form", b"\x98\x25", 10, 1, 1)?;
    run(
        out,
        b"one line, the second column missing",
        b"\xD8\x04",
        10,
        1,
        1,
    )?;
    run(
        out,
        b"long form, end line one before",
        b"\xF0\x00\x7F\x7F\x7F\x7F\x7F\x03\x05\x00",
        10,
        1,
        1,
    )?;
    run(
        out,
        b"six bytes, the seventh missing",
        b"\xE8\x40\x40\x40\x40\x40\x40",
        10,
        1,
        1,
    )
}

// Numbers about 2^32: the sixth byte decides.
fn sixth_byte(out: &mut impl Write) -> io::Result<()> {
    run(
        out,
        b"a line step of 2^32 and more",
        b"\xE8\x40\x40\x40\x40\x40\x3F",
        10,
        1,
        1,
    )?;
    run(
        out,
        b"one that would be 0 without its high bits",
        b"\xE8\x40\x40\x40\x40\x40\x3C",
        10,
        1,
        1,
    )?;
    run(
        out,
        b"2^32 - 1, from the last line",
        b"\xE8\x7F\x7F\x7F\x7F\x7F\x03",
        2147483647,
        1,
        1,
    )?;
    run(
        out,
        b"below 2^32 and cut",
        b"\xE8\x40\x40\x40\x40\x40\x43",
        10,
        1,
        1,
    )?;
    run(
        out,
        b"2^32 or more already, and cut",
        b"\xE8\x40\x40\x40\x40\x40\x7F",
        10,
        1,
        1,
    )?;
    run(
        out,
        b"the end column, 2^32",
        b"\xF0\x00\x00\x00\x40\x40\x40\x40\x40\x04",
        10,
        1,
        1,
    )
}

fn refusals(out: &mut impl Write) -> io::Result<()> {
    run(
        out,
        b"a seventh byte",
        b"\xE8\x40\x40\x40\x40\x40\x40\x00",
        10,
        1,
        1,
    )?;
    run(
        out,
        b"past the last line, at the second entry",
        b"\xF8\xD8\x00\x00",
        2147483647,
        2,
        1,
    )?;
    run(
        out,
        b"five instructions, four records",
        b"\xE9\x02",
        10,
        5,
        1,
    )
}

fn parts(out: &mut impl Write) -> io::Result<()> {
    let input = b")\x02Ns\x02\x00\x00\x00\xE9\x02";
    run_in(out, b"in the middle of an input", input, 2, 3)?;
    run_in(out, b"a node that is not bytes", input, 1, 3)?;
    run_in(out, b"a node that is not there", input, 3, 3)
}

fn main(rt: HostRuntime) -> io::Result<()> {
    let mut out = BufWriter::new(rt.alloc(), io::writer(&rt))?;
    sheet(&mut out)?;
    whole_or_not(&mut out)?;
    forms(&mut out)?;
    sixth_byte(&mut out)?;
    refusals(&mut out)?;
    parts(&mut out)?;
    out.flush()
}
