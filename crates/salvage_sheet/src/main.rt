// Cases that 02's K9 and its readings settle, run through `salvage_table`: how many bytes are written, the list, and the store,
// which was lent full of ones, so that a line also shows that the rest of it is cleared.
#![tactic(auto)]

use printing::{say, say_bytes, say_number, say_refused};
use refusals::Fault;
use salvage::Salvaged;
use std::io::{self, BufWriter, Write};

fn say_word(writer: &mut impl Write, n: u32) -> io::Result<()> {
    say_number(writer, n as u64)
}

fn say_list(writer: &mut impl Write, answer: Salvaged) -> io::Result<()> {
    say(writer, b"written ")?;
    say_word(writer, answer.written)?;
    say(writer, b", kept ")?;
    say_word(writer, answer.kept)?;
    say(writer, b", dropped ")?;
    say_word(writer, answer.dropped)?;
    say(writer, b", shortened ")?;
    say_word(writer, answer.shortened)?;
    say(writer, b", covered ")?;
    say_word(writer, answer.covered)
}

fn say_answer(writer: &mut impl Write, answer: Result<Salvaged, Fault>) -> io::Result<()> {
    match answer {
        Ok(told) => say_list(writer, told)?,
        Err(why) => say_refused(writer, why.refusal.number(), why.place)?,
    }
    Ok(())
}

fn run(
    writer: &mut impl Write,
    name: &[u8],
    table: &[u8],
    first_line: i32,
    count: u32,
) -> io::Result<()> {
    let mut out = [1u8; 6];
    say(writer, name)?;
    say(writer, b": ")?;
    say_answer(
        writer,
        salvage::salvage_table(table, first_line, count, &mut out),
    )?;
    say(writer, b":")?;
    say_bytes(writer, &out)?;
    say(writer, b"\n")
}

fn kept_and_covered(writer: &mut impl Write) -> io::Result<()> {
    run(writer, b"whole", b"\xE9\x02", 10, 2)?;
    run(writer, b"one instruction more", b"\xE9\x02", 10, 3)?;
    run(writer, b"eight and one more", b"\xE9\x02", 10, 11)?;
    run(writer, b"a stop", b"\xE9\x02\x00\xF8", 10, 3)?;
    run(writer, b"no instruction", b"\xE9\x02", 10, 0)?;
    run(writer, b"an empty table", b"", 10, 3)
}

fn shortened_or_dropped(writer: &mut impl Write) -> io::Result<()> {
    run(writer, b"past the count", b"\xE9\x02\xF8", 10, 1)?;
    run(writer, b"cut", b"\xE9\x02\xD8\x04", 10, 3)?;
    run(writer, b"cut, and past the count", b"\xDF\x00", 10, 1)?;
    run(writer, b"refused", b"\xD8\x00\x00\x80\x00", 2147483647, 2)?;
    run(
        writer,
        b"refused, and past the count",
        b"\xDF\x00\x00",
        2147483647,
        1,
    )?;
    run(
        writer,
        b"a number of 2^32",
        b"\xE8\x40\x40\x40\x40\x40\x04",
        10,
        1,
    )
}

fn refusals(writer: &mut impl Write) -> io::Result<()> {
    run(writer, b"seven bytes", b"\xE9\x02", 10, 42)?;
    run(writer, b"a result above 16 MiB", b"", 10, 4294967295)
}

fn main(rt: HostRuntime) -> io::Result<()> {
    let mut writer = BufWriter::new(rt.alloc(), io::writer(&rt))?;
    kept_and_covered(&mut writer)?;
    shortened_or_dropped(&mut writer)?;
    refusals(&mut writer)?;
    writer.flush()
}
