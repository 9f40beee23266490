// 02's K14, run: three inputs, one of them refused 5, in its printed form; the same in a byte less; and the refusals of counting and
// adding. The stores are lent full of ones, so that two of the counters also show that a refusal clears them.
#![tactic(auto)]

use printing::{say, say_number, say_refused};
use refusals::Fault;
use std::io::{self, BufWriter, Write};

fn say_counted(
    writer: &mut impl Write,
    answer: Result<(), Fault>,
    after: &[u64],
) -> io::Result<()> {
    match answer {
        Ok(_) => {
            say(writer, b"counted")?;
        }
        Err(fault) => {
            say_refused(writer, fault.refusal.number(), fault.place)?;
        }
    }
    say(writer, b", inputs ")?;
    say_number(writer, totals::counter(after, 0))?;
    say(writer, b", refused ")?;
    say_number(writer, totals::counter(after, 2))?;
    say(writer, b"\n")
}

fn say_printed(writer: &mut impl Write, answer: Result<u32, Fault>, out: &[u8]) -> io::Result<()> {
    match answer {
        Ok(count) => {
            say_number(writer, count as u64)?;
            say(writer, b" bytes\n")?;
            say(writer, out)?;
        }
        Err(fault) => {
            say_refused(writer, fault.refusal.number(), fault.place)?;
            say(writer, b"\n")?;
        }
    }
    Ok(())
}

fn example(writer: &mut impl Write) -> io::Result<()> {
    let mut after = [1u64; 29];
    say(writer, b"accepted, accepted, refused 5: ")?;
    let answer = totals::count_answers(&[], &[0, 0, 5], &mut after);
    say_counted(writer, answer, &after)?;
    let mut out = [1u8; 359];
    say(writer, b"printed: ")?;
    let answer = printedtotals::print_totals(&after, &mut out);
    say_printed(writer, answer, &out)?;
    let mut short = [1u8; 358];
    say(writer, b"in a byte less: ")?;
    let answer = printedtotals::print_totals(&after, &mut short);
    say_printed(writer, answer, &short)
}

fn refusals(writer: &mut impl Write) -> io::Result<()> {
    let mut after = [1u64; 29];
    let full = [0xFFFF_FFFF_FFFF_FFFFu64; 29];
    say(writer, b"an answer above 26: ")?;
    let answer = totals::count_answers(&[], &[27], &mut after);
    say_counted(writer, answer, &after)?;
    say(writer, b"one more than 64 bits hold: ")?;
    let answer = totals::count_answers(&full, &[26], &mut after);
    say_counted(writer, answer, &after)?;
    say(writer, b"as many as 64 bits hold, and none: ")?;
    let answer = totals::add_totals(&full, &[], &mut after);
    say_counted(writer, answer, &after)?;
    let mut short = [1u64; 28];
    say(writer, b"28 numbers lent: ")?;
    let answer = totals::count_answers(&[], &[0], &mut short);
    say_counted(writer, answer, &short)
}

fn main(rt: HostRuntime) -> io::Result<()> {
    let mut writer = BufWriter::new(rt.alloc(), io::writer(&rt))?;
    example(&mut writer)?;
    refusals(&mut writer)?;
    writer.flush()
}
