// 01's run sheet for varints: 64 in each form, read back and without room; then K5's: cut and too large. One answer to a line.
// Each store is lent full of ones, so that a line also shows that the rest of it is cleared.
#![tactic(auto)]

use printing::{say, say_bytes, say_number, say_refused};
use refusals::Fault;
use std::io::{self, BufWriter, Write};
use varintread::{Found, Unread};

fn say_written(writer: &mut impl Write, answer: Result<u32, Fault>, out: &[u8]) -> io::Result<()> {
    match answer {
        Ok(count) => {
            say(writer, b"written ")?;
            say_number(writer, count as u64)?;
        }
        Err(fault) => {
            say_refused(writer, fault.refusal.number(), fault.place)?;
        }
    }
    say(writer, b", store")?;
    say_bytes(writer, out)?;
    say(writer, b"\n")
}

fn say_found(writer: &mut impl Write, answer: Result<Option<Found>, Unread>) -> io::Result<()> {
    match answer {
        Ok(Some(Found { value, next })) => {
            say(writer, b"value ")?;
            say_number(writer, value as u64)?;
            say(writer, b", next ")?;
            say_number(writer, next as u64)?;
            say(writer, b"\n")?;
        }
        Ok(None) => {
            say(writer, b"none\n")?;
        }
        Err(unread) => {
            say(writer, b"refused ")?;
            say_number(writer, unread.refusal.number() as u64)?;
            say(writer, b" at ")?;
            say_number(writer, unread.place as u64)?;
            say(writer, b"\n")?;
        }
    }
    Ok(())
}

fn write_64(writer: &mut impl Write) -> io::Result<()> {
    let mut out = [0xFFu8; 3];
    say(writer, b"64 little-endian: ")?;
    let answer = varint::write_varint(&mut out, 64);
    say_written(writer, answer, &out)?;
    say(writer, b"64 big-endian: ")?;
    let answer = varint::write_varint_be(&mut out, 64);
    say_written(writer, answer, &out)?;
    say(writer, b"64 with marker: ")?;
    let answer = varint::write_varint_with_start(&mut out, 64);
    say_written(writer, answer, &out)
}

fn write_signed(writer: &mut impl Write) -> io::Result<()> {
    let mut out = [0xFFu8; 7];
    say(writer, b"-1 signed: ")?;
    let answer = varint::write_signed_varint(&mut out, -1);
    say_written(writer, answer, &out)?;
    say(writer, b"-2147483647 signed: ")?;
    let answer = varint::write_signed_varint(&mut out, -2_147_483_647);
    say_written(writer, answer, &out)?;
    say(writer, b"-2147483648 signed: ")?;
    let answer = varint::write_signed_varint(&mut out, -2_147_483_648);
    say_written(writer, answer, &out)
}

fn write_without_room(writer: &mut impl Write) -> io::Result<()> {
    let mut out = [0xFFu8; 1];
    say(writer, b"64 little-endian, one byte of room: ")?;
    let answer = varint::write_varint(&mut out, 64);
    say_written(writer, answer, &out)?;
    say(writer, b"-2147483648 signed, one byte of room: ")?;
    let answer = varint::write_signed_varint(&mut out, -2_147_483_648);
    say_written(writer, answer, &out)
}

fn read_back(writer: &mut impl Write) -> io::Result<()> {
    let big = [0x41u8, 0x00];
    let marked = [0xC1u8, 0x00];
    say(writer, b"41 00 at 0: ")?;
    say_found(writer, varintread::read_varint(&big, 0))?;
    say(writer, b"c1 00 with marker at 0: ")?;
    say_found(writer, varintread::read_varint_with_start(&marked, 0))?;
    say(writer, b"c1 00 at 0: ")?;
    say_found(writer, varintread::read_varint(&marked, 0))?;
    say(writer, b"41 00 with marker at 0: ")?;
    say_found(writer, varintread::read_varint_with_start(&big, 0))?;
    say(writer, b"41 00 at 2: ")?;
    say_found(writer, varintread::read_varint(&big, 2))?;
    say(writer, b"41 00 at 3: ")?;
    say_found(writer, varintread::read_varint(&big, 3))
}

fn read_cut_and_large(writer: &mut impl Write) -> io::Result<()> {
    let cut = [0x00u8, 0x41];
    let large = [0x44u8, 0x40, 0x40, 0x40, 0x40, 0x00];
    let zeros = [0x40u8, 0x40, 0x40, 0x40, 0x40, 0x40, 0x40, 0x40, 0x05];
    say(writer, b"00 41 at 1: ")?;
    say_found(writer, varintread::read_varint(&cut, 1))?;
    say(writer, b"44 40 40 40 40 00 at 0: ")?;
    say_found(writer, varintread::read_varint(&large, 0))?;
    say(writer, b"eight 40, then 05, at 0: ")?;
    say_found(writer, varintread::read_varint(&zeros, 0))
}

fn main(rt: HostRuntime) -> io::Result<()> {
    let mut writer = BufWriter::new(rt.alloc(), io::writer(&rt))?;
    write_64(&mut writer)?;
    write_signed(&mut writer)?;
    write_without_room(&mut writer)?;
    read_back(&mut writer)?;
    read_cut_and_large(&mut writer)?;
    writer.flush()
}
