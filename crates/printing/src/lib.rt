// What the programs `*_sheet` print with, to a writer: text, numbers, bytes, stores, and a refusal with its place.
// Nothing of the port calls it.
#![tactic(auto)]

use refusals::Fault;
use std::io;
use std::io::Write;

pub fn say(out: &mut impl Write, text: &[u8]) -> io::Result<()> {
    out.write_all(text)
}

pub fn say_number(out: &mut impl Write, n: u64) -> io::Result<()> {
    write!(out, "{n}")
}

// A number after a blank; "no entry" is a dash.
pub fn say_field(out: &mut impl Write, n: u32) -> io::Result<()> {
    if n == refusals::NOTHING {
        return say(out, b" -");
    }
    say(out, b" ")?;
    say_number(out, n as u64)
}

// A store on a line of its own.
pub fn say_store(out: &mut impl Write, name: &[u8], store: &[u32]) -> io::Result<()> {
    say(out, name)?;
    for &n in store {
        say_field(out, n)?;
    }
    say(out, b"\n")
}

fn say_byte(out: &mut impl Write, byte: u8) -> io::Result<()> {
    write!(out, " {byte:02x}")
}

// Each byte in hexadecimal after a blank.
pub fn say_bytes(out: &mut impl Write, bytes: &[u8]) -> io::Result<()> {
    for &byte in bytes {
        say_byte(out, byte)?;
    }
    Ok(())
}

// The 64 bits of a number in hexadecimal, after a blank.
pub fn say_bits(out: &mut impl Write, bits: u64) -> io::Result<()> {
    write!(out, " {bits:016x}")
}

pub fn say_refused(out: &mut impl Write, number: u32, place: u32) -> io::Result<()> {
    say(out, b"refused ")?;
    say_number(out, number as u64)?;
    say(out, b" at ")?;
    say_number(out, place as u64)
}

// A fault: its refusal's number, and its place.
pub fn say_fault(out: &mut impl Write, fault: Fault) -> io::Result<()> {
    write!(out, "refused {} at {}", fault.refusal.number(), fault.place)
}
