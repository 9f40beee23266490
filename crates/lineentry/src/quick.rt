// The entries that most of a table's are, read without a call, for the loops over whole tables: codes 0 to 12 by one straight way, and code 14
// where each of its numbers is one byte, or, as `short` has it, one or two. Any other entry is read by `read_entry`.
ghost use Rattle.std.specs.Prelude.{◌≡◌, cond, ◌&&◌, ◌+◌, ◌-◌, ◌/◌, ◌%◌, ◌<◌, ◌≤◌, length, ltb};
ghost use Rattle.lineentry.specs.Varint.{signed_of};
ghost use Rattle.lineentry.specs.Entry.{entry_at};
ghost use Rattle.lineentry.specs.Quick.{is_plain, Plain, plain_of, one_byte, is_long_of_four, LongOfFour, long_of};

use crate::{Entry, Location, ORIGIN, Span};

// Both are worked out before, so that no branch waits for the test: `first` chooses a value and no step, and the straight way is measured (docs/BENCHMARKS.md).
fn pick(first: bool, a: u32, b: u32) -> u32
    ensures { (result ≡ cond first a b) × (result ≤ a + b) }
{
    if first { a } else { b }
}

pub fn one_byte(byte: u8) -> bool
    ensures { result ≡ one_byte byte }
{
    byte % 128 < 64
}

// Whether an entry is of codes 0 to 12 and lacks no byte.
pub fn is_plain(table: &[u8], at: usize) -> bool
    ensures { result ≡ is_plain table.now at }
{
    if table.len().saturating_sub(at) <= 2 {
        return false;
    }
    let head = table[at];
    (128 <= head) & (head < 232)
}

// Whether an entry is of code 14 and its numbers are four bytes.
pub fn is_long_of_four(table: &[u8], at: usize) -> bool
    ensures { result ≡ is_long_of_four table.now at }
{
    if table.len().saturating_sub(at) <= 4 {
        return false;
    }
    let lines = one_byte(table[at + 1]) & one_byte(table[at + 2]);
    let columns = one_byte(table[at + 3]) & one_byte(table[at + 4]);
    (table[at] / 8 == 30) & (lines & columns)
}

// Codes 10 to 12 step so many lines down, codes 0 to 9 none.
fn lines_down(code: u32) -> u32
    ensures { (result ≡ code - 10) × (result ≤ code) }
{
    if code < 10 { 0 } else { code - 10 }
}

// Codes 0 to 9 are two bytes, codes 10 to 12 three.
fn place_after(code: u32, at: usize) -> usize
    requires { at + 3 < 0x1_0000_0000_0000_0000 }
    ensures { result ≡ at + cond (ltb code 10) 2 3 }
{
    if code < 10 { at + 2 } else { at + 3 }
}

// Codes 0 to 12, both forms at once: which of them it is decides no branch.
fn plain_of(line: u32, code: u32, instructions: usize, second: u8, third: u8, at: usize) -> Entry
    requires { (code < 16) × (at + 3 < 0x1_0000_0000_0000_0000) }
    ensures { result ≡ plain_of line code instructions second third at }
{
    let down = lines_down(code);
    if 0xFFFF_FFFF - down < line {
        return Entry::OutOfRange;
    }
    let to = line + down;
    let l = crate::show_line(to);
    let both = second as u32;
    let column = (code * 8) | (both / 16);
    let start = pick(code < 10, column, both);
    let end = pick(code < 10, column + both % 16, third as u32);
    Entry::Covers(Span {
        instructions,
        line: to,
        location: Location {
            line: l,
            column: start + 1,
            end_line: l,
            end_column: end + 1,
        },
        next: place_after(code, at),
        missing: false,
    })
}

// An entry of codes 0 to 12.
pub fn plain_entry(table: &[u8], line: u32, at: usize) -> Entry
    requires { Plain table.now at }
    ensures { result ≡ entry_at table.now line at }
{
    let head = table[at] as u32;
    let second = table[at + 1];
    let third = table[at + 2];
    plain_of(
        line,
        head / 8 % 16,
        (head % 8 + 1) as usize,
        second,
        third,
        at,
    )
}

// A number as a step from line to line.
pub fn signed_step(value: u32) -> u32
    ensures { result ≡ signed_of value }
{
    if value % 2 == 0 {
        ORIGIN + value / 2
    } else {
        ORIGIN - value / 2
    }
}

// Code 14 by its four bytes.
fn long_of(line: u32, instructions: usize, a: u8, b: u8, c: u8, d: u8, at: usize) -> Entry
    requires { at + 5 < 0x1_0000_0000_0000_0000 }
    ensures { result ≡ long_of line instructions a b c d at }
{
    let Some(to) = crate::move_line(line, signed_step((a % 64) as u32)) else {
        return Entry::OutOfRange;
    };
    let Some(end) = crate::move_line(to, crate::as_signed((b % 64) as u32)) else {
        return Entry::OutOfRange;
    };
    Entry::Covers(Span {
        instructions,
        line: to,
        location: Location {
            line: crate::show_line(to),
            column: crate::show_column((c % 64) as u32),
            end_line: crate::show_line(end),
            end_column: crate::show_column((d % 64) as u32),
        },
        next: at + 5,
        missing: false,
    })
}

// An entry of code 14 whose numbers are four bytes.
pub fn long_of_four(table: &[u8], line: u32, at: usize) -> Entry
    requires { LongOfFour table.now at }
    ensures { result ≡ entry_at table.now line at }
{
    let instructions = (table[at] as u32 % 8 + 1) as usize;
    let a = table[at + 1];
    let b = table[at + 2];
    let c = table[at + 3];
    let d = table[at + 4];
    long_of(line, instructions, a, b, c, d, at)
}

// The same entry, number by number: so a compiler keeps the numbers apart where the ways to an entry meet.
pub fn in_numbers(entry: Entry) -> Entry
    ensures { result ≡ «entry» }
{
    match entry {
        Entry::OutOfRange => Entry::OutOfRange,
        Entry::Stop => Entry::Stop,
        Entry::Covers(span) => {
            let shows = span.location;
            Entry::Covers(Span {
                instructions: span.instructions,
                line: span.line,
                location: Location {
                    line: shows.line,
                    column: shows.column,
                    end_line: shows.end_line,
                    end_column: shows.end_column,
                },
                next: span.next,
                missing: span.missing,
            })
        }
    }
}

// The entry at a place of the table, as `read_entry` tells it. A function of one caller becomes a part of it, so each loop over whole tables is
// to have its own such ways.
pub fn next_entry(table: &[u8], line: u32, at: usize) -> Entry
    ensures { result ≡ entry_at table.now line at }
{
    if is_plain(table, at) {
        return plain_entry(table, line, at);
    }
    if is_long_of_four(table, at) {
        return long_of_four(table, line, at);
    }
    if crate::short::is_long(table, at) {
        let numbers = crate::short::short_numbers(table, at);
        if numbers.short {
            return crate::short::long_entry(table, line, at, numbers);
        }
    }
    in_numbers(crate::read_entry(table, line, at))
}
