// Entries of code 14 whose numbers are one byte or two each, read without a call and without a branch between the numbers. `quick` and `sources`
// read them so; any other entry of code 14 is read by `read_entry`.
ghost use Rattle.std.specs.Prelude.{◌≡◌, true, cond, ◌||◌, ◌&&◌, ◌+◌, ◌*◌, ◌%◌, ◌<◌, ◌≤◌, length};
ghost use Rattle.lineentry.specs.Entry.{entry_at};
ghost use Rattle.lineentry.specs.Short.{is_long, Long, short_of, short_at, numbers_at, long_by, Read};

use crate::{Entry, Location, Span};

// A number as two bytes tell it, the place after it, and whether it is of one byte or two.
#[derive(Clone, Copy)]
pub struct Short {
    pub value: u32,
    pub next: usize,
    pub short: bool,
}

// The numbers of code 14, the place after them, and whether each is of one byte or two.
#[derive(Clone, Copy)]
pub struct Numbers {
    pub step: u32,
    pub end_step: u32,
    pub column: u32,
    pub end_column: u32,
    pub next: usize,
    pub short: bool,
}

// Whether an entry is of code 14 and two bytes for each of its numbers are there.
pub fn is_long(table: &[u8], at: usize) -> bool
    ensures { result ≡ is_long table.now at }
{
    if table.len().saturating_sub(at) <= 8 {
        return false;
    }
    table[at] / 8 == 30
}

// What the second byte of a number adds, where it is one of the number.
// Chosen without a branch: the straight reading is measured (docs/BENCHMARKS.md).
fn upper(one: bool, byte: u8) -> u32
    ensures { (result ≡ cond one 0 (64 * (byte % 64))) × (result < 4096) }
{
    if one { 0 } else { 64 * ((byte % 64) as u32) }
}

// Chosen without a branch, as `upper` is.
fn after(one: bool, at: usize) -> usize
    requires { at + 2 < 0x1_0000_0000_0000_0000 }
    ensures { (result ≡ cond one (at + 1) (at + 2)) × (result ≤ at + 2) }
{
    if one { at + 1 } else { at + 2 }
}

// A number that starts at a place, by its first byte and the one behind.
fn short_of(first: u8, second: u8, at: usize) -> Short
    requires { at + 2 < 0x1_0000_0000_0000_0000 }
    ensures { (result ≡ short_of first second at) × (result.next ≤ at + 2) }
{
    let one = crate::quick::one_byte(first);
    let more = crate::quick::one_byte(second);
    let value = (first % 64) as u32 + upper(one, second);
    let next = after(one, at);
    Short {
        value,
        next,
        short: one | more,
    }
}

fn short_number(table: &[u8], at: usize) -> Short
    requires { at + 1 < length table.now }
    ensures { (result ≡ short_at table.now at) × (result.next ≤ at + 2) }
{
    let first = table[at];
    let second = table[at + 1];
    short_of(first, second, at)
}

// The numbers of an entry of code 14.
// `Long`, here, in `long_entry` and in sources `long_turn`, is what `is_long` answered: a type for it would be built and opened again in `next_entry` and `turn_here`: no plainer.
pub fn short_numbers(table: &[u8], at: usize) -> Numbers
    requires { Long table.now at }
    ensures { result ≡ numbers_at table.now (at + 1) }
{
    let step = short_number(table, at + 1);
    let end = short_number(table, step.next);
    let column = short_number(table, end.next);
    let last = short_number(table, column.next);
    let lines = step.short & end.short;
    let columns = column.short & last.short;
    Numbers {
        step: step.value,
        end_step: end.value,
        column: column.value,
        end_column: last.value,
        next: last.next,
        short: lines & columns,
    }
}

// Code 14 by its numbers.
fn long_by(line: u32, instructions: usize, x: Numbers) -> Entry
    ensures { result ≡ long_by line instructions x }
{
    let Some(to) = crate::move_line(line, crate::quick::signed_step(x.step)) else {
        return Entry::OutOfRange;
    };
    let Some(end) = crate::move_line(to, crate::as_signed(x.end_step)) else {
        return Entry::OutOfRange;
    };
    Entry::Covers(Span {
        instructions,
        line: to,
        location: Location {
            line: crate::show_line(to),
            column: crate::show_column(x.column),
            end_line: crate::show_line(end),
            end_column: crate::show_column(x.end_column),
        },
        next: x.next,
        missing: false,
    })
}

// The entry of code 14 at a place, whose numbers were read.
pub fn long_entry(table: &[u8], line: u32, at: usize, x: Numbers) -> Entry
    requires { Long table.now at × Read table.now (at + 1) x }
    ensures { result ≡ entry_at table.now line at }
{
    let instructions = (table[at] as u32 % 8 + 1) as usize;
    long_by(line, instructions, x)
}
