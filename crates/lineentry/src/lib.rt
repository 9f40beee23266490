// One entry of a location table: its bytes, its varints, its lines, and the location that it gives to some instructions.
// `linetable` walks a whole table by it, most entries as `quick` reads them. A line, or a step from line to line, is kept as the number plus
// 2^31, as `ORIGIN` says.
#![tactic(auto)]

ghost use Rattle.std.specs.Prelude.{◌≡◌, ◌<◌, ◌≤◌, max};
ghost use Rattle.lineentry.specs.Varint.{byte_at, varint_within, varint_at, signed_at};
ghost use Rattle.lineentry.specs.Line.{as_signed, moved, shown};
ghost use Rattle.lineentry.specs.Entry.{at_line, short_form, one_line, no_columns, long_columns, long_form, entry_at};

pub mod quick;
pub mod short;

// 0 as a line or a step is kept.
const ORIGIN: u32 = 0x8000_0000;

// A byte of the table; a missing one is 0, and nothing is passed.
#[derive(Clone, Copy)]
pub struct Byte {
    pub value: u8,
    pub next: usize,
    pub missing: bool,
}

// A number, the place after its bytes, and whether a byte was missing.
#[derive(Clone, Copy)]
pub struct Varint {
    pub value: u32,
    pub next: usize,
    pub missing: bool,
}

// What an instruction shows: lines and columns count from 1.
#[repr(C)]
#[derive(Clone, Copy)]
pub struct Location {
    pub line: u32,
    pub column: u32,
    pub end_line: u32,
    pub end_column: u32,
}

// What an entry gives: how many instructions, the line after it, their location, the place after its bytes, and whether a byte was missing.
#[derive(Clone, Copy)]
pub struct Span {
    pub instructions: usize,
    pub line: u32,
    pub location: Location,
    pub next: usize,
    pub missing: bool,
}

#[derive(Clone, Copy)]
pub enum Entry {
    Covers(Span),
    Stop,
    OutOfRange,
}

// `table`, `at` and, where it is taken, `line` are no struct in this crate: tried on `long_columns` it proves, but each number moves the place, so each call builds a new one: no plainer.
pub fn lt_byte(table: &[u8], at: usize) -> Byte
    ensures { result ≡ byte_at table.now at }
{
    if at < table.len() {
        Byte {
            value: table[at],
            next: at + 1,
            missing: false,
        }
    } else {
        Byte {
            value: 0,
            next: at,
            missing: true,
        }
    }
}

// A varint of at most `most` bytes; one of more, or of 2^32 or more, is none.
fn varint_within(table: &[u8], at: usize, most: usize) -> Option<Varint>
    ensures { result ≡ varint_within most table.now at }
{
    if table.len() <= at {
        return Some(Varint {
            value: 0,
            next: at,
            missing: true,
        });
    }
    if most == 0 {
        return None;
    }
    let b = signed::wide(table[at]);
    if b % 128 < 64 {
        return Some(Varint {
            value: (b % 64) as u32,
            next: at + 1,
            missing: false,
        });
    }
    let rest = varint_within(table, at + 1, most - 1)?;
    let sum = b % 64 + 64 * (rest.value as u64);
    if 0x1_0000_0000 <= sum {
        return None;
    }
    Some(Varint {
        value: sum as u32,
        next: rest.next,
        missing: rest.missing,
    })
}

// A varint; more than six bytes, or 2^32 or more, is none. Most numbers are one byte, which is answered here.
pub fn lt_read_varint(table: &[u8], at: usize) -> Option<Varint>
    ensures { result ≡ varint_at table.now at }
{
    if table.len() <= at {
        return Some(Varint {
            value: 0,
            next: at,
            missing: true,
        });
    }
    let b = signed::wide(table[at]);
    if b % 128 < 64 {
        return Some(Varint {
            value: (b % 64) as u32,
            next: at + 1,
            missing: false,
        });
    }
    varint_within(table, at, 6)
}

// A signed varint, as the number plus 2^31.
pub fn lt_read_signed_varint(table: &[u8], at: usize) -> Option<Varint>
    ensures { result ≡ signed_at table.now at }
{
    let read = lt_read_varint(table, at)?;
    Some(Varint {
        value: quick::signed_step(read.value),
        next: read.next,
        missing: read.missing,
    })
}

// 32 bits taken as a signed number.
pub fn as_signed(bits: u32) -> u32
    ensures { result ≡ as_signed bits }
{
    if bits < ORIGIN {
        bits + ORIGIN
    } else {
        bits - ORIGIN
    }
}

// A line after a step; a line outside signed 32 bits is none.
pub fn move_line(line: u32, step: u32) -> Option<u32>
    ensures { result ≡ moved line step }
{
    let sum = line as u64 + step as u64;
    if sum < ORIGIN as u64 {
        return None;
    }
    if sum < 0x1_8000_0000 {
        return Some((sum - ORIGIN as u64) as u32);
    }
    None
}

// A line as it is shown.
pub fn show_line(line: u32) -> u32
    ensures { result ≡ shown line }
{
    if line <= ORIGIN { 1 } else { line - ORIGIN }
}

// A line with no columns.
pub fn at_line(line: u32) -> Location
    ensures { result ≡ at_line line }
{
    let l = show_line(line);
    Location {
        line: l,
        column: 1,
        end_line: l,
        end_column: 1,
    }
}

// A column that was written plus one, 0 being none.
fn show_column(written: u32) -> u32
    ensures { result ≡ max 1 written }
{
    if written == 0 { 1 } else { written }
}

// Codes 0 to 9.
fn short_form(table: &[u8], line: u32, code: u32, instructions: usize, at: usize) -> Entry
    requires { code < 10 }
    ensures { result ≡ short_form table.now line code instructions at }
{
    let d = lt_byte(table, at);
    let both = d.value as u32;
    let column = (code * 8) | (both / 16);
    let l = show_line(line);
    Entry::Covers(Span {
        instructions,
        line,
        location: Location {
            line: l,
            column: column + 1,
            end_line: l,
            end_column: column + both % 16 + 1,
        },
        next: d.next,
        missing: d.missing,
    })
}

// Codes 10 to 12.
fn one_line(table: &[u8], line: u32, code: u32, instructions: usize, at: usize) -> Entry
    requires { (10 ≤ code) × (code < 13) }
    ensures { result ≡ one_line table.now line code instructions at }
{
    let Some(to) = move_line(line, ORIGIN + (code - 10)) else {
        return Entry::OutOfRange;
    };
    let column = lt_byte(table, at);
    let end_column = lt_byte(table, column.next);
    let l = show_line(to);
    Entry::Covers(Span {
        instructions,
        line: to,
        location: Location {
            line: l,
            column: column.value as u32 + 1,
            end_line: l,
            end_column: end_column.value as u32 + 1,
        },
        next: end_column.next,
        missing: end_column.missing,
    })
}

// Code 13.
fn no_columns(table: &[u8], line: u32, instructions: usize, at: usize) -> Entry
    ensures { result ≡ no_columns table.now line instructions at }
{
    let Some(step) = lt_read_signed_varint(table, at) else {
        return Entry::OutOfRange;
    };
    let Some(to) = move_line(line, step.value) else {
        return Entry::OutOfRange;
    };
    Entry::Covers(Span {
        instructions,
        line: to,
        location: at_line(to),
        next: step.next,
        missing: step.missing,
    })
}

// The columns of code 14, each written plus one.
fn long_columns(table: &[u8], to: u32, end: u32, instructions: usize, at: usize) -> Entry
    ensures { result ≡ long_columns table.now to end instructions at }
{
    let Some(column) = lt_read_varint(table, at) else {
        return Entry::OutOfRange;
    };
    let Some(end_column) = lt_read_varint(table, column.next) else {
        return Entry::OutOfRange;
    };
    Entry::Covers(Span {
        instructions,
        line: to,
        location: Location {
            line: show_line(to),
            column: show_column(column.value),
            end_line: show_line(end),
            end_column: show_column(end_column.value),
        },
        next: end_column.next,
        missing: end_column.missing,
    })
}

// Code 14: the signed line step, the end-line step, then the columns.
fn long_form(table: &[u8], line: u32, instructions: usize, at: usize) -> Entry
    ensures { result ≡ long_form table.now line instructions at }
{
    let Some(step) = lt_read_signed_varint(table, at) else {
        return Entry::OutOfRange;
    };
    let Some(end_step) = lt_read_varint(table, step.next) else {
        return Entry::OutOfRange;
    };
    let Some(to) = move_line(line, step.value) else {
        return Entry::OutOfRange;
    };
    let Some(end) = move_line(to, as_signed(end_step.value)) else {
        return Entry::OutOfRange;
    };
    long_columns(table, to, end, instructions, end_step.next)
}

// The entry at a place of the table, where the line so far is `line`; past the end it is a stop.
pub fn read_entry(table: &[u8], line: u32, at: usize) -> Entry
    ensures { result ≡ entry_at table.now line at }
{
    let first = lt_byte(table, at);
    let head = first.value as u32;
    let next = first.next;
    if head < 128 {
        return Entry::Stop;
    }
    let code = head / 8 % 16;
    let instructions = (head % 8 + 1) as usize;
    if code < 10 {
        return short_form(table, line, code, instructions, next);
    }
    if code < 13 {
        return one_line(table, line, code, instructions, next);
    }
    if code == 13 {
        return no_columns(table, line, instructions, next);
    }
    if code == 14 {
        return long_form(table, line, instructions, next);
    }
    Entry::Covers(Span {
        instructions,
        line,
        location: at_line(line),
        next,
        missing: false,
    })
}
