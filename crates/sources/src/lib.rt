// Where each instruction's place comes from: a byte for each, which tells whether an entry gave it, what the entry has, and whether a byte of
// the entry was missing. The walk is `linetable`'s, with a byte where that has a record.
#![tactic(auto)]

ghost use Rattle.std.specs.Prelude.{◌≡◌, ◌&&◌, not, cond, ◌+◌, ◌-◌, ◌<◌, ◌≤◌, min, length, replicate, leb};
ghost use Rattle.std.proofs.lemmas.List.Edits.{sets};
ghost use Rattle.refusals.specs.Limits.{most_bytes};
ghost use Rattle.refusals.specs.Faults.{refused};
ghost use Rattle.clearing.specs.Lent.{zeros};
ghost use Rattle.lineentry.specs.Line.{moved, as_signed};
ghost use Rattle.linetable.specs.Answer.{first_line_of};
ghost use Rattle.lineentry.specs.Varint.{byte_at};
ghost use Rattle.lineentry.specs.Quick.{Plain};
ghost use Rattle.lineentry.specs.Short.{Long, Read};
ghost use Rattle.sources.specs.Source.{code_at, number_at, long_from, long_at, LongShown, above_one, above, above_after, bit, sum, source_by, long_source, source_of};
ghost use Rattle.sources.specs.Marks.{marks, sources, has, share, answer_of, bytes_of};
ghost use Rattle.sources.specs.Turns.{turn_at, lacks, Few, lacking, having};

use lineentry::short::Numbers;
use lineentry::{Entry, Location};
use refusals::{Fault, Refusal};

// 0 as a line is kept.
const ORIGIN: u32 = 0x8000_0000;

// A number of an entry, and the place after it.
// varintread `Found` has the same fields, of big-endian bytes in another crate; one type would bring that crate here for two names: no plainer.
#[derive(Clone, Copy)]
pub struct Number {
    pub value: u32,
    pub next: usize,
}

// The numbers of code 14 behind its line step.
#[derive(Clone, Copy)]
pub struct LongForm {
    pub end_step: u32,
    pub column: u32,
    pub end_column: u32,
}

// How many instructions are from an entry, have a line, have both columns too, and have a row that is sure.
#[derive(Clone, Copy)]
pub struct Counts {
    pub from_entries: u32,
    pub with_line: u32,
    pub with_columns: u32,
    pub sure: u32,
}

// An entry as the walk takes it: how many instructions, the line and the place after it, and its byte.
#[derive(Clone, Copy)]
pub struct Mark {
    pub instructions: usize,
    pub line: u32,
    pub next: usize,
    pub byte: u8,
}

// The entry at a place, or a stop, or an entry that is refused.
#[derive(Clone, Copy)]
pub enum Turn {
    Gives(Mark),
    Stops,
    Refuses,
}

// How many instructions lack a line, a line with both columns, and a row that is sure.
#[derive(Clone, Copy)]
pub struct Lacks {
    pub line: u32,
    pub columns: u32,
    pub sure: u32,
}

// `table`, `at` and `line`, here and below, stay apart for the reason at lineentry `lt_byte`.
fn number_at(table: &[u8], at: usize) -> Number
    ensures { result ≡ number_at table.now at }
{
    match lineentry::lt_read_varint(table, at) {
        None => Number { value: 0, next: at },
        Some(read) => Number {
            value: read.value,
            next: read.next,
        },
    }
}

// The numbers of code 14 from its end-line step on.
fn long_from(table: &[u8], at: usize) -> LongForm
    ensures { result ≡ long_from table.now at }
{
    let end = number_at(table, at);
    let column = number_at(table, end.next);
    let last = number_at(table, column.next);
    LongForm {
        end_step: end.value,
        column: column.value,
        end_column: last.value,
    }
}

fn long_at(table: &[u8], at: usize) -> LongForm
    ensures { result ≡ long_at table.now at }
{
    let step = number_at(table, at);
    long_from(table, step.next)
}

fn is_above(line: u32) -> bool
    ensures { result ≡ above line }
{
    ORIGIN < line
}

// The line after a step is above 0.
fn above_after(line: u32, step: u32) -> bool
    ensures { result ≡ above_after (moved line (as_signed step)) }
{
    match lineentry::move_line(line, lineentry::as_signed(step)) {
        None => false,
        Some(end) => is_above(end),
    }
}

// `share_of` is the same for numbers of 32 bits: one for both would need a trait of numbers with its laws, and be no plainer.
// `given`, in both, is a bit of the data and no choice of steps.
fn weigh(weight: u8, given: bool) -> u8
    ensures { (result ≡ bit weight given) × (result ≤ weight) }
{
    if given { weight } else { 0 }
}

fn sum_of(line: bool, column: bool, end_column: bool, positive: bool, missing: bool) -> u8
    ensures { result ≡ sum line column end_column positive missing }
{
    let a = weigh(2, line);
    let b = weigh(4, column);
    let c = weigh(8, end_column);
    let d = weigh(16, positive);
    let e = weigh(32, missing);
    1 + a + b + c + d + e
}

// Whether a location shows no 1.
fn above_one(shows: Location) -> bool
    ensures { result ≡ above_one shows }
{
    1 < shows.line && 1 < shows.end_line && 1 < shows.column && 1 < shows.end_column
}

// Code 14, whose numbers start at a place and show as they do: where they show no 1, none of them is 0 or less.
fn long_source(table: &[u8], at: usize, line: u32, missing: bool, shows: Location) -> u8
    requires { LongShown (long_at table.now at) line shows }
    ensures { result ≡ long_source table.now at line missing }
{
    if above_one(shows) {
        return sum_of(true, true, true, true, missing);
    }
    read_long_source(table, at, line, missing)
}

// Code 14 by its numbers: each column is there where its number is not 0.
fn by_numbers(long: LongForm, line: u32, missing: bool) -> u8
    ensures { result ≡ source_by 14 line long missing }
{
    let positive = is_above(line) && above_after(line, long.end_step);
    sum_of(
        true,
        0 < long.column,
        0 < long.end_column,
        positive,
        missing,
    )
}

// Code 14, whose numbers start at a place.
fn read_long_source(table: &[u8], at: usize, line: u32, missing: bool) -> u8
    ensures { result ≡ long_source table.now at line missing }
{
    by_numbers(long_at(table, at), line, missing)
}

// The byte for the entry at a place, which has this line, of which a byte was missing or not, and which shows this location.
fn source_of(table: &[u8], at: usize, line: u32, missing: bool, shows: Location) -> u8
    requires { code_at table.now at ≡ 14 → LongShown (long_at table.now (byte_at table.now at).next) line shows }
    ensures { result ≡ source_of table.now at line missing }
{
    let first = lineentry::lt_byte(table, at);
    let code = first.value as u32 / 8 % 16;
    if code < 13 {
        return sum_of(true, true, true, is_above(line), missing);
    }
    if code == 15 {
        return sum_of(false, false, false, false, missing);
    }
    if code == 14 {
        return long_source(table, first.next, line, missing, shows);
    }
    sum_of(true, false, false, is_above(line), missing)
}

fn has_bit(weight: u8, byte: u8) -> bool
    requires { 0 < weight }
    ensures { result ≡ has weight byte }
{
    byte / weight % 2 == 1
}

fn share_of(n: u32, given: bool) -> u32
    ensures { (result ≡ share n given) × (result ≤ n) }
{
    if given { n } else { 0 }
}

// n more instructions of one byte, which have an entry. Most have all that is counted, and then nothing is added.
fn lack_more(before: Lacks, i: usize, n: u32, byte: u8) -> Lacks
    requires { (i + n < 0x100000000) × Few before i }
    ensures { result ≡ lacking before n byte }
{
    if byte == 31 {
        return before;
    }
    let line = has_bit(2, byte);
    let columns = line && has_bit(4, byte) && has_bit(8, byte);
    let sure = line && has_bit(16, byte) && !has_bit(32, byte);
    Lacks {
        line: before.line + share_of(n, !line),
        columns: before.columns + share_of(n, !columns),
        sure: before.sure + share_of(n, !sure),
    }
}

// The counts of i instructions that have an entry, by what they lack.
fn have(i: u32, lacks: Lacks) -> Counts
    requires { Few lacks i }
    ensures { result ≡ having i lacks }
{
    Counts {
        from_entries: i,
        with_line: i - lacks.line,
        with_columns: i - lacks.columns,
        sure: i - lacks.sure,
    }
}

// An entry's byte, for one of its instructions of which so many are left: never more than eight. The test keeps the loop below a loop: a
// compiler makes of it a call that clears memory, and entries are too short for calls.
fn one_of_eight(byte: u8, left: usize) -> u8
    requires { left ≤ 8 }
    ensures { result ≡ byte }
{
    if 8 < left {
        return 0;
    }
    byte
}

// Stores one byte for n instructions, from one on.
fn fill(bytes: &mut [u8], from: usize, n: usize, byte: u8)
    requires { (from + n ≤ length bytes.old) × (n ≤ 8) }
    ensures { bytes.new ≡ sets bytes.old from (replicate n byte) }
{
    for j in 0..n {
        bytes[from + j] = one_of_eight(byte, n - j);
    }
}

// Stores one byte eight times, from an instruction on.
fn fill_eight(bytes: &mut [u8], from: usize, byte: u8)
    requires { from + 8 ≤ length bytes.old }
    ensures { bytes.new ≡ sets bytes.old from (replicate 8 byte) }
{
    for j in 0..8 {
        bytes[from + j] = byte;
    }
}

// Stores one byte for n instructions. Where there is room it is eight, so that no branch waits for n: what comes behind is stored later.
fn fill_up(bytes: &mut [u8], from: usize, n: usize, byte: u8)
    requires { (from + n ≤ length bytes.old) × (n ≤ 8) }
    ensures { bytes.new ≡ sets bytes.old from (cond (leb 8 (length bytes.old - from)) (replicate 8 byte) (replicate n byte)) }
{
    if 8 <= bytes.len() - from {
        fill_eight(bytes, from, byte);
        return;
    }
    fill(bytes, from, n, byte);
}

// A refusal leaves every byte zero.
fn refuse(bytes: &mut [u8], why: Refusal, place: u32) -> Result<Counts, Fault>
    ensures { (result ≡ refused why place) × (bytes.new ≡ zeros (length bytes.old)) }
{
    clearing::clear_bytes(bytes);
    Err(why.at(place))
}

// An entry of codes 0 to 12.
fn plain_turn(table: &[u8], line: u32, at: usize) -> Turn
    requires { Plain table.now at }
    ensures { result ≡ turn_at table.now line at }
{
    match lineentry::quick::plain_entry(table, line, at) {
        Entry::OutOfRange => Turn::Refuses,
        Entry::Stop => Turn::Stops,
        Entry::Covers(span) => Turn::Gives(Mark {
            instructions: span.instructions,
            line: span.line,
            next: span.next,
            byte: sum_of(true, true, true, is_above(span.line), span.missing),
        }),
    }
}

// An entry of code 14 whose numbers were read.
fn long_turn(table: &[u8], line: u32, at: usize, x: Numbers) -> Turn
    requires { Long table.now at × Read table.now (at + 1) x }
    ensures { result ≡ turn_at table.now line at }
{
    match lineentry::short::long_entry(table, line, at, x) {
        Entry::OutOfRange => Turn::Refuses,
        Entry::Stop => Turn::Stops,
        Entry::Covers(span) => {
            let long = LongForm {
                end_step: x.end_step,
                column: x.column,
                end_column: x.end_column,
            };
            Turn::Gives(Mark {
                instructions: span.instructions,
                line: span.line,
                next: span.next,
                byte: by_numbers(long, span.line, span.missing),
            })
        }
    }
}

// Any entry.
fn other_turn(table: &[u8], line: u32, at: usize) -> Turn
    ensures { result ≡ turn_at table.now line at }
{
    match lineentry::read_entry(table, line, at) {
        Entry::OutOfRange => Turn::Refuses,
        Entry::Stop => Turn::Stops,
        Entry::Covers(span) => {
            let shows = span.location;
            Turn::Gives(Mark {
                instructions: span.instructions,
                line: span.line,
                next: span.next,
                byte: source_of(table, at, span.line, span.missing, shows),
            })
        }
    }
}

// The entry at a place of the table. Each way to it makes its byte before the ways meet.
fn turn_here(table: &[u8], line: u32, at: usize) -> Turn
    ensures { result ≡ turn_at table.now line at }
{
    if lineentry::quick::is_plain(table, at) {
        return plain_turn(table, line, at);
    }
    if lineentry::short::is_long(table, at) {
        let numbers = lineentry::short::short_numbers(table, at);
        if numbers.short {
            return long_turn(table, line, at, numbers);
        }
    }
    other_turn(table, line, at)
}

// Gives every instruction its entry's byte, entry by entry; those left over, and what was stored past the last, are cleared.
// `table`, `first` and `count` go no further than this walk; `sources_of_table` has them as C gives them.
fn walk_marks(table: &[u8], first: u32, count: u32, bytes: &mut [u8]) -> Result<Counts, Fault>
    requires { (length table.now ≤ most_bytes) × (count ≤ length bytes.old) }
    ensures { (result ≡ answer_of (marks count table.now first 0 count))
        × (bytes.new ≡ bytes_of (length bytes.old) (marks count table.now first 0 count)) }
{
    let total = count as usize;
    let mut lacks = Lacks {
        line: 0,
        columns: 0,
        sure: 0,
    };
    let mut line = first;
    let mut at = 0;
    let mut i = 0;
    while i < total {
        match turn_here(table, line, at) {
            Turn::Refuses => {
                return refuse(bytes, Refusal::NumberRange, at as u32);
            }
            Turn::Stops => {
                clearing::clear_bytes(&mut bytes[i..]);
                return Ok(have(i as u32, lacks));
            }
            Turn::Gives(mark) => {
                let n = mark.instructions.min(total - i);
                fill_up(bytes, i, n, mark.byte);
                lacks = lack_more(lacks, i, n as u32, mark.byte);
                i += n;
                line = mark.line;
                at = mark.next;
            }
        }
    }
    clearing::clear_bytes(&mut bytes[i..]);
    Ok(have(i as u32, lacks))
}

// A byte for each instruction, from a first line as code objects have it.
pub fn sources_of_table(
    table: &[u8],
    first_line: i32,
    count: u32,
    bytes: &mut [u8],
) -> Result<Counts, Fault>
    ensures { (result ≡ answer_of (sources table.now (first_line_of first_line) count (length bytes.old)))
        × (bytes.new ≡ bytes_of (length bytes.old) (sources table.now (first_line_of first_line) count (length bytes.old))) }
{
    if (refusals::MOST_BYTES as usize) < table.len() {
        return refuse(bytes, Refusal::InputTooLong, 0);
    }
    if bytes.len() < count as usize {
        return refuse(bytes, Refusal::NoRoom, bytes.len() as u32);
    }
    let first = lineentry::as_signed(signed::bits32(first_line));
    walk_marks(table, first, count, bytes)
}
