// The location table of a code object: `linetable_to_locations`, into a lent store of numbers and into a slice of `Location`.
// The contracts cite one reading of the table, `located`, which gives the answer and what every lent store holds.
#![tactic(auto)]

ghost use Rattle.std.specs.Prelude.{◌≡◌, Err, not, ◌&&◌, ◌+◌, ◌*◌, ◌/◌, ◌<◌, ◌≤◌, min, length, replicate, eqb};
ghost use Rattle.std.proofs.lemmas.List.Edits.{sets};
ghost use Rattle.refusals.specs.Limits.{most_bytes};
ghost use Rattle.clearing.specs.Lent.{zeros};
ghost use Rattle.lineentry.specs.Entry.{at_line};
ghost use Rattle.linetable.specs.Walk.{walk};
ghost use Rattle.linetable.specs.Answer.{first_line_of, located, located_both, answer, numbered, numbers, records_of, locations_of, location_at, locations_from};

use lineentry::{Entry, Location};
use refusals::{Fault, Refusal};

// How many instructions came from entries, and whether the table was whole.
// piecestate `Pieced` has the same fields, of what has come so far; piecestate stands not on this crate, and would for these two names alone: no plainer.
#[derive(Clone, Copy)]
pub struct Located {
    pub from_entries: u32,
    pub whole: bool,
}

// A refusal leaves the whole store zero. It answers what it is given, of any type.
pub fn refuse<E>(records: &mut [u32], why: E) -> Result<Located, E>
    ensures { (result ≡ Err why) × (records.new ≡ zeros (length records.old)) }
{
    clearing::clear_words(records);
    Err(why)
}

// Stores one location for n instructions, from the number at `from` on.
pub fn fill(records: &mut [u32], from: usize, n: usize, location: Location)
    requires { from + 4 * n ≤ length records.old }
    ensures { records.new ≡ sets records.old from (numbers (replicate n location)) }
{
    for i in 0..n {
        let j = from + 4 * i;
        records[j] = location.line;
        records[j + 1] = location.column;
        records[j + 2] = location.end_line;
        records[j + 3] = location.end_column;
    }
}

// Every byte of the table is used, and none was missing.
fn all_used(at: usize, length: usize, missing: bool) -> bool
    ensures { result ≡ (not missing && eqb at length) }
{
    !missing & (at == length)
}

// Places every instruction, entry by entry; those left over take the first line.
// `table`, `first` and `count` go no further than this walk, so a struct of them would be built for one call, and each clause would be longer: no plainer.
fn walk_entries(table: &[u8], first: u32, count: u32, records: &mut [u32]) -> Result<Located, Fault>
    requires { (length table.now ≤ most_bytes) × (4 * count ≤ length records.old) }
    ensures { (numbered result ≡ answer (walk count table.now (at_line first) first 0 count))
        × (records.new ≡ records_of (length records.old) (walk count table.now (at_line first) first 0 count)) }
{
    let total = count as usize;
    clearing::clear_words(&mut records[4 * total..]);
    let left_over = lineentry::at_line(first);
    let mut line = first;
    let mut at = 0;
    let mut i = 0;
    let mut missing = false;
    while i < total {
        match lineentry::quick::next_entry(table, line, at) {
            Entry::OutOfRange => {
                return refuse(records, Refusal::NumberRange.at(at as u32));
            }
            Entry::Stop => {
                fill(records, 4 * i, total - i, left_over);
                return Ok(Located {
                    from_entries: i as u32,
                    whole: false,
                });
            }
            Entry::Covers(span) => {
                let n = span.instructions;
                let location = span.location;
                if total - i < n {
                    fill(records, 4 * i, total - i, location);
                    return Ok(Located {
                        from_entries: count,
                        whole: false,
                    });
                }
                fill(records, 4 * i, n, location);
                i += n;
                line = span.line;
                at = span.next;
                missing |= span.missing;
            }
        }
    }
    Ok(Located {
        from_entries: count,
        whole: all_used(at, table.len(), missing),
    })
}

// The records, where there is room for `most` of them elsewhere.
// `table`, `first_line` and `count`, here, in `linetable_to_records` and in `linetable_to_locations`, are the parameters that C gives.
fn records_within(
    table: &[u8],
    first_line: i32,
    count: u32,
    records: &mut [u32],
    most: usize,
) -> Result<Located, Fault>
    ensures { (numbered result ≡ answer (located table.now (first_line_of first_line) count (min (length records.old / 4) most)))
        × (records.new ≡ records_of (length records.old) (located table.now (first_line_of first_line) count (min (length records.old / 4) most))) }
{
    if (refusals::MOST_BYTES as usize) < table.len() {
        return refuse(records, Refusal::InputTooLong.at(0));
    }
    let room = (records.len() / 4).min(most);
    if room < count as usize {
        return refuse(records, Refusal::NoRoom.at(room as u32));
    }
    let first = lineentry::as_signed(signed::bits32(first_line));
    walk_entries(table, first, count, records)
}

// Fills four numbers for each instruction: line, column, end line, end column.
pub fn linetable_to_records(
    table: &[u8],
    first_line: i32,
    count: u32,
    records: &mut [u32],
) -> Result<Located, Fault>
    ensures { (numbered result ≡ answer (located table.now (first_line_of first_line) count (length records.old / 4)))
        × (records.new ≡ records_of (length records.old) (located table.now (first_line_of first_line) count (length records.old / 4))) }
{
    let room = records.len() / 4;
    records_within(table, first_line, count, records, room)
}

// The location of the four numbers of a record that is all there.
fn record_at(flat: &[u32], i: usize) -> Location
    requires { 4 * i + 3 < length flat.now }
    ensures { result ≡ location_at flat.now i }
{
    let j = 4 * i;
    Location {
        line: flat[j],
        column: flat[j + 1],
        end_line: flat[j + 2],
        end_column: flat[j + 3],
    }
}

// The location of record i of n. Whether all n are there is the same for each of them, so a loop over them tests it once.
fn location_at(flat: &[u32], i: usize, n: usize) -> Location
    requires { (i < n) × (n < 0x1000000000000000) }
    ensures { result ≡ location_at flat.now i }
{
    if n <= flat.len() / 4 {
        return record_at(flat, i);
    }
    if 4 * i + 3 < flat.len() {
        return record_at(flat, i);
    }
    Location {
        line: 0,
        column: 0,
        end_line: 0,
        end_column: 0,
    }
}

// Fills a slice of locations from the numbers of its records, from the last, which was stored most lately, to the first.
fn fill_locations(out: &mut [Location], flat: &[u32])
    ensures { out.new ≡ locations_from flat.now 0 (length out.old) }
{
    let n = out.len();
    for i in (0..n).rev() {
        out[i] = location_at(flat, i, n);
    }
}

// Fills a slice of locations, one for each instruction, with a lent store of numbers for their records.
pub fn linetable_to_locations(
    table: &[u8],
    first_line: i32,
    count: u32,
    flat: &mut [u32],
    out: &mut [Location],
) -> Result<Located, Fault>
    ensures { (numbered result ≡ answer (located_both table.now first_line count flat.old out.old))
        × (flat.new ≡ records_of (length flat.old) (located_both table.now first_line count flat.old out.old))
        × (out.new ≡ locations_of (length out.old) (located_both table.now first_line count flat.old out.old)) }
{
    let k = out.len();
    let r = records_within(table, first_line, count, flat, k);
    fill_locations(out, flat);
    r
}
