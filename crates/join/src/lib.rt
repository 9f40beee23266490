// 02's K12: one line table behind another, where the first is whole and leaves the line from which the second is whole; and the running
// line of a table, without its records.
#![tactic(auto)]

ghost use Rattle.std.specs.Prelude.{◌≡◌, Bool, true, false, ◌++◌, ◌+◌, ◌≤◌, length};
ghost use Rattle.std.proofs.lemmas.List.Edits.{sets};
ghost use Rattle.refusals.specs.Limits.{most_bytes};
ghost use Rattle.lineentry.specs.Entry.{entry_at};
ghost use Rattle.linetable.specs.Answer.{first_line_of};
ghost use Rattle.join.specs.Whole.{line_told, entry_line};
ghost use Rattle.join.specs.Join.{met, join_of};

use lineentry::Entry;
use refusals::{Fault, Refusal};
use rows::How;

// Whether a table is whole, and the running line where its reading ends, kept plus 2^31.
#[derive(Clone, Copy)]
pub struct LineTold {
    pub whole: bool,
    pub line: u32,
}

// A table: its bytes, its first line, kept plus 2^31, and for how many instructions it is.
#[derive(Clone, Copy)]
struct Table<'a> {
    bytes: &'a [u8],
    first: u32,
    count: u32,
}

// A table from a first line as code objects have it.
fn table_of(bytes: &[u8], first_line: i32, count: u32) -> Table<'_>
    ensures { (result.bytes.now ≡ bytes.now) × (result.first ≡ first_line_of first_line) × (result.count ≡ count) }
{
    let first = lineentry::as_signed(signed::bits32(first_line));
    Table {
        bytes,
        first,
        count,
    }
}

// The line to which the entry at a place moves.
fn entry_line(table: &[u8], line: u32, at: usize) -> u32
    ensures { result ≡ entry_line line (entry_at table.now line at) }
{
    match lineentry::read_entry(table, line, at) {
        Entry::Covers(span) => span.line,
        Entry::Stop => line,
        Entry::OutOfRange => line,
    }
}

// What is told of a table.
fn line_told(t: Table<'_>) -> Result<LineTold, Fault>
    ensures { result ≡ line_told t.entry.bytes.now t.entry.first t.entry.count }
{
    let table = t.bytes;
    if (refusals::MOST_BYTES as usize) < table.len() {
        return Err(Refusal::InputTooLong.at(0));
    }
    let e = rows::walk_row(table, t.first, t.count);
    if let How::Refused = e.how {
        return Err(Refusal::NumberRange.at(e.place as u32));
    }
    if let How::AllPlaced = e.how {
        return Ok(LineTold {
            whole: e.place == table.len(),
            line: e.line,
        });
    }
    let line = entry_line(table, e.line, e.place);
    Ok(LineTold { whole: false, line })
}

// What is told of a table, from a first line as code objects have it.
pub fn line_after(table: &[u8], first_line: i32, count: u32) -> Result<LineTold, Fault>
    ensures { result ≡ line_told table.now (first_line_of first_line) count }
{
    line_told(table_of(table, first_line, count))
}

// The line that the second of two tables leaves, if they meet.
fn meet(a: Table<'_>, b: Table<'_>) -> Option<u32>
    requires { (length a.bytes.now ≤ most_bytes) × (length b.bytes.now ≤ most_bytes) }
    ensures { result ≡ met a.entry.bytes.now a.entry.first a.entry.count b.entry.bytes.now b.entry.first b.entry.count }
{
    let former = line_told(a).ok()?;
    if !former.whole {
        return None;
    }
    if former.line != b.first {
        return None;
    }
    let latter = line_told(b).ok()?;
    if !latter.whole {
        return None;
    }
    Some(latter.line)
}

// One slice behind another.
fn write_both(out: &mut [u8], a: &[u8], b: &[u8])
    requires { length a.now + length b.now ≤ length out.old }
    ensures { out.new ≡ sets out.old 0 (a.now ++ b.now) }
{
    copying::copy_bytes(&mut out[..a.len()], a);
    copying::copy_bytes(&mut out[a.len()..a.len() + b.len()], b);
}

// How many bytes were written, for how many instructions, and the line that they leave, kept plus 2^31.
#[derive(Clone, Copy)]
pub struct Joined {
    pub written: u32,
    pub count: u32,
    pub line: u32,
}

// The second table behind the first.
fn join(a: Table<'_>, b: Table<'_>, out: &mut [u8]) -> Result<Joined, Fault>
    ensures { (result ≡ (join_of a.entry.bytes.now a.entry.first a.entry.count b.entry.bytes.now b.entry.first b.entry.count (length out.old)).0)
        × (out.new ≡ (join_of a.entry.bytes.now a.entry.first a.entry.count b.entry.bytes.now b.entry.first b.entry.count (length out.old)).1) }
{
    clearing::clear_bytes(out);
    let size = a.bytes.len() + b.bytes.len();
    if (refusals::MOST_BYTES as usize) < size {
        return Err(Refusal::InputTooLong.at(0));
    }
    let met = meet(a, b);
    let line = met.ok_or(Refusal::NotJoined.at(0))?;
    if out.len() < size {
        return Err(Refusal::NoRoom.at(salvage::short_place(out.len())));
    }
    write_both(out, a.bytes, b.bytes);
    Ok(Joined {
        written: size as u32,
        count: a.count + b.count,
        line,
    })
}

// The same from first lines as code objects have them.
pub fn join_tables(
    a: &[u8],
    first_a: i32,
    count_a: u32,
    b: &[u8],
    first_b: i32,
    count_b: u32,
    out: &mut [u8],
) -> Result<Joined, Fault>
    ensures { (result ≡ (join_of a.now (first_line_of first_a) count_a b.now (first_line_of first_b) count_b (length out.old)).0)
        × (out.new ≡ (join_of a.now (first_line_of first_a) count_a b.now (first_line_of first_b) count_b (length out.old)).1) }
{
    let former = table_of(a, first_a, count_a);
    let latter = table_of(b, first_b, count_b);
    join(former, latter, out)
}
