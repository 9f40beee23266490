// The exception table of a code object: `decode_exception_table` and `encode_exception_table`, between bytes and lent stores of five
// numbers an entry. Reading takes varints as K5 has them; writing puts each number behind the last, over a cleared output.
#![tactic(auto)]

ghost use Rattle.std.specs.Prelude.{◌≡◌, ◌+◌, ◌≤◌, ◌<◌, length, get_or, IfErr};
ghost use Rattle.std.proofs.lemmas.List.Edits.{sets};
ghost use Rattle.refusals.specs.Limits.{most_bytes};
ghost use Rattle.clearing.specs.Lent.{zeros};
ghost use Rattle.clearing.specs.Refused.{unless_refused};
ghost use Rattle.exceptiontable.specs.Entry.{entry_in, numbers};
ghost use Rattle.exceptiontable.specs.Reading.{first_number, later_number, taken_as, entry_of, entry_at, decoded_of};
ghost use Rattle.exceptiontable.specs.Writing.{bytes_of, encoded_of};

use refusals::{Fault, Refusal};
use varintread::{Found, Unread};

// An entry that was read, and the place behind it.
#[derive(Clone, Copy, Debug, PartialEq, Eq)]
pub struct Handler {
    pub start: u32,
    pub size: u32,
    pub target: u32,
    pub depth: u32,
    pub last: u32,
    pub next: usize,
}

// Reads every entry of a table into the lent store, five numbers an entry; the answer is how many there are.
// `encode_exception_table` is alike but for the kind of store and the function it calls: a closure for that would be longer than both.
pub fn decode_exception_table(table: &[u8], entries: &mut [u32]) -> Result<u32, Fault>
    ensures { (result, entries.new) ≡ decoded_of table.now (length entries.old) }
{
    clearing::clear_words(entries);
    let decoded = read_entries(table, entries);
    if decoded.is_err() {
        clearing::clear_words(entries);
    }
    decoded
}

// Writes the whole groups of five numbers of a store as a table, in the shortest form; the answer is how many bytes it takes.
pub fn encode_exception_table(entries: &[u32], out: &mut [u8]) -> Result<u32, Fault>
    ensures { (result, out.new) ≡ encoded_of entries.now (length out.old) }
{
    clearing::clear_bytes(out);
    let encoded = write_entries(entries, out);
    if encoded.is_err() {
        clearing::clear_bytes(out);
    }
    encoded
}

// The entries over a cleared store, which a refusal leaves as far as they were read.
// The loop goes from entry to entry and counts no index.
fn read_entries(table: &[u8], entries: &mut [u32]) -> Result<u32, Fault>
    requires { entries.old ≡ zeros (length entries.old) }
    ensures { (result, unless_refused result entries.new) ≡ decoded_of table.now (length entries.old) }
{
    if (refusals::MOST_BYTES as usize) < table.len() {
        return Err(Refusal::InputTooLong.at(0));
    }
    let mut at = 0;
    let mut count = 0;
    while at < table.len() {
        let handler = read_entry(table, at)?;
        if entries.len() / 5 <= count {
            return Err(Refusal::NoRoom.at(count as u32));
        }
        store_entry(entries, 5 * count, &handler);
        count += 1;
        at = handler.next;
    }
    Ok(count as u32)
}

// The entries' bytes over a cleared output, which a refusal leaves as far as they were written.
fn write_entries(entries: &[u32], out: &mut [u8]) -> Result<u32, Fault>
    requires { out.old ≡ zeros (length out.old) }
    ensures { (result, unless_refused result out.new) ≡ encoded_of entries.now (length out.old) }
{
    let room = out.len().min(refusals::NOTHING as usize);
    let mut used = 0;
    for i in 0..entries.len() / 5 {
        if 0x8000_0000 <= entries[5 * i + 3] {
            return Err(Refusal::NumberRange.at(0));
        }
        if 2 <= entries[5 * i + 4] {
            return Err(Refusal::NumberRange.at(0));
        }
        if room < used + entry_size(entries, 5 * i) {
            return Err(Refusal::NoRoom.at(room as u32));
        }
        used = put_entry(out, used, entries, 5 * i);
    }
    Ok(used as u32)
}

// How many bytes an entry of the store takes.
fn entry_size(entries: &[u32], at: usize) -> usize
    requires { (at + 5 ≤ length entries.now) × (get_or entries.now (at + 3) 0 < 0x8000_0000) × (get_or entries.now (at + 4) 0 < 2) }
    ensures { (result ≡ length (bytes_of (entry_in entries.now at))) × (result ≤ 24) }
{
    let code = entries[at + 3] * 2 + entries[at + 4];
    let ahead = varint::byte_count(entries[at]) + varint::byte_count(entries[at + 1]);
    ahead + varint::byte_count(entries[at + 2]) + varint::byte_count(code)
}

// An entry of the store behind what is written; the answer is the place behind it.
fn put_entry(out: &mut [u8], used: usize, entries: &[u32], at: usize) -> usize
    requires { (at + 5 ≤ length entries.now) × (get_or entries.now (at + 3) 0 < 0x8000_0000) × (get_or entries.now (at + 4) 0 < 2)
        × (used + length (bytes_of (entry_in entries.now at)) ≤ length out.old) }
    ensures { (result ≡ used + length (bytes_of (entry_in entries.now at)))
        × (out.new ≡ sets out.old used (bytes_of (entry_in entries.now at))) }
{
    let first = varint::put_varint_with_start(out, used, entries[at]);
    let second = varint::put_varint_be(out, first, entries[at + 1]);
    let third = varint::put_varint_be(out, second, entries[at + 2]);
    varint::put_varint_be(out, third, entries[at + 3] * 2 + entries[at + 4])
}

// The number that an entry starts with, which has the marker. Most are of one byte.
fn first_number(table: &[u8], at: usize) -> Result<Found, Fault>
    requires { (length table.now ≤ most_bytes) × (at ≤ length table.now) }
    ensures { result ≡ first_number table.now at }
{
    if at < table.len() {
        let byte = table[at];
        if byte / 0x40 == 2 {
            return Ok(Found {
                value: (byte % 64) as u32,
                next: at + 1,
            });
        }
    }
    any_first_number(table, at)
}

// A later number of an entry. Most are of one byte.
fn later_number(table: &[u8], at: usize) -> Result<Found, Fault>
    requires { length table.now ≤ most_bytes }
    ensures { result ≡ later_number table.now at }
{
    if at < table.len() {
        let byte = table[at];
        if byte / 0x40 % 2 == 0 {
            return Ok(Found {
                value: (byte % 64) as u32,
                next: at + 1,
            });
        }
    }
    any_later_number(table, at)
}

// The same, of any number of bytes.
fn any_first_number(table: &[u8], at: usize) -> Result<Found, Fault>
    requires { (length table.now ≤ most_bytes) × (at ≤ length table.now) }
    ensures { result ≡ first_number table.now at }
{
    taken(
        varintread::read_varint_with_start(table, at),
        Refusal::NoMarker.at(at as u32),
    )
}

fn any_later_number(table: &[u8], at: usize) -> Result<Found, Fault>
    requires { length table.now ≤ most_bytes }
    ensures { result ≡ later_number table.now at }
{
    taken(
        varintread::read_varint(table, at),
        Refusal::DataTooShort.at(table.len() as u32),
    )
}

// A number that was read; where there is none, the refusal that says so.
fn taken(read: Result<Option<Found>, Unread>, missing: Fault) -> Result<Found, Fault>
    requires { IfErr read (λ why. why.place ≤ most_bytes) }
    ensures { result ≡ taken_as missing read }
{
    match read {
        Ok(Some(found)) => Ok(found),
        Ok(None) => Err(missing),
        Err(why) => Err(why.refusal.at(why.place as u32)),
    }
}

// One entry.
fn read_entry(table: &[u8], at: usize) -> Result<Handler, Fault>
    requires { (length table.now ≤ most_bytes) × (at ≤ length table.now) }
    ensures { result ≡ entry_at table.now at }
{
    let start = first_number(table, at)?;
    let size = later_number(table, start.next)?;
    let target = later_number(table, size.next)?;
    let code = later_number(table, target.next)?;
    Ok(Handler {
        start: start.value,
        size: size.value,
        target: target.value,
        depth: code.value / 2,
        last: code.value % 2,
        next: code.next,
    })
}

// An entry's five numbers into the store, from a place on.
fn store_entry(entries: &mut [u32], at: usize, handler: &Handler)
    requires { at + 5 ≤ length entries.old }
    ensures { entries.new ≡ sets entries.old at (numbers (entry_of handler.now)) }
{
    entries[at] = handler.start;
    entries[at + 1] = handler.size;
    entries[at + 2] = handler.target;
    entries[at + 3] = handler.depth;
    entries[at + 4] = handler.last;
}
