// 02's K9: a repair of a line table that makes a whole one of what it keeps, and lists what it changed.
#![tactic(auto)]

ghost use Rattle.std.specs.Prelude.{◌≡◌, ◌++◌, ◌+◌, ◌/◌, ◌<◌, ◌≤◌, min, length, take};
ghost use Rattle.std.proofs.lemmas.List.Edits.{sets};
ghost use Rattle.linetable.specs.Answer.{first_line_of};
ghost use Rattle.salvage.specs.Salvage.{fill, head_for};
ghost use Rattle.salvage.specs.Repair.{shortened, repair};

use refusals::{Fault, Refusal};
use rows::How;

// Code-15 entries that cover so many instructions.
fn cover(out: &mut [u8], at: usize, left: usize)
    requires { (at + (left + 7) / 8 ≤ length out.old) × (left < 0x100000000) }
    ensures { out.new ≡ sets out.old at (fill left) }
{
    let eights = at + left / 8;
    out[at..eights].fill(255);
    if 0 < left % 8 {
        out[eights] = (247 + left % 8) as u8;
    }
}

// How many bytes were written, and the list: entries kept, bytes dropped, how many were shortened, instructions covered.
#[derive(Clone, Copy)]
pub struct Salvaged {
    pub written: u32,
    pub kept: u32,
    pub dropped: u32,
    // A count, 0 or 1, as `Account` has it.
    pub shortened: u32,
    pub covered: u32,
}

// The place of a refusal for want of room: the output's length, which counts as at most 4,294,967,295.
pub fn short_place(room: usize) -> u32
    ensures { result ≡ min room 4294967295 }
{
    room.min(0xFFFF_FFFF) as u32
}

// The first byte of an entry, for another number of instructions.
fn head_for(byte: u8, left: usize) -> u8
    requires { (0 < left) × (left < 8) }
    ensures { result ≡ head_for byte left }
{
    byte / 8 * 8 + (left - 1) as u8
}

// The kept entries, and the last of them for fewer instructions.
fn write_past(out: &mut [u8], table: &[u8], place: usize, next: usize, left: usize)
    requires { (place < next) × (next ≤ length table.now) × (next ≤ length out.old) × (0 < left) × (left < 8) }
    ensures { out.new ≡ sets out.old 0 (take place table.now ++ shortened table.now place next left) }
{
    copying::copy_bytes(&mut out[..next], &table[..next]);
    out[place] = head_for(table[place], left);
}

// The kept entries, and entries that cover the rest.
fn write_covered(out: &mut [u8], table: &[u8], place: usize, left: usize)
    requires { (place ≤ length table.now) × (place + (left + 7) / 8 ≤ length out.old) × (left < 0x100000000) }
    ensures { out.new ≡ sets out.old 0 (take place table.now ++ fill left) }
{
    copying::copy_bytes(&mut out[..place], &table[..place]);
    cover(out, place, left);
}

// The repaired table and its list, from a first line that is kept plus 2^31.
// `table`, `first` and `count` go no further than the walk; `salvage_table` has them as C gives them.
fn salvage(table: &[u8], first: u32, count: u32, out: &mut [u8]) -> Result<Salvaged, Fault>
    ensures { (result ≡ (repair table.now first count (length out.old)).0)
        × (out.new ≡ (repair table.now first count (length out.old)).1) }
{
    clearing::clear_bytes(out);
    if (refusals::MOST_BYTES as usize) < table.len() {
        return Err(Refusal::InputTooLong.at(0));
    }
    let e = rows::walk_row(table, first, count);
    if let How::PastCount = e.how {
        if out.len() < e.next {
            return Err(Refusal::NoRoom.at(short_place(out.len())));
        }
        write_past(out, table, e.place, e.next, e.left);
        return Ok(Salvaged {
            written: e.next as u32,
            kept: e.entries as u32 + 1,
            dropped: (table.len() - e.next) as u32,
            shortened: 1,
            covered: 0,
        });
    }
    let size = e.place + (e.left + 7) / 8;
    if (refusals::MOST_BYTES as usize) < size {
        return Err(Refusal::InputTooLong.at(0));
    }
    if out.len() < size {
        return Err(Refusal::NoRoom.at(short_place(out.len())));
    }
    write_covered(out, table, e.place, e.left);
    Ok(Salvaged {
        written: size as u32,
        kept: e.entries as u32,
        dropped: (table.len() - e.place) as u32,
        shortened: 0,
        covered: e.left as u32,
    })
}

// The same from a first line as code objects have it.
pub fn salvage_table(
    table: &[u8],
    first_line: i32,
    count: u32,
    out: &mut [u8],
) -> Result<Salvaged, Fault>
    ensures { (result ≡ (repair table.now (first_line_of first_line) count (length out.old)).0)
        × (out.new ≡ (repair table.now (first_line_of first_line) count (length out.old)).1) }
{
    let first = lineentry::as_signed(signed::bits32(first_line));
    salvage(table, first, count, out)
}
