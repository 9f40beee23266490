// The writers of `varint.rs`: numbers of 32 bits as groups of six, little-endian for line tables, big-endian for exception tables.
// A number's leading zeros tell how many bytes it takes; a writer clears what it was lent, tests the room, and stores so many.
#![tactic(auto)]

ghost use Rattle.std.specs.Prelude.{◌≡◌, ◌+◌, ◌≤◌, ◌<◌, length, ◌≢◌, MatchResult};
ghost use Rattle.std.proofs.lemmas.List.Edits.{sets};
ghost use Rattle.std.specs.Int.{w32};
ghost use Rattle.std.proofs.Common.{of_z};
ghost use Rattle.refusals.specs.Faults.{fault};
ghost use Rattle.refusals.specs.declared.Refusal.TheVariants.{NoRoom};
ghost use Rattle.clearing.specs.Lent.{zeros};
ghost use Rattle.varint.specs.Writing.{groups, little_endian, big_endian, big_endian_with_start, signed_code};
ghost use Rattle.varint.specs.Answers.{stored, stored_signed};

use refusals::{Fault, Refusal};

// Writes a little-endian varint; the answer is how many bytes it took.
pub fn write_varint(out: &mut [u8], val: u32) -> Result<u32, Fault>
    ensures { (result, out.new) ≡ stored (length out.old) (little_endian val) }
{
    clear_for(out, val)?;
    Ok(put_varint(out, val) as u32)
}

// Writes a little-endian signed varint.
pub fn write_signed_varint(out: &mut [u8], val: i32) -> Result<u32, Fault>
    ensures { (result, out.new) ≡ stored_signed (length out.old) (of_z w32 val) }
{
    let bits = signed::bits32(val);
    if bits == 0x8000_0000 {
        clearing::clear_bytes(out);
        return Err(Refusal::NumberRange.at(0));
    }
    write_varint(out, signed_code(bits))
}

// Writes a big-endian varint.
// `write_varint_with_start` is alike but for the function it calls: a closure for that would be longer than both.
pub fn write_varint_be(out: &mut [u8], val: u32) -> Result<u32, Fault>
    ensures { (result, out.new) ≡ stored (length out.old) (big_endian val) }
{
    clear_for(out, val)?;
    Ok(put_varint_be(out, 0, val) as u32)
}

// Writes a big-endian varint with the start marker (0x80) on the first byte.
pub fn write_varint_with_start(out: &mut [u8], val: u32) -> Result<u32, Fault>
    ensures { (result, out.new) ≡ stored (length out.old) (big_endian_with_start val) }
{
    clear_for(out, val)?;
    Ok(put_varint_with_start(out, 0, val) as u32)
}

// The store cleared, and a refusal where it has no room for a number.
fn clear_for(out: &mut [u8], val: u32) -> Result<(), Fault>
    ensures cleared { out.new ≡ zeros (length out.old) }
    ensures room { MatchResult result (λ _. length (groups val) ≤ length out.old) (λ why. (length out.old < length (groups val)) × (why ≡ fault NoRoom (length out.old))) }
{
    clearing::clear_bytes(out);
    if out.len() < byte_count(val) {
        return Err(Refusal::NoRoom.at(out.len() as u32));
    }
    Ok(())
}

// How many bytes a number takes: its leading zeros tell, and 0 takes one.
pub fn byte_count(val: u32) -> usize
    ensures { (result ≡ length (groups val)) × (1 ≤ result) × (result ≤ 6) }
{
    ((37 - u32::leading_zeros(val | 1)) / 6) as usize
}

// The bytes of `val`, highest first, over those that stand from `at` on; the answer is the place behind them.
pub fn put_varint_be(out: &mut [u8], at: usize, val: u32) -> usize
    requires { at + length (groups val) ≤ length out.old }
    ensures { (result ≡ at + length (groups val)) × (out.new ≡ sets out.old at (big_endian val)) }
{
    let end = at + byte_count(val);
    let mut above = val / 64;
    out[end - 1] = (val % 64) as u8;
    for i in (at..end - 1).rev() {
        out[i] = 0x40 + (above % 64) as u8;
        above /= 64;
    }
    end
}

// The same with the start marker (0x80) on the first byte.
pub fn put_varint_with_start(out: &mut [u8], at: usize, val: u32) -> usize
    requires { at + length (groups val) ≤ length out.old }
    ensures { (result ≡ at + length (groups val)) × (out.new ≡ sets out.old at (big_endian_with_start val)) }
{
    let end = put_varint_be(out, at, val);
    out[at] += 0x80;
    end
}

// The bytes of `val`, lowest first, over the first of those lent; the answer is their number.
fn put_varint(out: &mut [u8], val: u32) -> usize
    requires { length (groups val) ≤ length out.old }
    ensures { (result ≡ length (groups val)) × (out.new ≡ sets out.old 0 (little_endian val)) }
{
    let count = byte_count(val);
    let mut left = val;
    for i in 0..count - 1 {
        out[i] = 0x40 + (left % 64) as u8;
        left /= 64;
    }
    out[count - 1] = left as u8;
    count
}

// What a signed number's bits are written as: the magnitude is zero minus the bits, wrapping.
fn signed_code(bits: u32) -> u32
    requires { bits ≢ 0x8000_0000 }
    ensures { result ≡ signed_code bits }
{
    if bits < 0x8000_0000 {
        bits * 2
    } else {
        std::num::wrapping_sub_u32(0, bits) * 2 + 1
    }
}
