// Integers put into the output: those in signed 32 bits as `i`, others as `l` with the fewest digits.
// What is written is `writing`'s Canonical `integer_bytes`; room is tested by `output`'s rules.
#![tactic(auto)]

ghost use Rattle.std.specs.Prelude.{◌≡◌, ◌+◌, ◌*◌, ◌≤◌, ◌<◌, length};
ghost use Rattle.std.proofs.lemmas.List.Edits.{sets};
ghost use Rattle.refusals.specs.Limits.{most_bytes};
ghost use Rattle.grammar.specs.Letters.{long};
ghost use Rattle.grammar.specs.Fields.{fields, span, items};
ghost use Rattle.grammar.specs.Leaf.{magnitude};
ghost use Rattle.writing.specs.Writing.{emit, ended};
ghost use Rattle.writing.specs.Canonical.{digits_of, digit_bytes, bits_of, of_bits, long_bytes, integer_bytes};
ghost use Rattle.writing.specs.Shape.{long_at};
ghost use Rattle.output.specs.Puts.{Open, Puts};

use grammar::{WRITTEN_INT, WRITTEN_LONG};
use refusals::{Fault, Refusal};

// How many digits of 15 bits a number outside signed 32 bits has.
fn digits_in(magnitude: u64) -> u32
    requires { 2147483648 ≤ magnitude }
    ensures { (result ≡ length (digits_of magnitude)) × (3 ≤ result) × (result ≤ 5) }
{
    if magnitude < 0x2000_0000_0000 {
        return 3;
    }
    if magnitude < 0x1000_0000_0000_0000 {
        return 4;
    }
    5
}

// The digits of a number, the least first.
fn store_digits(out: &mut [u8], at: usize, magnitude: u64)
    requires { at + 2 * length (digits_of magnitude) ≤ length out.old }
    ensures { out.new ≡ sets out.old at (digit_bytes (digits_of magnitude)) }
{
    let mut left = magnitude;
    let mut place = at;
    while 0 < left {
        let digit = (left % 32768) as u16;
        output::store_bytes(out, place, &digit.to_le_bytes());
        left = left / 32768;
        place += 2;
    }
}

// The count of digits, its sign being the number's.
// The sign is a part of the number, no choice of steps.
fn signed_count(negative: bool, count: u32) -> u32
    requires { 0 < count }
    ensures { result ≡ bits_of 4294967296 (record { negative = negative; magnitude = count }) }
{
    if negative {
        return 0xFFFF_FFFF - count + 1;
    }
    count
}

// An integer outside signed 32 bits.
fn write_digits(out: &mut [u8], at: u32, negative: bool, magnitude: u64) -> Result<u32, Fault>
    requires { Open at out.old × (2147483648 ≤ magnitude) }
    ensures { Puts (emit (long_bytes (record { negative = negative; magnitude = magnitude })) ended) at out.old result out.new }
{
    let room = out.len();
    let place = at as usize;
    let count = digits_in(magnitude);
    if room - place < 5 + 2 * count as usize {
        return Err(Refusal::NoRoom.at(room as u32));
    }
    out[place] = WRITTEN_LONG;
    output::store_u32(out, place + 1, signed_count(negative, count));
    store_digits(out, place + 5, magnitude);
    Ok(at + 5 + 2 * count)
}

// A whole number of 64 bits, by its bits.
pub fn write_int64(out: &mut [u8], at: u32, bits: u64) -> Result<u32, Fault>
    requires { Open at out.old }
    ensures { Puts (emit (integer_bytes (of_bits 9223372036854775808 bits)) ended) at out.old result out.new }
{
    if bits < 0x8000_0000 {
        return output::write_len(out, at, WRITTEN_INT, bits as u32);
    }
    if 0xFFFF_FFFF_8000_0000 <= bits {
        return output::write_len(out, at, WRITTEN_INT, (bits % 0x1_0000_0000) as u32);
    }
    if bits < 0x8000_0000_0000_0000 {
        return write_digits(out, at, false, bits);
    }
    write_digits(out, at, true, 0xFFFF_FFFF_FFFF_FFFF - bits + 1)
}

// The number of up to three digits that stand at a place.
fn few_digits(s: &[u8], at: usize, count: u32) -> u64
    requires { (at + 2 * count ≤ length s.now) × (count ≤ 3) }
    ensures { result ≡ magnitude s.now count at }
{
    if count == 0 {
        return 0;
    }
    let low = fields::le16(s, at) as u64;
    if count == 1 {
        return low;
    }
    let middle = fields::le16(s, at + 2) as u64;
    if count == 2 {
        return low + 32768 * middle;
    }
    low + 32768 * (middle + 32768 * fields::le16(s, at + 2 + 2) as u64)
}

// A long that stands at a place, with its count: its digits are the fewest already.
// It takes the input and no part of it: `fields` and `long_at` speak of places in the input, and would have to be said again of a part.
pub fn write_pylong(out: &mut [u8], at: u32, s: &[u8], place: u32, size: u32) -> Result<u32, Fault>
    requires { Open at out.old × (fields s.now long place ≡ span place size (items 0)) × (length s.now ≤ most_bytes) }
    ensures { Puts (emit (integer_bytes (long_at s.now place)) ended) at out.old result out.new }
{
    let stored = output::contents(s, place, size);
    if 10 < size {
        return output::write_slice(out, at, WRITTEN_LONG, stored);
    }
    let value = few_digits(s, place as usize + 4, (size - 4) / 2);
    if fields::le32(s, place as usize) < 0x8000_0000 {
        if value < 0x8000_0000 {
            return output::write_len(out, at, WRITTEN_INT, value as u32);
        }
        return output::write_slice(out, at, WRITTEN_LONG, stored);
    }
    if value <= 0x8000_0000 {
        return output::write_len(out, at, WRITTEN_INT, 0xFFFF_FFFF - value as u32 + 1);
    }
    output::write_slice(out, at, WRITTEN_LONG, stored)
}
