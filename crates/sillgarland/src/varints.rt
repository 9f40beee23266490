// The varint functions for C and Rust callers. See include/sillgarland.h for what a caller owes.
ghost use Rattle.std.specs.Prelude.{◌≡◌, length};
ghost use Rattle.std.specs.Int.{w32};
ghost use Rattle.std.proofs.Common.{of_z};
ghost use Rattle.varint.specs.Writing.{little_endian, big_endian, big_endian_with_start};
ghost use Rattle.varintread.specs.Reading.{read_varint, read_varint_with_start};
ghost use Rattle.varint.specs.Answers.{stored, stored_signed};
ghost use Rattle.sillgarland.specs.Varints.{written_struct, written_as, found_struct};

use refusals::Fault;
use varintread::{Found, Unread};

// A writer's answer: its refusal and place, or how many bytes were written.
// A type of C's header, as `SillMoved`, `SillRewritten` and `SillSaved` are, which have the same fields under names of their own.
#[repr(C)]
#[derive(Clone, Copy)]
pub struct SillWritten {
    pub refusal: u32,
    pub place: u32,
    pub written: u32,
}

// A reader's answer: its refusal and place, or whether there is a number, its value, and the position after it.
#[repr(C)]
#[derive(Clone, Copy)]
pub struct SillFound {
    pub refusal: u32,
    pub found: u32,
    pub value: u32,
    pub pad: u32,
    pub place: u64,
    pub next: u64,
}

impl From<Result<u32, Fault>> for SillWritten {
    ghost from_gives = { λ answer numbers. numbers ≡ written_struct answer };

    fn from(answer: Result<u32, Fault>) -> SillWritten {
        match answer {
            Ok(written) => SillWritten {
                refusal: refusals::ACCEPTED,
                place: 0,
                written,
            },
            Err(fault) => SillWritten {
                refusal: fault.refusal.number(),
                place: fault.place,
                written: 0,
            },
        }
    }
}

// `write_varint`.
// This export and the three below it are names of C, each of one line.
pub fn sill_write_varint(out: &mut [u8], value: u32) -> SillWritten
    ensures { (result, out.new) ≡ written_as (stored (length out.old) (little_endian value)) }
{
    SillWritten::from(varint::write_varint(out, value))
}

// `write_signed_varint`.
pub fn sill_write_signed_varint(out: &mut [u8], value: i32) -> SillWritten
    ensures { (result, out.new) ≡ written_as (stored_signed (length out.old) (of_z w32 value)) }
{
    SillWritten::from(varint::write_signed_varint(out, value))
}

// `write_varint_be`.
pub fn sill_write_varint_be(out: &mut [u8], value: u32) -> SillWritten
    ensures { (result, out.new) ≡ written_as (stored (length out.old) (big_endian value)) }
{
    SillWritten::from(varint::write_varint_be(out, value))
}

// `write_varint_with_start`.
pub fn sill_write_varint_with_start(out: &mut [u8], value: u32) -> SillWritten
    ensures { (result, out.new) ≡ written_as (stored (length out.old) (big_endian_with_start value)) }
{
    SillWritten::from(varint::write_varint_with_start(out, value))
}

// `read_varint`.
pub fn sill_read_varint(data: &[u8], at: usize) -> SillFound
    ensures { result ≡ found_struct at (read_varint «data».now at) }
{
    found_numbers(varintread::read_varint(data, at), at)
}

// `read_varint_with_start`.
pub fn sill_read_varint_with_start(data: &[u8], at: usize) -> SillFound
    ensures { result ≡ found_struct at (read_varint_with_start «data».now at) }
{
    found_numbers(varintread::read_varint_with_start(data, at), at)
}

// A function: it takes the position beside the answer, for which `From` has no place.
fn found_numbers(answer: Result<Option<Found>, Unread>, at: usize) -> SillFound
    ensures { result ≡ found_struct at answer }
{
    match answer {
        Ok(Some(found)) => SillFound {
            refusal: refusals::ACCEPTED,
            found: 1,
            value: found.value,
            pad: 0,
            place: 0,
            next: found.next as u64,
        },
        Ok(None) => SillFound {
            refusal: refusals::ACCEPTED,
            found: 0,
            value: 0,
            pad: 0,
            place: 0,
            next: at as u64,
        },
        Err(unread) => SillFound {
            refusal: unread.refusal.number(),
            found: 0,
            value: 0,
            pad: 0,
            place: unread.place as u64,
            next: at as u64,
        },
    }
}
