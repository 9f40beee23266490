// The varint functions for C and Rust callers. See include/sillgarland.h for what a caller owes.
ghost use Rattle.std.specs.Prelude.{◌≡◌, length};
ghost use Rattle.std.specs.Int.{w32};
ghost use Rattle.std.proofs.Common.{of_z};
ghost use Rattle.varint.specs.Writing.{little_endian, big_endian, big_endian_with_start};
ghost use Rattle.varintread.specs.Reading.{read_varint, read_varint_with_start};
ghost use Rattle.varint.specs.Answers.{stored, stored_signed};
ghost use Rattle.sillgarland.specs.Varints.{written_as, found_struct};

use sillgarland::varints::{SillFound, SillWritten};

// `write_varint`.
#[unsafe(no_mangle)]
pub extern "C" fn sill_write_varint(out: &mut [u8], value: u32) -> SillWritten
    ensures { (result, out.new) ≡ written_as (stored (length out.old) (little_endian value)) }
{
    sillgarland::varints::sill_write_varint(out, value)
}

// `write_signed_varint`.
#[unsafe(no_mangle)]
pub extern "C" fn sill_write_signed_varint(out: &mut [u8], value: i32) -> SillWritten
    ensures { (result, out.new) ≡ written_as (stored_signed (length out.old) (of_z w32 value)) }
{
    sillgarland::varints::sill_write_signed_varint(out, value)
}

// `write_varint_be`.
#[unsafe(no_mangle)]
pub extern "C" fn sill_write_varint_be(out: &mut [u8], value: u32) -> SillWritten
    ensures { (result, out.new) ≡ written_as (stored (length out.old) (big_endian value)) }
{
    sillgarland::varints::sill_write_varint_be(out, value)
}

// `write_varint_with_start`.
#[unsafe(no_mangle)]
pub extern "C" fn sill_write_varint_with_start(out: &mut [u8], value: u32) -> SillWritten
    ensures { (result, out.new) ≡ written_as (stored (length out.old) (big_endian_with_start value)) }
{
    sillgarland::varints::sill_write_varint_with_start(out, value)
}

// `read_varint`.
#[unsafe(no_mangle)]
pub extern "C" fn sill_read_varint(data: &[u8], at: usize) -> SillFound
    ensures { result ≡ found_struct at (read_varint «data».now at) }
{
    sillgarland::varints::sill_read_varint(data, at)
}

// `read_varint_with_start`.
#[unsafe(no_mangle)]
pub extern "C" fn sill_read_varint_with_start(data: &[u8], at: usize) -> SillFound
    ensures { result ≡ found_struct at (read_varint_with_start «data».now at) }
{
    sillgarland::varints::sill_read_varint_with_start(data, at)
}
