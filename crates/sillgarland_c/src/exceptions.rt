// Exception tables for C and Rust callers. See include/sillgarland.h for what a caller owes.
ghost use Rattle.std.specs.Prelude.{◌≡◌, length};
ghost use Rattle.exceptiontable.specs.Reading.{decoded_of};
ghost use Rattle.exceptiontable.specs.Writing.{encoded_of};
ghost use Rattle.sillgarland.specs.Exceptions.{decoded_as};
ghost use Rattle.sillgarland.specs.Varints.{written_as};

use sillgarland::exceptions::SillExceptions;
use sillgarland::varints::SillWritten;

// `decode_exception_table`.
#[unsafe(no_mangle)]
pub extern "C" fn sill_read_exceptions(table: &[u8], entries: &mut [u32]) -> SillExceptions
    ensures { (result, entries.new) ≡ decoded_as (decoded_of table.now (length entries.old)) }
{
    sillgarland::exceptions::sill_read_exceptions(table, entries)
}

// `encode_exception_table`.
#[unsafe(no_mangle)]
pub extern "C" fn sill_write_exceptions(entries: &[u32], out: &mut [u8]) -> SillWritten
    ensures { (result, out.new) ≡ written_as (encoded_of entries.now (length out.old)) }
{
    sillgarland::exceptions::sill_write_exceptions(entries, out)
}
