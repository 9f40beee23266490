// Exception tables for C and Rust callers. See include/sillgarland.h for what a caller owes.
ghost use Rattle.std.specs.Prelude.{◌≡◌, length};
ghost use Rattle.exceptiontable.specs.Reading.{decoded_of};
ghost use Rattle.exceptiontable.specs.Writing.{encoded_of};
ghost use Rattle.sillgarland.specs.Exceptions.{decoded_struct, decoded_as};
ghost use Rattle.sillgarland.specs.Varints.{written_as};

use crate::varints::SillWritten;
use refusals::Fault;

// A reading's answer: its refusal and place, or how many entries there are.
#[repr(C)]
#[derive(Clone, Copy)]
pub struct SillExceptions {
    pub refusal: u32,
    pub place: u32,
    pub count: u32,
}

impl From<Result<u32, Fault>> for SillExceptions {
    ghost from_gives = { λ answer numbers. numbers ≡ decoded_struct answer };

    fn from(answer: Result<u32, Fault>) -> SillExceptions {
        match answer {
            Ok(count) => SillExceptions {
                refusal: refusals::ACCEPTED,
                place: 0,
                count,
            },
            Err(fault) => SillExceptions {
                refusal: fault.refusal.number(),
                place: fault.place,
                count: 0,
            },
        }
    }
}

// `decode_exception_table`.
// This export and `sill_write_exceptions` are names of C, each of one line.
pub fn sill_read_exceptions(table: &[u8], entries: &mut [u32]) -> SillExceptions
    ensures { (result, entries.new) ≡ decoded_as (decoded_of table.now (length entries.old)) }
{
    SillExceptions::from(exceptiontable::decode_exception_table(table, entries))
}

// `encode_exception_table`.
pub fn sill_write_exceptions(entries: &[u32], out: &mut [u8]) -> SillWritten
    ensures { (result, out.new) ≡ written_as (encoded_of entries.now (length out.old)) }
{
    SillWritten::from(exceptiontable::encode_exception_table(entries, out))
}
