// Line tables for C and Rust callers. See include/sillgarland.h for what a caller owes.
ghost use Rattle.std.specs.Prelude.{◌≡◌, ◌/◌, min, length};
ghost use Rattle.linetable.specs.Answer.{first_line_of, located, answer, numbered, records_of, locations_of};
ghost use Rattle.sillgarland.specs.Locations.{located_struct};

use lineentry::Location;
use linetable::Located;
use refusals::Fault;

// A table's answer: its refusal and place, or how many instructions came from entries, and whether the table was whole.
#[repr(C)]
#[derive(Clone, Copy)]
pub struct SillLocated {
    pub refusal: u32,
    pub place: u32,
    pub from_entries: u32,
    pub whole: u32,
}

// `linetable_to_locations`, four numbers an instruction.
pub fn sill_locate(table: &[u8], first_line: i32, count: u32, records: &mut [u32]) -> SillLocated
    ensures { (result ≡ located_struct (answer (located table.now (first_line_of first_line) count (length records.old / 4))))
        × (records.new ≡ records_of (length records.old) (located table.now (first_line_of first_line) count (length records.old / 4))) }
{
    SillLocated::from(linetable::linetable_to_records(table, first_line, count, records))
}

// `linetable_to_locations`, one struct an instruction, with a store of four numbers an instruction beside it.
pub fn sill_locations(
    table: &[u8],
    first_line: i32,
    count: u32,
    flat: &mut [u32],
    out: &mut [Location],
) -> SillLocated
    ensures { (result ≡ located_struct (answer (located table.now (first_line_of first_line) count (min (length flat.old / 4) (length out.old)))))
        × (flat.new ≡ records_of (length flat.old) (located table.now (first_line_of first_line) count (min (length flat.old / 4) (length out.old))))
        × (out.new ≡ locations_of (length out.old)
        (located table.now (first_line_of first_line) count (min (length flat.old / 4) (length out.old)))) }
{
    SillLocated::from(linetable::linetable_to_locations(table, first_line, count, flat, out))
}

impl From<Result<Located, Fault>> for SillLocated {
    ghost from_gives = { λ answer it. it ≡ located_struct (numbered answer) };

    fn from(answer: Result<Located, Fault>) -> SillLocated {
        match answer {
            Ok(told) => SillLocated {
                refusal: refusals::ACCEPTED,
                place: 0,
                from_entries: told.from_entries,
                whole: told.whole as u32,
            },
            Err(why) => SillLocated {
                refusal: why.refusal.number(),
                place: why.place,
                from_entries: 0,
                whole: 0,
            },
        }
    }
}
