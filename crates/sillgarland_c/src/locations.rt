// Line tables for C and Rust callers. See include/sillgarland.h for what a caller owes.
ghost use Rattle.std.specs.Prelude.{◌≡◌, ◌/◌, min, length};
ghost use Rattle.linetable.specs.Answer.{first_line_of, located, answer, records_of, locations_of};
ghost use Rattle.sillgarland.specs.Locations.{located_struct};

use lineentry::Location;
use sillgarland::locations::SillLocated;

// `linetable_to_locations`, four numbers an instruction.
#[unsafe(no_mangle)]
pub extern "C" fn sill_locate(
    table: &[u8],
    first_line: i32,
    count: u32,
    records: &mut [u32],
) -> SillLocated
    ensures { (result ≡ located_struct (answer (located table.now (first_line_of first_line) count (length records.old / 4))))
        × (records.new ≡ records_of (length records.old) (located table.now (first_line_of first_line) count (length records.old / 4))) }
{
    sillgarland::locations::sill_locate(table, first_line, count, records)
}

// `linetable_to_locations`, one struct an instruction, with a store of four numbers an instruction beside it.
#[unsafe(no_mangle)]
pub extern "C" fn sill_locations(
    table: &[u8],
    first_line: i32,
    count: u32,
    flat: &mut [u32],
    out: &mut [Location],
) -> SillLocated
    ensures { (result ≡ located_struct (answer (located table.now (first_line_of first_line) count (min (length flat.old / 4) (length out.old)))))
        × (flat.new ≡ records_of (length flat.old) (located table.now (first_line_of first_line) count (min (length flat.old / 4) (length out.old))))
        × (out.new ≡ locations_of (length out.old)
        (located table.now (first_line_of first_line) count (min (length flat.old / 4) (length out.old)))) }
{
    sillgarland::locations::sill_locations(table, first_line, count, flat, out)
}
