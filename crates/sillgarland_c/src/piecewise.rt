// Line tables by piece for C and Rust callers. See include/sillgarland.h for what a caller owes.
ghost use Rattle.linetable.specs.Answer.{first_line_of};
ghost use Rattle.pieces.specs.Calls.{begin, piece, end};
ghost use Rattle.sillgarland.specs.Pieces.{LeavesStruct};

use sillgarland::locations::SillLocated;

// `locate_begin`.
#[unsafe(no_mangle)]
pub extern "C" fn sill_locate_begin(
    first_line: i32,
    count: u32,
    state: &mut [u32],
    records: &mut [u32],
) -> SillLocated
    ensures { LeavesStruct (begin (first_line_of first_line) count state.old records.old) result state.new records.new }
{
    sillgarland::piecewise::sill_locate_begin(first_line, count, state, records)
}

// `locate_piece`.
#[unsafe(no_mangle)]
pub extern "C" fn sill_locate_piece(
    bytes: &[u8],
    state: &mut [u32],
    records: &mut [u32],
) -> SillLocated
    ensures { LeavesStruct (piece bytes.now state.old records.old) result state.new records.new }
{
    sillgarland::piecewise::sill_locate_piece(bytes, state, records)
}

// `locate_end`.
#[unsafe(no_mangle)]
pub extern "C" fn sill_locate_end(state: &mut [u32], records: &mut [u32]) -> SillLocated
    ensures { LeavesStruct (end state.old records.old) result state.new records.new }
{
    sillgarland::piecewise::sill_locate_end(state, records)
}
