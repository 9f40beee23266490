// Line tables by piece for C and Rust callers. See include/sillgarland.h for what a caller owes.
ghost use Rattle.std.specs.Prelude.{◌≡◌};
ghost use Rattle.linetable.specs.Answer.{first_line_of};
ghost use Rattle.pieces.specs.Calls.{begin, piece, end};
ghost use Rattle.sillgarland.specs.Pieces.{pieced_struct, LeavesStruct};

use crate::locations::SillLocated;
use piecestate::Pieced;
use refusals::Fault;

// `locate_begin`.
pub fn sill_locate_begin(
    first_line: i32,
    count: u32,
    state: &mut [u32],
    records: &mut [u32],
) -> SillLocated
    ensures { LeavesStruct (begin (first_line_of first_line) count state.old records.old) result state.new records.new }
{
    SillLocated::from(bypiece::locate_begin(first_line, count, state, records))
}

// `locate_piece`.
pub fn sill_locate_piece(bytes: &[u8], state: &mut [u32], records: &mut [u32]) -> SillLocated
    ensures { LeavesStruct (piece bytes.now state.old records.old) result state.new records.new }
{
    SillLocated::from(bypiece::locate_piece(bytes, state, records))
}

// `locate_end`.
pub fn sill_locate_end(state: &mut [u32], records: &mut [u32]) -> SillLocated
    ensures { LeavesStruct (end state.old records.old) result state.new records.new }
{
    SillLocated::from(bypiece::locate_end(state, records))
}

impl From<Result<Pieced, Fault>> for SillLocated {
    ghost from_gives = { λ answer located. located ≡ pieced_struct answer };

    fn from(answer: Result<Pieced, Fault>) -> SillLocated {
        match answer {
            Ok(pieced) => SillLocated {
                refusal: refusals::ACCEPTED,
                place: 0,
                from_entries: pieced.from_entries,
                whole: pieced.whole as u32,
            },
            Err(why) => SillLocated {
                refusal: why.refusal.number(),
                place: why.place,
                from_entries: 0,
                whole: 0,
            },
        }
    }
}
