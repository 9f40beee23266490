// Where each instruction's place comes from, for C and Rust callers. See include/sillgarland.h for what a caller owes.
ghost use Rattle.std.specs.Prelude.{◌≡◌, length};
ghost use Rattle.linetable.specs.Answer.{first_line_of};
ghost use Rattle.sources.specs.Marks.{answer_of, bytes_of};
ghost use Rattle.sillgarland.specs.Sources.{marks_for, sourced_struct};

use refusals::Fault;
use sources::Counts;

// The answer: its refusal and place, or how many instructions are from an entry, have a line, have both columns too, and have a sure row.
#[repr(C)]
#[derive(Clone, Copy)]
pub struct SillSourced {
    pub refusal: u32,
    pub place: u32,
    pub from_entries: u32,
    pub with_line: u32,
    pub with_columns: u32,
    pub sure: u32,
}

// A byte an instruction: where the place that `sill_locate` shows comes from.
pub fn sill_sources(table: &[u8], first_line: i32, count: u32, sources: &mut [u8]) -> SillSourced
    ensures { (result ≡ sourced_struct (answer_of (marks_for table.now (first_line_of first_line) count (length sources.old))))
        × (sources.new ≡ bytes_of (length sources.old) (marks_for table.now (first_line_of first_line) count (length sources.old))) }
{
    SillSourced::from(sources::sources_of_table(table, first_line, count, sources))
}

impl From<Result<Counts, Fault>> for SillSourced {
    ghost from_gives = { λ answer it. it ≡ sourced_struct answer };

    fn from(answer: Result<Counts, Fault>) -> SillSourced {
        match answer {
            Ok(counts) => SillSourced {
                refusal: refusals::ACCEPTED,
                place: 0,
                from_entries: counts.from_entries,
                with_line: counts.with_line,
                with_columns: counts.with_columns,
                sure: counts.sure,
            },
            Err(fault) => SillSourced {
                refusal: fault.refusal.number(),
                place: fault.place,
                from_entries: 0,
                with_line: 0,
                with_columns: 0,
                sure: 0,
            },
        }
    }
}
