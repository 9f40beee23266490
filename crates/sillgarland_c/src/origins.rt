// Where each instruction's place comes from, for C and Rust callers. See include/sillgarland.h for what a caller owes.
ghost use Rattle.std.specs.Prelude.{◌≡◌, length};
ghost use Rattle.linetable.specs.Answer.{first_line_of};
ghost use Rattle.sources.specs.Marks.{answer_of, bytes_of};
ghost use Rattle.sillgarland.specs.Sources.{marks_for, sourced_struct};

use sillgarland::origins::SillSourced;

// A byte an instruction: where the place that `sill_locate` shows comes from.
#[unsafe(no_mangle)]
pub extern "C" fn sill_sources(
    table: &[u8],
    first_line: i32,
    count: u32,
    sources: &mut [u8],
) -> SillSourced
    ensures { (result ≡ sourced_struct (answer_of (marks_for table.now (first_line_of first_line) count (length sources.old))))
        × (sources.new ≡ bytes_of (length sources.old) (marks_for table.now (first_line_of first_line) count (length sources.old))) }
{
    sillgarland::origins::sill_sources(table, first_line, count, sources)
}
