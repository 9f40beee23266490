// Joining line tables for C and Rust callers. See include/sillgarland.h for what a caller owes.
ghost use Rattle.std.specs.Prelude.{◌≡◌, length};
ghost use Rattle.linetable.specs.Answer.{first_line_of};
ghost use Rattle.join.specs.Whole.{line_told};
ghost use Rattle.join.specs.Join.{join_of};
ghost use Rattle.sillgarland.specs.Joins.{joined_struct, line_struct};

use sillgarland::joins::{SillJoined, SillLine};

// Puts one whole table behind another that leaves its first line.
#[unsafe(no_mangle)]
pub extern "C" fn sill_join(
    a: &[u8],
    first_a: i32,
    count_a: u32,
    b: &[u8],
    first_b: i32,
    count_b: u32,
    out: &mut [u8],
) -> SillJoined
    ensures { (result ≡ joined_struct (join_of a.now (first_line_of first_a) count_a b.now (first_line_of first_b) count_b (length out.old)).0)
        × (out.new ≡ (join_of a.now (first_line_of first_a) count_a b.now (first_line_of first_b) count_b (length out.old)).1) }
{
    sillgarland::joins::sill_join(a, first_a, count_a, b, first_b, count_b, out)
}

// The running line of a table, without its records.
#[unsafe(no_mangle)]
pub extern "C" fn sill_line_after(table: &[u8], first_line: i32, count: u32) -> SillLine
    ensures { result ≡ line_struct (line_told table.now (first_line_of first_line) count) }
{
    sillgarland::joins::sill_line_after(table, first_line, count)
}
