// Joining line tables for C and Rust callers. See include/sillgarland.h for what a caller owes.
ghost use Rattle.std.specs.Prelude.{◌≡◌, length};
ghost use Rattle.linetable.specs.Answer.{first_line_of};
ghost use Rattle.join.specs.Whole.{line_told};
ghost use Rattle.join.specs.Join.{join_of};
ghost use Rattle.sillgarland.specs.Joins.{line_number, joined_struct, line_struct};

use join::{Joined, LineTold};
use refusals::Fault;

// A join's answer: its refusal and place, or how many bytes were written, for how many instructions, and the running line behind them.
#[repr(C)]
#[derive(Clone, Copy)]
pub struct SillJoined {
    pub refusal: u32,
    pub place: u32,
    pub written: u32,
    pub count: u32,
    pub line: i32,
}

// What is told of one table: its refusal and place, or whether it is whole, and the running line where its reading ends.
#[repr(C)]
#[derive(Clone, Copy)]
pub struct SillLine {
    pub refusal: u32,
    pub place: u32,
    pub whole: u32,
    pub line: i32,
}

// Puts one whole table behind another that leaves its first line.
pub fn sill_join(
    a: &[u8],
    first_a: i32,
    count_a: u32,
    b: &[u8],
    first_b: i32,
    count_b: u32,
    out: &mut [u8],
) -> SillJoined
    ensures { (result ≡ joined_struct (join_of a.now (first_line_of first_a) count_a b.now (first_line_of first_b) count_b (length out.old)).0)
        × (out.new ≡ (join_of a.now (first_line_of first_a) count_a b.now (first_line_of first_b) count_b (length out.old)).1) }
{
    SillJoined::from(join::join_tables(a, first_a, count_a, b, first_b, count_b, out))
}

// The running line of a table, without its records.
// A name of C, of one line as `sill_starts_before` and `sill_start_at` are.
pub fn sill_line_after(table: &[u8], first_line: i32, count: u32) -> SillLine
    ensures { result ≡ line_struct (line_told table.now (first_line_of first_line) count) }
{
    SillLine::from(join::line_after(table, first_line, count))
}

fn line_number(line: u32) -> i32
    ensures { result ≡ line_number line }
{
    signed::signed32(lineentry::as_signed(line))
}

impl From<Result<Joined, Fault>> for SillJoined {
    ghost from_gives = { λ answer it. it ≡ joined_struct answer };

    fn from(answer: Result<Joined, Fault>) -> SillJoined {
        match answer {
            Ok(joined) => SillJoined {
                refusal: refusals::ACCEPTED,
                place: 0,
                written: joined.written,
                count: joined.count,
                line: line_number(joined.line),
            },
            Err(fault) => SillJoined {
                refusal: fault.refusal.number(),
                place: fault.place,
                written: 0,
                count: 0,
                line: 0,
            },
        }
    }
}

impl From<Result<LineTold, Fault>> for SillLine {
    ghost from_gives = { λ answer it. it ≡ line_struct answer };

    fn from(answer: Result<LineTold, Fault>) -> SillLine {
        match answer {
            Ok(told) => SillLine {
                refusal: refusals::ACCEPTED,
                place: 0,
                whole: told.whole as u32,
                line: line_number(told.line),
            },
            Err(fault) => SillLine {
                refusal: fault.refusal.number(),
                place: fault.place,
                whole: 0,
                line: 0,
            },
        }
    }
}
