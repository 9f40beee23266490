// One walk over a line table without records: the row of its complete entries, how it ends and where. Whatever repairs, joins or reads
// a table by piece takes from this walk what it needs.
#![tactic(auto)]

ghost use Rattle.std.specs.Prelude.{◌≡◌, ◌≤◌, length};
ghost use Rattle.refusals.specs.Limits.{most_bytes};
ghost use Rattle.rows.specs.Summary.{summary};

use lineentry::Entry;

// How a row ends: every instruction is placed; the table has ended or stops; an entry is cut, is refused, or runs past the count.
#[derive(Clone, Copy)]
pub enum How {
    AllPlaced,
    Ended,
    Cut,
    Refused,
    PastCount,
}

// How a row ends, how many complete entries it has, the line and the place after them, the place after the entry that runs past the
// count, which else is `place`, and how many instructions are left.
#[derive(Clone, Copy)]
pub struct RowEnd {
    pub how: How,
    pub entries: usize,
    pub line: u32,
    pub place: usize,
    pub next: usize,
    pub left: usize,
}

// The row of the table, from its start, for `count` instructions.
// linetable `walk_entries` and sources `walk_marks` ask the same bound of a table: as a type with that bound, each caller's test, a refusal in its own order, stays: no plainer.
pub fn walk_row(table: &[u8], first: u32, count: u32) -> RowEnd
    requires { length table.now ≤ most_bytes }
    ensures { result ≡ summary table.now first count }
{
    let mut line = first;
    let mut at = 0;
    let mut left = count as usize;
    let mut entries = 0;
    while 0 < left {
        match lineentry::read_entry(table, line, at) {
            Entry::OutOfRange => {
                return RowEnd {
                    how: How::Refused,
                    entries,
                    line,
                    place: at,
                    next: at,
                    left,
                };
            }
            Entry::Stop => {
                return RowEnd {
                    how: How::Ended,
                    entries,
                    line,
                    place: at,
                    next: at,
                    left,
                };
            }
            Entry::Covers(span) => {
                if span.missing {
                    return RowEnd {
                        how: How::Cut,
                        entries,
                        line,
                        place: at,
                        next: at,
                        left,
                    };
                }
                let n = span.instructions;
                if left < n {
                    return RowEnd {
                        how: How::PastCount,
                        entries,
                        line,
                        place: at,
                        next: span.next,
                        left,
                    };
                }
                left -= n;
                line = span.line;
                at = span.next;
                entries += 1;
            }
        }
    }
    RowEnd {
        how: How::AllPlaced,
        entries,
        line,
        place: at,
        next: at,
        left,
    }
}
