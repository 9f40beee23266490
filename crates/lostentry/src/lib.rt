// The test of an entry that is lost: it refuses however its bytes go on. 02's K6 gives an 18 in the call whose bytes first show one.
#![tactic(auto)]

ghost use Rattle.std.specs.Prelude.{◌≡◌};
ghost use Rattle.lineentry.specs.Varint.{varint_at, signed_of};
ghost use Rattle.lostentry.specs.Lost.{cut_early, end_open, may_heal, lost};

use lineentry::Entry;

// A number that is cut within five bytes.
fn cut_early(held: &[u8], at: usize) -> bool
    ensures { result ≡ cut_early at (varint_at held.now at) }
{
    let Some(read) = lineentry::lt_read_varint(held, at) else {
        return false;
    };
    read.missing && read.next - at < 6
}

// The step that a number stands for, plus 2^31.
fn step_of(value: u32) -> u32
    ensures { result ≡ signed_of value }
{
    if value % 2 == 0 {
        0x8000_0000 + value / 2
    } else {
        0x8000_0000 - value / 2
    }
}

// The line step of code 14 is all there and its line in range, and the end-line step is cut within five bytes.
// As a chain of `&&` the join loses which test failed, and the proof would take the branches apart by hand.
// `held` and `line` are what a piece holds of an entry: as a struct, piecestate and pieces would build one for one call each: no plainer.
fn end_open(held: &[u8], line: u32) -> bool
    ensures { result ≡ end_open held.now line (varint_at held.now 1) }
{
    let Some(step) = lineentry::lt_read_varint(held, 1) else {
        return false;
    };
    if step.missing {
        return false;
    }
    match lineentry::move_line(line, step_of(step.value)) {
        None => false,
        Some(_) => cut_early(held, step.next),
    }
}

// A later byte may still bring the entry into range.
fn may_heal(held: &[u8], line: u32) -> bool
    ensures { result ≡ may_heal held.now line }
{
    if held.is_empty() {
        return false;
    }
    held[0] / 8 % 16 == 14 && end_open(held, line)
}

// The entry that these bytes begin, at the line so far, refuses however they go on.
pub fn lost_entry(held: &[u8], line: u32) -> bool
    ensures { result ≡ lost held.now line }
{
    match lineentry::read_entry(held, line, 0) {
        Entry::Covers(_) => false,
        Entry::Stop => false,
        Entry::OutOfRange => !may_heal(held, line),
    }
}
