// 02's K6: a line table that comes by piece. Three calls: the start, each piece, and the end, "a final call, without bytes, that says it has
// ended". Between them a state of forty numbers, lent by the caller, keeps where the reading stands.
#![tactic(auto)]

ghost use Rattle.std.specs.Prelude.{◌≡◌, [], ◌∷◌, ◌-◌, ◌≤◌, length, Ok};
ghost use Rattle.std.proofs.lemmas.List.Edits.{sets};
ghost use Rattle.linetable.specs.Answer.{first_line_of};
ghost use Rattle.lineentry.specs.declared.Entry.TheVariants.{Covers, Stop};
ghost use Rattle.lineentry.specs.Entry.{entry_at};
ghost use Rattle.piecestate.specs.State.{ended, kept_at, held_at};
ghost use Rattle.piecestate.specs.Answers.{pieced, Leaves};
ghost use Rattle.pieces.specs.Facts.{Entered};
ghost use Rattle.bypiece.specs.Facts.{Ending};
ghost use Rattle.pieces.specs.Calls.{piece, by_held, end_by, end, fresh, begin};

use lineentry::{Entry, Span};
use piecestate::{Gate, HELD_FROM, Kept, Pieced, Standing};
use refusals::{Fault, Refusal};

pub mod onebyte;

// The numbers of a reading that has only begun.
fn freshen(state: &mut [u32], first: u32, count: u32)
    requires { 40 ≤ length state.old }
    ensures { state.new ≡ fresh first count state.old }
{
    state[0] = first;
    state[1] = count;
    state[2] = first;
    state[3] = 0;
    state[4] = 0;
    state[5] = 0;
    state[6] = Standing::Going as u32;
    state[7] = 0;
    state[8] = 0;
    state[9] = 0;
}

// Begins: the first line and the count are fixed, and the records are zero.
pub fn locate_begin(
    first_line: i32,
    count: u32,
    state: &mut [u32],
    records: &mut [u32],
) -> Result<Pieced, Fault>
    ensures { Leaves (begin (first_line_of first_line) count state.old records.old) result state.new records.new }
{
    if state.len() < piecestate::STATE_NUMBERS {
        return piecestate::no_state(state, records);
    }
    freshen(
        state,
        lineentry::as_signed(signed::bits32(first_line)),
        count,
    );
    let room = records.len() / 4;
    if room < count as usize {
        return piecestate::stick_fault(state, records, Refusal::NoRoom.at(room as u32));
    }
    clearing::clear_words(records);
    Ok(Pieced {
        from_entries: 0,
        whole: false,
    })
}

// A piece, by what is looked at first.
fn any_piece(bytes: &[u8], k: Kept, state: &mut [u32], records: &mut [u32]) -> Result<Pieced, Fault>
    requires { (40 ≤ length state.old) × (k ≡ kept_at state.old) }
    ensures { Leaves (piece bytes.now state.old records.old) result state.new records.new }
{
    match piecestate::look(state, k, records.len() / 4) {
        Gate::Shut(why) => piecestate::refuse(records, why),
        Gate::Stuck(why) => piecestate::stick_fault(state, records, why),
        Gate::Open => pieces::take_piece(bytes, k, state, records),
    }
}

// Takes a piece.
pub fn locate_piece(bytes: &[u8], state: &mut [u32], records: &mut [u32]) -> Result<Pieced, Fault>
    ensures { Leaves (piece bytes.now state.old records.old) result state.new records.new }
{
    if state.len() < piecestate::STATE_NUMBERS {
        return piecestate::no_state(state, records);
    }
    let k = piecestate::kept_at(state);
    onebyte::take(bytes, k, state, records)
}

// The reading has ended, with so many instructions from entries.
fn finish(state: &mut [u32], entries: u32, whole: bool) -> Pieced
    requires { 40 ≤ length state.old }
    ensures { (result ≡ pieced entries whole) × (state.new ≡ sets state.old 6 (ended ∷ [])) }
{
    state[6] = Standing::Ended as u32;
    Pieced {
        from_entries: entries,
        whole,
    }
}

// The end where no entry is left: the instructions left take the first line.
fn end_bare(k: Kept, state: &mut [u32], records: &mut [u32]) -> Pieced
    requires { Ending k state.old records.old }
    ensures { Leaves (by_held state.old records.old k (k.count - k.placed) Stop) (Ok result) state.new records.new }
{
    let placed = k.placed as usize;
    let left = (k.count - k.placed) as usize;
    linetable::fill(records, 4 * placed, left, lineentry::at_line(k.first));
    finish(state, k.placed, false)
}

// The end behind an entry of which bytes are missing: it places what it places with zeros, then the first line.
fn end_cut(span: Span, k: Kept, state: &mut [u32], records: &mut [u32]) -> Pieced
    requires { Ending k state.old records.old }
    ensures { Leaves (by_held state.old records.old k (k.count - k.placed) (Covers span)) (Ok result) state.new records.new }
{
    let placed = k.placed as usize;
    let left = (k.count - k.placed) as usize;
    let n = span.instructions.min(left);
    linetable::fill(records, 4 * placed, n, span.location);
    linetable::fill(
        records,
        4 * (placed + n),
        left - n,
        lineentry::at_line(k.first),
    );
    finish(state, k.placed + n as u32, false)
}

// The end by the entry that the held bytes begin, "missing bytes become 0 only there".
fn end_held(k: Kept, state: &mut [u32], records: &mut [u32]) -> Result<Pieced, Fault>
    requires { Ending k state.old records.old × (k.size ≤ 25) }
    ensures { Leaves (by_held state.old records.old k (k.count - k.placed) (entry_at (held_at state.old) k.line 0))
        result state.new records.new }
{
    let size = k.size as usize;
    let mut held = [0u8; 25];
    piecestate::fetch(&mut held, &state[HELD_FROM..HELD_FROM + size]);
    match lineentry::read_entry(&held[..size], k.line, 0) {
        Entry::OutOfRange => {
            piecestate::stick_fault(state, records, Refusal::NumberRange.at(k.start))
        }
        Entry::Stop => Ok(end_bare(k, state, records)),
        Entry::Covers(span) => Ok(end_cut(span, k, state, records)),
    }
}

// The end, once nothing is refused before it.
fn take_end(k: Kept, state: &mut [u32], records: &mut [u32]) -> Result<Pieced, Fault>
    requires { Entered k state.old records.old }
    ensures { Leaves (end_by state.old records.old k) result state.new records.new }
{
    if k.status == Standing::Over as u32 {
        return Ok(end_bare(k, state, records));
    }
    if k.placed == k.count {
        return Ok(finish(state, k.placed, k.start == k.bytes));
    }
    end_held(k, state, records)
}

// Ends.
pub fn locate_end(state: &mut [u32], records: &mut [u32]) -> Result<Pieced, Fault>
    ensures { Leaves (end state.old records.old) result state.new records.new }
{
    if state.len() < piecestate::STATE_NUMBERS {
        return piecestate::no_state(state, records);
    }
    let k = piecestate::kept_at(state);
    match piecestate::look(state, k, records.len() / 4) {
        Gate::Shut(why) => piecestate::refuse(records, why),
        Gate::Stuck(why) => piecestate::stick_fault(state, records, why),
        Gate::Open => take_end(k, state, records),
    }
}
