// 02's K6: a piece of a line table, behind the bytes of an entry that is not complete. It writes the records that its entries place and
// leaves in the state where the reading then stands.
#![tactic(auto)]

ghost use Rattle.std.specs.Prelude.{◌≡◌, false, [], ◌++◌, ◌+◌, ◌-◌, ◌*◌, ◌≤◌, length};
ghost use Rattle.std.proofs.lemmas.List.Edits.{sets};
ghost use Rattle.refusals.specs.Limits.{most_bytes};
ghost use Rattle.lineentry.specs.Entry.{entry_at};
ghost use Rattle.linetable.specs.Answer.{numbers};
ghost use Rattle.rows.specs.Row.{row};
ghost use Rattle.rows.specs.Summary.{summary};
ghost use Rattle.piecestate.specs.State.{going, held_at, advanced};
ghost use Rattle.piecestate.specs.Answers.{pieced, Leaves};
ghost use Rattle.pieces.specs.Facts.{Unlost, Settling, Walking, Fronted, Opened, Entered};
ghost use Rattle.pieces.specs.Piece.{shown_of, refused_as, after, walked, first_of, piece_by};

use lineentry::{Entry, Span};
use piecestate::{HELD_FROM, Kept, Pieced, Standing};
use refusals::{Fault, Refusal};
use rows::{How, RowEnd};

// The entry at a place of the table, by the ways of `quick::next_entry`, which becomes a part of its one caller, as this does.
fn entry_here(table: &[u8], line: u32, at: usize) -> Entry
    ensures { result ≡ entry_at table.now line at }
{
    if lineentry::quick::is_plain(table, at) {
        return lineentry::quick::plain_entry(table, line, at);
    }
    if lineentry::short::is_long(table, at) {
        let numbers = lineentry::short::short_numbers(table, at);
        if numbers.short {
            return lineentry::short::long_entry(table, line, at, numbers);
        }
    }
    lineentry::quick::in_numbers(lineentry::read_entry(table, line, at))
}

// The row of the bytes, with the records that its entries place.
fn place_row(table: &[u8], first: u32, count: usize, records: &mut [u32], from: usize) -> RowEnd
    requires { (length table.now ≤ most_bytes) × (4 * (from + count) ≤ length records.old) }
    ensures { (result ≡ summary table.now first count)
        × (records.new ≡ sets records.old (4 * from) (numbers (shown_of count (row table.now first 0 count)))) }
{
    let mut line = first;
    let mut at = 0;
    let mut left = count;
    let mut entries = 0;
    let mut i = from;
    while 0 < left {
        match entry_here(table, line, at) {
            Entry::OutOfRange => {
                return RowEnd {
                    how: How::Refused,
                    entries,
                    line,
                    place: at,
                    next: at,
                    left,
                };
            }
            Entry::Stop => {
                return RowEnd {
                    how: How::Ended,
                    entries,
                    line,
                    place: at,
                    next: at,
                    left,
                };
            }
            Entry::Covers(span) => {
                if span.missing {
                    return RowEnd {
                        how: How::Cut,
                        entries,
                        line,
                        place: at,
                        next: at,
                        left,
                    };
                }
                let n = span.instructions;
                let location = span.location;
                if left < n {
                    linetable::fill(records, 4 * i, left, location);
                    return RowEnd {
                        how: How::PastCount,
                        entries,
                        line,
                        place: at,
                        next: span.next,
                        left,
                    };
                }
                linetable::fill(records, 4 * i, n, location);
                i += n;
                left -= n;
                line = span.line;
                at = span.next;
                entries += 1;
            }
        }
    }
    RowEnd {
        how: How::AllPlaced,
        entries,
        line,
        place: at,
        next: at,
        left,
    }
}

// Where a reading stands after a piece: the line, the instructions placed, the place after the complete entries and the bytes so far. `status` is the
// number of a `Standing`: the contracts of the two functions below say what is stored of any number.
#[derive(Clone, Copy, Debug, PartialEq, Eq)]
pub struct Reached {
    pub line: u32,
    pub placed: u32,
    pub at: u32,
    pub bytes: u32,
    pub status: u32,
}

// A state that holds no bytes there, and the answer.
#[inline]
pub fn go_bare(state: &mut [u32], to: Reached) -> Pieced
    requires { 40 ≤ length state.old }
    ensures { (result ≡ pieced to.placed false)
        × (state.new ≡ advanced state.old to.line to.placed to.at to.bytes to.status []) }
{
    state[2] = to.line;
    state[3] = to.placed;
    state[4] = to.at;
    state[5] = to.bytes;
    state[6] = to.status;
    state[9] = 0;
    Pieced {
        from_entries: to.placed,
        whole: false,
    }
}

// The same with the bytes that are held.
#[inline]
pub fn go_on(state: &mut [u32], to: Reached, held: &[u8]) -> Pieced
    requires { (40 ≤ length state.old) × (length held.now ≤ 25) }
    ensures { (result ≡ pieced to.placed false)
        × (state.new ≡ advanced state.old to.line to.placed to.at to.bytes to.status held.now) }
{
    let told = go_bare(state, to);
    piecestate::hold(state, held);
    told
}

// The bytes of an entry that is refused as it stands: an 18 if it is lost, and else they are held.
fn settle_refused(
    held: &[u8],
    to: Reached,
    state: &mut [u32],
    records: &mut [u32],
) -> Result<Pieced, Fault>
    requires { (40 ≤ length state.old) × (to.status ≡ going) × Unlost held.now to.line }
    ensures { Leaves (refused_as state.old records.old to.line to.placed to.at to.bytes held.now) result state.new records.new }
{
    if lostentry::lost_entry(held, to.line) {
        return piecestate::stick_fault(state, records, Refusal::NumberRange.at(to.at));
    }
    Ok(go_on(state, to, held))
}

// What is left of the bytes after their row, by how it ends. `k`, how the reading stands, is beside the state that it was read from, here and in what
// follows, in bypiece too: in a struct with the two stores it would be no plainer, as at piecestate `stick`.
fn settle(
    table: &[u8],
    bytes: u32,
    k: Kept,
    x: RowEnd,
    state: &mut [u32],
    records: &mut [u32],
) -> Result<Pieced, Fault>
    requires { Settling table.now k.start k.count k.line (k.count - k.placed) x state.old }
    ensures { let left = k.count - k.placed in
        Leaves (after table.now k.start bytes k.count k.line left state.old records.old (row table.now k.line 0 left))
        result state.new records.new }
{
    let place = x.place;
    let to = Reached {
        line: x.line,
        placed: k.count - x.left as u32,
        at: k.start + place as u32,
        bytes,
        status: Standing::Going as u32,
    };
    let over = Standing::Over as u32;
    match x.how {
        How::Refused => settle_refused(&table[place..], to, state, records),
        How::Cut => Ok(go_on(state, to, &table[place..])),
        How::PastCount => Ok(go_bare(
            state,
            Reached {
                placed: k.count,
                status: over,
                ..to
            },
        )),
        How::Ended => {
            if place < table.len() {
                return Ok(go_bare(state, Reached { status: over, ..to }));
            }
            Ok(go_bare(state, to))
        }
        How::AllPlaced => Ok(go_bare(state, to)),
    }
}

// The bytes from a place of the joined table on, where `k` says at which line and with how many instructions placed.
fn walk_on(
    table: &[u8],
    bytes: u32,
    k: Kept,
    state: &mut [u32],
    records: &mut [u32],
) -> Result<Pieced, Fault>
    requires { Walking table.now k.start k.placed k.count state.old records.old }
    ensures { Leaves (walked table.now k.start bytes k.line k.placed k.count state.old records.old) result state.new records.new }
{
    let left = (k.count - k.placed) as usize;
    let x = place_row(table, k.line, left, records, k.placed as usize);
    settle(table, bytes, k, x, state, records)
}

// The first entry of some bytes, if it is complete and fits.
fn first_of(table: &[u8], line: u32, left: usize) -> Option<Span>
    ensures { result ≡ first_of left (entry_at table.now line 0) }
{
    match lineentry::read_entry(table, line, 0) {
        Entry::OutOfRange => None,
        Entry::Stop => None,
        Entry::Covers(span) => {
            if span.missing {
                return None;
            }
            if left < span.instructions {
                return None;
            }
            Some(span)
        }
    }
}

// A piece behind held bytes, of which `front` has the held ones and the piece's first: the entry that was not complete, then the rest.
fn take_front(
    front: &[u8],
    piece: &[u8],
    bytes: u32,
    k: Kept,
    state: &mut [u32],
    records: &mut [u32],
) -> Result<Pieced, Fault>
    requires { Fronted front.now piece.now bytes k state.old records.old }
    ensures { Leaves (walked (held_at state.old ++ piece.now) k.start bytes k.line k.placed k.count state.old records.old)
        result state.new records.new }
{
    match first_of(front, k.line, (k.count - k.placed) as usize) {
        None => walk_on(front, bytes, k, state, records),
        Some(span) => {
            let n = span.instructions;
            let next = span.next;
            linetable::fill(records, 4 * (k.placed as usize), n, span.location);
            let behind = Kept {
                line: span.line,
                placed: k.placed + n as u32,
                start: k.start + next as u32,
                ..k
            };
            walk_on(
                &piece[next - k.size as usize..],
                bytes,
                behind,
                state,
                records,
            )
        }
    }
}

// A piece of a reading that goes on.
fn take_going(
    piece: &[u8],
    bytes: u32,
    k: Kept,
    state: &mut [u32],
    records: &mut [u32],
) -> Result<Pieced, Fault>
    requires { Opened piece.now bytes k state.old records.old }
    ensures { Leaves (walked (held_at state.old ++ piece.now) k.start bytes k.line k.placed k.count state.old records.old)
        result state.new records.new }
{
    if k.size == 0 {
        return walk_on(piece, bytes, k, state, records);
    }
    let size = k.size as usize;
    let mut front = [0u8; 50];
    piecestate::fetch(&mut front, &state[HELD_FROM..HELD_FROM + size]);
    let m = piece.len().min(25);
    front[size..size + m].copy_from_slice(&piece[..m]);
    take_front(&front[..size + m], piece, bytes, k, state, records)
}

// A piece, once nothing is refused before it: "pieces above 16 MiB together 14"; where nothing more is read its bytes are counted.
pub fn take_piece(
    piece: &[u8],
    k: Kept,
    state: &mut [u32],
    records: &mut [u32],
) -> Result<Pieced, Fault>
    requires { Entered k state.old records.old }
    ensures { Leaves (piece_by piece.now state.old records.old k) result state.new records.new }
{
    if ((refusals::MOST_BYTES - k.bytes) as usize) < piece.len() {
        return piecestate::stick_fault(state, records, Refusal::InputTooLong.at(0));
    }
    let bytes = k.bytes + piece.len() as u32;
    if k.status == Standing::Over as u32 {
        state[5] = bytes;
        return Ok(Pieced {
            from_entries: k.placed,
            whole: false,
        });
    }
    take_going(piece, bytes, k, state, records)
}
