// A piece of one byte, as most are where a table comes byte by byte. One reading of the held bytes and of it says both that the state is one that
// a call leaves and what the call comes to: the byte is held, or an entry is complete. Whatever else a call may find, `any_piece` finds.
ghost use Rattle.std.specs.Prelude.{◌≡◌, false, cond, [], ◌∷◌, ◌++◌, map, ◌+◌, ◌-◌, ◌/◌, ◌%◌, ◌≤◌, ◌<◌, length, Ok};
ghost use Rattle.std.proofs.lemmas.List.Edits.{sets};
ghost use Rattle.refusals.specs.Limits.{most_bytes};
ghost use Rattle.lineentry.specs.Line.{origin, moved};
ghost use Rattle.lineentry.specs.Varint.{more};
ghost use Rattle.lineentry.specs.Entry.{entry_at};
ghost use Rattle.piecestate.specs.State.{kept_at, low};
ghost use Rattle.piecestate.specs.Answers.{pieced, Leaves};
ghost use Rattle.pieces.specs.Calls.{piece};
ghost use Rattle.bypiece.specs.Byte.{Tells, Ended, line_span, CutIf, lasts, Eases, Steps, held_on, Fits, placed_on};

use lineentry::{Entry, Location, Span};
use pieces::Reached;
use piecestate::{HELD_FROM, Kept, Pieced, Standing};
use refusals::Fault;

// 0 as a step is kept.
const ORIGIN: u32 = 0x8000_0000;

// The byte is held, or the entry is complete with it; or that is not told here.
// Three answers, so no Option.
#[derive(Clone, Copy)]
pub enum Step {
    Held,
    Whole(Span),
    Other,
}

// Codes 10 to 12 step so many lines down.
fn line_of(head: u32, line: u32) -> Option<u32>
    requires { (208 ≤ head) × (head < 232) }
    ensures { result ≡ moved line (origin + (head / 8 % 16 - 10)) }
{
    lineentry::move_line(line, ORIGIN + (head / 8 % 16 - 10))
}

// Code 15, alone.
fn bare_span(head: u32, line: u32) -> Span
    requires { (248 ≤ head) × (head < 256) }
    ensures { Ended (entry_at (head ∷ []) line 0) 0 result }
{
    Span {
        instructions: (head % 8 + 1) as usize,
        line,
        location: lineentry::at_line(line),
        next: 1,
        missing: false,
    }
}

// Codes 0 to 9, with their one byte.
fn short_span(head: u32, byte: u8, line: u32) -> Span
    requires { (128 ≤ head) × (head < 208) }
    ensures { Ended (entry_at (head ∷ byte ∷ []) line 0) 1 result }
{
    let both = byte as u32;
    let column = (head / 8 % 16 * 8) | (both / 16);
    let l = lineentry::show_line(line);
    Span {
        instructions: (head % 8 + 1) as usize,
        line,
        location: Location {
            line: l,
            column: column + 1,
            end_line: l,
            end_column: column + both % 16 + 1,
        },
        next: 2,
        missing: false,
    }
}

// Codes 10 to 12, with their two, at the line that they step to.
fn line_span(head: u32, second: u32, byte: u8, to: u32) -> Span
    requires { second < 256 }
    ensures { result ≡ line_span head second byte to }
{
    let l = lineentry::show_line(to);
    Span {
        instructions: (head % 8 + 1) as usize,
        line: to,
        location: Location {
            line: l,
            column: second + 1,
            end_line: l,
            end_column: byte as u32 + 1,
        },
        next: 3,
        missing: false,
    }
}

// The first byte of an entry.
fn step_first(byte: u8, line: u32) -> Step
    ensures { Tells (entry_at (byte ∷ []) line 0) 0 result }
{
    let head = byte as u32;
    if head < 128 {
        return Step::Other;
    }
    if head < 208 {
        return Step::Held;
    }
    if 248 <= head {
        return Step::Whole(bare_span(head, line));
    }
    if 232 <= head {
        return Step::Held;
    }
    match line_of(head, line) {
        None => Step::Other,
        Some(_) => Step::Held,
    }
}

// The second byte of an entry of codes 0 to 12.
fn step_second(head: u32, byte: u8, line: u32) -> Step
    requires { head < 232 }
    ensures { Tells (entry_at (head ∷ byte ∷ []) line 0) 1 result }
{
    if head < 128 {
        return Step::Other;
    }
    if head < 208 {
        return Step::Whole(short_span(head, byte, line));
    }
    match line_of(head, line) {
        None => Step::Other,
        Some(_) => Step::Held,
    }
}

// The third byte of one of codes 10 to 12.
fn step_third(head: u32, second: u32, byte: u8, line: u32) -> Step
    requires { (head < 232) × (second < 256) }
    ensures { Tells (entry_at (head ∷ second ∷ byte ∷ []) line 0) 2 result }
{
    if head < 208 {
        return Step::Other;
    }
    match line_of(head, line) {
        None => Step::Other,
        Some(to) => Step::Whole(line_span(head, second, byte, to)),
    }
}

// The held bytes and the byte behind them.
fn fetch_with(out: &mut [u8], held: &[u32], byte: u8)
    requires { length held.now < length out.old }
    ensures { out.new ≡ sets out.old 0 (map low held.now ++ byte ∷ []) }
{
    piecestate::fetch(out, held);
    out[held.len()] = byte;
}

// What an entry that was read says.
fn step_read(entry: Entry, size: usize) -> Step
    ensures { Tells «entry» size result }
{
    match entry {
        Entry::OutOfRange => Step::Other,
        Entry::Stop => Step::Other,
        Entry::Covers(span) => {
            if span.missing {
                return Step::Held;
            }
            if span.next <= size {
                return Step::Other;
            }
            Step::Whole(span)
        }
    }
}

// A byte of any entry.
fn step_any(byte: u8, held: &[u32], line: u32) -> Step
    requires { length held.now < 25 }
    ensures { Tells (entry_at (map low held.now ++ byte ∷ []) line 0) (length held.now) result }
{
    let size = held.len();
    let mut front = [0u8; 25];
    fetch_with(&mut front, held, byte);
    step_read(lineentry::read_entry(&front[..size + 1], line, 0), size)
}

// 1 for a byte that ends a number.
fn last_of(byte: u8) -> u32
    ensures { (result ≡ cond (more byte) 0 1) × (result ≤ 1) }
{
    if byte % 128 < 64 { 1 } else { 0 }
}

// How many held bytes end a number.
fn lasts_held(held: &[u32]) -> u32
    requires { length held.now ≤ 5 }
    ensures { (result ≡ lasts (map low held.now)) × (result ≤ length held.now) }
{
    let mut n = 0;
    for number in held {
        n += last_of((*number % 256) as u8);
    }
    n
}

// Code 14 with few bytes, of which fewer than four end a number, at a line that no step of so few bytes takes out of range: bytes are missing.
fn is_cut(byte: u8, held: &[u32], line: u32) -> bool
    requires { 0 < length held.now }
    ensures { CutIf (entry_at (map low held.now ++ byte ∷ []) line 0) result }
{
    let head = held[0] % 256;
    if head < 240 {
        return false;
    }
    if 248 <= head {
        return false;
    }
    if 5 < held.len() {
        return false;
    }
    if line < 0x2000_0000 {
        return false;
    }
    if 0xA000_0000 <= line {
        return false;
    }
    lasts_held(&held[1..]) + last_of(byte) < 4
}

// By the first byte of the entry, and by which of its bytes comes.
fn step_of(byte: u8, held: &[u32], line: u32) -> Step
    requires { length held.now < 25 }
    ensures { Tells (entry_at (map low held.now ++ byte ∷ []) line 0) (length held.now) result }
{
    let size = held.len();
    if size == 0 {
        return step_first(byte, line);
    }
    let head = held[0] % 256;
    if 232 <= head {
        if is_cut(byte, held, line) {
            return Step::Held;
        }
        return step_any(byte, held, line);
    }
    if size == 1 {
        return step_second(head, byte, line);
    }
    if size == 2 {
        return step_third(head, held[1] % 256, byte, line);
    }
    Step::Other
}

// The numbers are those of a reading that goes on with instructions to place, there is room for their records, and a byte more is not too many.
// Early returns, as in `is_cut`: a chain of `&&` loses at its joins which test failed, and the reading of one byte is measured.
fn is_easy(k: Kept, room: usize) -> bool
    ensures { Eases k room result }
{
    if k.status != Standing::Going as u32 {
        return false;
    }
    if k.count <= k.placed {
        return false;
    }
    if room < k.count as usize {
        return false;
    }
    if refusals::MOST_BYTES <= k.bytes {
        return false;
    }
    if k.bytes < k.start {
        return false;
    }
    if k.bytes - k.start < k.size {
        return false;
    }
    k.size < 25
}

// What a piece comes to, if it is one byte and that is told here.
fn one_step(bytes: &[u8], k: Kept, state: &[u32], room: usize) -> Step
    requires { 40 ≤ length state.now }
    ensures { Steps bytes.now k state.now room result }
{
    if bytes.len() != 1 {
        return Step::Other;
    }
    if !is_easy(k, room) {
        return Step::Other;
    }
    let held = &state[HELD_FROM..HELD_FROM + k.size as usize];
    match step_of(bytes[0], held, k.line) {
        Step::Other => Step::Other,
        Step::Held => Step::Held,
        Step::Whole(span) => {
            if ((k.count - k.placed) as usize) < span.instructions {
                return Step::Other;
            }
            Step::Whole(span)
        }
    }
}

// Holds a byte more.
fn hold_more(bytes: &[u8], k: Kept, state: &mut [u32]) -> Pieced
    requires { (40 ≤ length state.old) × (length bytes.now ≡ 1) × (k.size < 25) × (k.bytes < most_bytes) }
    ensures { (result ≡ pieced k.placed false)
        × (state.new ≡ held_on bytes.now k state.old) }
{
    let to = Reached {
        line: k.line,
        placed: k.placed,
        at: k.start,
        bytes: k.bytes + 1,
        status: Standing::Going as u32,
    };
    if k.size == 0 {
        return pieces::go_on(state, to, bytes);
    }
    let size = k.size as usize;
    let mut front = [0u8; 25];
    fetch_with(&mut front, &state[HELD_FROM..HELD_FROM + size], bytes[0]);
    pieces::go_on(state, to, &front[..size + 1])
}

// Places an entry that is complete, and holds nothing.
fn place(span: Span, k: Kept, state: &mut [u32], records: &mut [u32]) -> Pieced
    requires { Fits span k state.old records.old }
    ensures { Leaves (placed_on span k state.old records.old) (Ok result) state.new records.new }
{
    let n = span.instructions;
    linetable::fill(records, 4 * (k.placed as usize), n, span.location);
    let to = Reached {
        line: span.line,
        placed: k.placed + n as u32,
        at: k.start + span.next as u32,
        bytes: k.bytes + 1,
        status: Standing::Going as u32,
    };
    pieces::go_bare(state, to)
}

// Any piece: one byte by its step, and whatever else by what is looked at first.
pub fn take(bytes: &[u8], k: Kept, state: &mut [u32], records: &mut [u32]) -> Result<Pieced, Fault>
    requires { (40 ≤ length state.old) × (k ≡ kept_at state.old) }
    ensures { Leaves (piece bytes.now state.old records.old) result state.new records.new }
{
    match one_step(bytes, k, state, records.len() / 4) {
        Step::Other => crate::any_piece(bytes, k, state, records),
        Step::Held => Ok(hold_more(bytes, k, state)),
        Step::Whole(span) => Ok(place(span, k, state, records)),
    }
}
