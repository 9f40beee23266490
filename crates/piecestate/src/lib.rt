// 02's K6: what is kept between the calls of a reading by piece, as forty numbers of a lent store, and the test of which numbers are a state
// that a call leaves.
#![tactic(auto)]

ghost use Rattle.std.specs.Prelude.{◌≡◌, ◌∷◌, map, ◌≤◌, ◌<◌, length, Err};
ghost use Rattle.std.proofs.lemmas.List.Edits.{sets};
ghost use Rattle.clearing.specs.Lent.{zeros};
ghost use Rattle.piecestate.specs.State.{kept_at, low, open_entry, counted, sound_going, kept_refusal, kept_why, refused_state, sound_by};
ghost use Rattle.piecestate.specs.Answers.{Leaves, no_state, stuck, gate};

use lineentry::Entry;
use refusals::{Fault, Refusal};

// How many numbers a state has, and how many bytes it holds at most.
pub const STATE_NUMBERS: usize = 40;

// Where the numbers of those bytes start.
pub const HELD_FROM: usize = 10;

const MOST_HELD: u32 = 25;

// Where a reading stands, by the number that a state has for it.
#[derive(Clone, Copy, Debug, PartialEq, Eq)]
pub enum Standing {
    Going = 1,
    Over = 2,
    Refusing = 3,
    Ended = 4,
}

// The numbers of a state but for the bytes that it holds. They are lent, and may be any: `status` and `refusal` are kept as the numbers they are,
// of which `is_sound` says whether a call leaves them (`sound_by` of specs/State answers for every number).
#[derive(Clone, Copy, Debug, PartialEq, Eq)]
pub struct Kept {
    pub first: u32,
    pub count: u32,
    pub line: u32,
    pub placed: u32,
    pub start: u32,
    pub bytes: u32,
    pub status: u32,
    pub refusal: u32,
    pub place: u32,
    pub size: u32,
}

// What is looked at before a piece or the end: the call goes on, or is refused, which a state may keep. Three answers, two of them refusals, so no
// `Result`.
#[derive(Clone, Copy, Debug, PartialEq, Eq)]
pub enum Gate {
    Open,
    Shut(Fault),
    Stuck(Fault),
}

// What a call tells: how many instructions came from entries so far, and whether the table was whole. `linetable::Located` has these fields too; to share
// it would be no plainer, since this crate would need that one for two fields alone.
#[derive(Clone, Copy, Debug, PartialEq, Eq)]
pub struct Pieced {
    pub from_entries: u32,
    pub whole: bool,
}

// A state is any slice of at least forty numbers, as C lends it. An array of forty would ask more of a caller than `kept_at`, `hold`, `look` and `stick` do,
// and pieces `go_bare`, `go_on` and `take_piece`, which are public; what stands between them, in bypiece too, asks what they ask.
pub fn kept_at(state: &[u32]) -> Kept
    requires { 40 ≤ length state.now }
    ensures { result ≡ kept_at state.now }
{
    Kept {
        first: state[0],
        count: state[1],
        line: state[2],
        placed: state[3],
        start: state[4],
        bytes: state[5],
        status: state[6],
        refusal: state[7],
        place: state[8],
        size: state[9],
    }
}

// The bytes of held numbers.
pub fn fetch(out: &mut [u8], held: &[u32])
    requires { length held.now ≤ length out.old }
    ensures { out.new ≡ sets out.old 0 (map low held.now) }
{
    for i in 0..held.len() {
        out[i] = (held[i] % 256) as u8;
    }
}

// Bytes that a state holds from now on, behind their count.
pub fn hold(state: &mut [u32], s: &[u8])
    requires { (40 ≤ length state.old) × (length s.now ≤ 25) }
    ensures { state.new ≡ sets state.old 9 (length s.now ∷ s.now) }
{
    state[9] = s.len() as u32;
    for i in 0..s.len() {
        state[HELD_FROM + i] = s[i] as u32;
    }
}

// The bytes begin an entry that is neither complete nor lost.
fn open_entry(held: &[u8], line: u32) -> bool
    ensures { result ≡ open_entry held.now line }
{
    match lineentry::read_entry(held, line, 0) {
        Entry::Covers(span) => span.missing,
        Entry::Stop => false,
        Entry::OutOfRange => !lostentry::lost_entry(held, line),
    }
}

fn open_held(held: &[u32], line: u32) -> bool
    requires { length held.now ≤ 25 }
    ensures { result ≡ open_entry (map low held.now) line }
{
    let mut bytes = [0u8; 25];
    fetch(&mut bytes, held);
    open_entry(&bytes[..held.len()], line)
}

fn is_counted(k: Kept) -> bool
    ensures { result ≡ counted k }
{
    k.placed <= k.count && k.bytes <= refusals::MOST_BYTES
}

// The numbers are those of a reading that goes on.
fn sound_going(state: &[u32], k: Kept) -> bool
    requires { 40 ≤ length state.now }
    ensures { result ≡ sound_going state.now k }
{
    if !is_counted(k) {
        return false;
    }
    if MOST_HELD < k.size {
        return false;
    }
    if k.bytes < k.start {
        return false;
    }
    if k.bytes - k.start < k.size {
        return false;
    }
    if k.size == 0 {
        return true;
    }
    open_held(&state[HELD_FROM..HELD_FROM + k.size as usize], k.line)
}

// A state may be lent with any number there, which `sound_by` answers for: so here and in `kept_why` it is a number, and no `Refusal` yet.
fn kept_refusal(number: u32) -> bool
    ensures { result ≡ kept_refusal number }
{
    number == refusals::INPUT_TOO_LONG
        || number == refusals::NO_ROOM
        || number == refusals::NUMBER_RANGE
}

// The refusal that such a number is.
fn kept_why(number: u32) -> Refusal
    ensures { result ≡ kept_why number }
{
    match number {
        refusals::INPUT_TOO_LONG => Refusal::InputTooLong,
        refusals::NO_ROOM => Refusal::NoRoom,
        _ => Refusal::NumberRange,
    }
}

// The numbers are a state that a call leaves.
fn is_sound(state: &[u32], k: Kept) -> bool
    requires { 40 ≤ length state.now }
    ensures { result ≡ sound_by state.now k }
{
    if k.status == Standing::Going as u32 {
        return sound_going(state, k);
    }
    if k.status == Standing::Over as u32 {
        return is_counted(k);
    }
    if k.status == Standing::Refusing as u32 {
        return kept_refusal(k.refusal);
    }
    k.status == Standing::Ended as u32
}

pub fn look(state: &[u32], k: Kept, room: usize) -> Gate
    requires { 40 ≤ length state.now }
    ensures { result ≡ gate state.now k room }
{
    if !is_sound(state, k) {
        return Gate::Shut(Refusal::AlreadyEnded.at(0));
    }
    if k.status == Standing::Refusing as u32 {
        return Gate::Shut(kept_why(k.refusal).at(k.place));
    }
    if k.status == Standing::Ended as u32 {
        return Gate::Shut(Refusal::AlreadyEnded.at(0));
    }
    if room < k.count as usize {
        return Gate::Stuck(Refusal::NoRoom.at(room as u32));
    }
    Gate::Open
}

// A refusal leaves the records zero. It answers what it is given, of any type.
pub fn refuse<E>(records: &mut [u32], why: E) -> Result<Pieced, E>
    ensures { (result ≡ Err why) × (records.new ≡ zeros (length records.old)) }
{
    clearing::clear_words(records);
    Err(why)
}

// One that the state keeps, by any number and place.
// The two stores are two parameters, here and in pieces and bypiece. A struct of both is no plainer: passed by `&mut`, it would have each contract say
// besides that its two references are the same ones; by value, `lent.exit.0.now` and `lent.exit.1.0.now` for `state.new` and `records.new`.
pub fn stick<E>(
    state: &mut [u32],
    records: &mut [u32],
    number: u32,
    place: u32,
    why: E,
) -> Result<Pieced, E>
    requires { 40 ≤ length state.old }
    ensures { (result ≡ Err why) × (state.new ≡ refused_state state.old number place) × (records.new ≡ zeros (length records.old)) }
{
    state[6] = Standing::Refusing as u32;
    state[7] = number;
    state[8] = place;
    refuse(records, why)
}

// The same of a fault, by its own numbers.
pub fn stick_fault(state: &mut [u32], records: &mut [u32], why: Fault) -> Result<Pieced, Fault>
    requires { 40 ≤ length state.old }
    ensures { Leaves (stuck state.old records.old why) result state.new records.new }
{
    stick(state, records, why.refusal.number(), why.place, why)
}

// Fewer numbers than a state has.
pub fn no_state(state: &mut [u32], records: &mut [u32]) -> Result<Pieced, Fault>
    requires { length state.old < 40 }
    ensures { Leaves (no_state state.old records.old) result state.new records.new }
{
    let n = state.len();
    clearing::clear_words(state);
    refuse(records, Refusal::NoRoom.at(n as u32))
}
