// Whether bytes are UTF-8 with surrogate code points allowed: what the bytes of every string have to be.
// ASCII is settled by whole blocks; only other bytes are gone through: by the table of first bytes where it is lent, as the reader
// does, and else sequence by sequence, by comparisons of the first byte.
#![tactic(auto)]

ghost use Rattle.std.specs.Prelude.{◌≡◌, ℕ, ◌*◌, ◌≤◌, ◌<◌, length, get_or};
ghost use Rattle.wtf8.specs.Ascii.{Greatest, Tells};
ghost use Rattle.wtf8.specs.Forms.{well_formed, after_lead, point, trail};
ghost use Rattle.wtf8.specs.Leads.{lead_table, row_table, turned};
ghost use Rattle.wtf8.specs.Sequence.{Taken, Reached, low_after, high_after, within};

pub mod first_bytes;

// Whether the bytes are the encodings, one after another, of code points up to 10FFFF.
pub fn is_wtf8(bytes: &[u8]) -> bool
    ensures { result ≡ well_formed bytes.now }
{
    if is_ascii(bytes) {
        return true;
    }
    if bytes.len() <= 32 {
        return sequences(bytes, false);
    }
    sequences(bytes, true)
}

// The same by the table of first bytes. It is lent, since a table that a function makes is made again in each call.
pub fn is_wtf8_by_table(bytes: &[u8], leads: &[u8; 256]) -> bool
    requires { leads.now ≡ lead_table }
    ensures { result ≡ well_formed bytes.now }
{
    if is_ascii(bytes) {
        return true;
    }
    let rows = ROWS;
    comes_to_rest(bytes, leads, &rows)
}

// The row of each group: at the place of each stage, in bits, the place of the stage that follows.
const ROWS: [u64; 11] = [
    0xAAAAAAAAAA80,
    0xA8CAAA30602A,
    0xAAA32A30602A,
    0xAAA30630602A,
    0xAAAAAAAAAAAA,
    0xAAAAAAAAAA86,
    0xAAAAAAAAAA98,
    0xAAAAAAAAAA8C,
    0xAAAAAAAAAA9E,
    0xAAAAAAAAAA92,
    0xAAAAAAAAAAA4,
];

// Whether a new code point may begin after the last byte. Two bytes a turn: that is faster, and keeps rows and loop out of the reader's
// frame.
fn comes_to_rest(bytes: &[u8], leads: &[u8; 256], rows: &[u64; 11]) -> bool
    requires { (leads.now ≡ lead_table) × (rows.now ≡ row_table) }
    ensures { result ≡ well_formed bytes.now }
{
    let mut at = 0;
    let mut state = 0u64;
    while 2 <= bytes.len() - at {
        let half = turn(leads, rows, state, bytes[at]);
        state = turn(leads, rows, half, bytes[at + 1]);
        at += 2;
    }
    if at < bytes.len() {
        let last = turn(leads, rows, state, bytes[at]);
        return last % 64 == 0;
    }
    state % 64 == 0
}

// The state after one more byte.
fn turn(leads: &[u8; 256], rows: &[u64; 11], state: u64, byte: u8) -> u64
    requires { (leads.now ≡ lead_table) × (rows.now ≡ row_table) }
    ensures { result ≡ turned state byte }
{
    let group = group_of(leads, byte);
    rows[group] >> (state % 64)
}

// The group of a byte.
fn group_of(leads: &[u8; 256], byte: u8) -> usize
    requires { leads.now ≡ lead_table }
    ensures { (result ≡ get_or lead_table byte 0) × (result < 11) }
{
    index(leads[byte as usize])
}

fn index(byte: u8) -> usize
    ensures { result ≡ byte }
{
    byte as usize
}

// Whether all bytes are below 128. Up to 32 of them are looked at as two blocks of one size, which may overlap.
fn is_ascii(bytes: &[u8]) -> bool
    ensures { Tells bytes.now result }
{
    let size = bytes.len();
    if size < 8 {
        if 4 <= size {
            return ends_are_ascii(bytes, 4);
        }
        return greatest(bytes) < 0x80;
    }
    if size <= 16 {
        return ends_are_ascii(bytes, 8);
    }
    if size <= 32 {
        return ends_are_ascii(bytes, 16);
    }
    greatest(bytes) < 0x80
}

// The same by the first and the last block, which together are all.
fn ends_are_ascii(bytes: &[u8], block: usize) -> bool
    requires { (block ≤ length bytes.now) × (length bytes.now ≤ 2 * block) }
    ensures { Tells bytes.now result }
{
    if 0x80 <= greatest(&bytes[..block]) {
        return false;
    }
    greatest(&bytes[bytes.len() - block..]) < 0x80
}

// The greatest of the bytes, or 0. No early exit, so that many bytes are compared at once.
fn greatest(bytes: &[u8]) -> u8
    ensures { Greatest bytes.now result }
{
    let mut most = 0u8;
    for &byte in bytes {
        most = most.max(byte);
    }
    most
}

// Whether the bytes are whole sequences, one after another. `by_blocks`, for speed alone: whether ASCII is passed by blocks.
fn sequences(bytes: &[u8], by_blocks: bool) -> bool
    ensures { result ≡ well_formed bytes.now }
{
    let mut at = 0;
    while at < bytes.len() {
        let size = sequence(bytes, at, by_blocks);
        if size == 0 {
            return false;
        }
        at += size;
    }
    true
}

// How many bytes may be taken at once: a sequence, or several of ASCII; 0 where no sequence stands.
fn sequence(bytes: &[u8], at: usize, by_blocks: bool) -> usize
    requires { at < length bytes.now }
    ensures { Taken bytes.now at result }
{
    let lead = bytes[at];
    if lead < 0x80 {
        return plain(bytes, at, by_blocks);
    }
    if lead < 0xC2 {
        return 0;
    }
    if lead < 0xE0 {
        return two(bytes, at);
    }
    if lead < 0xF0 {
        return three(bytes, at, low_after(lead));
    }
    if lead < 0xF5 {
        return four(bytes, at, low_after(lead), high_after(lead));
    }
    0
}

// How many bytes of ASCII may be taken at once: one, or `by_blocks` those of eight where `at` is a multiple of eight.
fn plain(bytes: &[u8], at: usize, by_blocks: bool) -> usize
    requires { (at < length bytes.now) × (get_or bytes.now at 0 < 0x80) }
    ensures { Taken bytes.now at result }
{
    if !by_blocks {
        return 1;
    }
    if at % 8 != 0 {
        return 1;
    }
    let size = blocks(bytes, at);
    if size == 0 {
        return 1;
    }
    size
}

// How many bytes of ASCII stand at `at` in blocks of eight.
fn blocks(bytes: &[u8], at: usize) -> usize
    requires { at ≤ length bytes.now }
    ensures { Reached bytes.now at result point }
{
    let mut end = at;
    while 8 <= bytes.len() - end {
        if 0x80 <= greatest(&bytes[end..end + 8]) {
            return end - at;
        }
        end += 8;
    }
    end - at
}

// A sequence of two bytes.
fn two(bytes: &[u8], at: usize) -> usize
    requires { (at < length bytes.now) × (after_lead (get_or bytes.now at 0) ≡ trail 0x80 0xBF 0) }
    ensures { Taken bytes.now at result }
{
    if bytes.len() - at < 2 {
        return 0;
    }
    if !stands(bytes[at + 1], 0x80, 0xBF) {
        return 0;
    }
    2
}

// A sequence of three bytes, the second of them not below `low`.
fn three(bytes: &[u8], at: usize, low: u8) -> usize
    requires { (at < length bytes.now) × (after_lead (get_or bytes.now at 0) ≡ trail low 0xBF 1) }
    ensures { Taken bytes.now at result }
{
    if bytes.len() - at < 3 {
        return 0;
    }
    let second = bytes[at + 1];
    let third = bytes[at + 2];
    if !stands(second, low, 0xBF) {
        return 0;
    }
    if !stands(third, 0x80, 0xBF) {
        return 0;
    }
    3
}

// A sequence of four bytes, the second of them from `low` to `high`.
fn four(bytes: &[u8], at: usize, low: u8, high: u8) -> usize
    requires { (at < length bytes.now) × (after_lead (get_or bytes.now at 0) ≡ trail low high 2) }
    ensures { Taken bytes.now at result }
{
    if bytes.len() - at < 4 {
        return 0;
    }
    let second = bytes[at + 1];
    let third = bytes[at + 2];
    let fourth = bytes[at + 3];
    if !stands(second, low, high) {
        return 0;
    }
    if !stands(third, 0x80, 0xBF) {
        return 0;
    }
    if !stands(fourth, 0x80, 0xBF) {
        return 0;
    }
    4
}

// Whether the byte is from `low` to `high`.
fn stands(byte: u8, low: u8, high: u8) -> bool
    ensures { result ≡ within low high byte }
{
    if byte < low {
        return false;
    }
    byte <= high
}

// The least byte that may follow a lead of three or four bytes.
fn low_after(lead: u8) -> u8
    ensures { result ≡ low_after lead }
{
    if lead == 0xE0 {
        return 0xA0;
    }
    if lead == 0xF0 {
        return 0x90;
    }
    0x80
}

// The greatest byte that may follow a lead of four bytes.
fn high_after(lead: u8) -> u8
    ensures { result ≡ high_after lead }
{
    if lead == 0xF4 {
        return 0x8F;
    }
    0xBF
}
