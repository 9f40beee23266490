// 02's K4: the index of row starts, built from records: one bit an instruction, and a running total every 512 bits.
#![tactic(auto)]

ghost use Rattle.std.specs.Prelude.{◌≡◌, ◌+◌, ◌-◌, ◌*◌, ◌/◌, ◌≤◌, ◌<◌, min, length};
ghost use Rattle.std.proofs.lemmas.List.Edits.{sets};
ghost use Rattle.std.specs.Int.Count.{ones};
ghost use Rattle.startindex.specs.Starts.{is_start, bit, starts_in};
ghost use Rattle.startindex.specs.Index.{word_of, block, blocks, blocks_of, need, indexed};

use refusals::{Fault, Refusal};

// How many instructions a word and a block have a bit for, and how many words a block is.
pub const WORD_BITS: usize = 64;

pub const BLOCK_BITS: usize = 512;

pub const BLOCK_WORDS: usize = 9;

// How many numbers a record is.
const RECORD_WIDTH: usize = 4;

// The first `count` records, which are all there.
#[derive(Clone, Copy)]
struct Records<'a> {
    numbers: &'a [u32],
    count: usize,
    ghost all: { (4 * count ≤ length numbers.now) × (count < 0x100000000) },
}

// Whether an instruction behind the first starts a row: every one does whose line is not that of the one before.
// A 0 or 1 by `if`: as `u64::from` of the comparison the clause did not prove.
fn later_bit(records: &[u32], i: usize) -> u64
    requires { (0 < i) × (4 * i < length records.now) }
    ensures { (result ≡ bit (is_start records.now i)) × (result ≤ 1) }
{
    if records[RECORD_WIDTH * i] == records[RECORD_WIDTH * (i - 1)] {
        0
    } else {
        1
    }
}

// Whether an instruction starts a row: the first does.
fn start_bit(records: &[u32], i: usize) -> u64
    requires { 4 * i < length records.now }
    ensures { (result ≡ bit (is_start records.now i)) × (result ≤ 1) }
{
    if i == 0 {
        return 1;
    }
    later_bit(records, i)
}

// The bits of so many instructions from one on, taken from the last to the first, so that the first is lowest.
fn word_of(records: &[u32], from: usize, n: usize) -> u64
    requires { (4 * (from + n) ≤ length records.now) × (n ≤ 64) }
    ensures { result ≡ word_of records.now from n }
{
    let mut word = 0u64;
    for i in (from..from + n).rev() {
        word = word * 2 + start_bit(records, i);
    }
    word
}

// The bits of four instructions behind the first.
fn four_bits(records: &[u32], i: usize) -> u64
    requires { (0 < i) × (4 * (i + 4) ≤ length records.now) }
    ensures { (result ≡ word_of records.now i 4) × (result < 16) }
{
    let a = later_bit(records, i);
    let b = later_bit(records, i + 1);
    let c = later_bit(records, i + 2);
    let d = later_bit(records, i + 3);
    a + 2 * b + 4 * c + 8 * d
}

// The bits of eight, made without a branch.
fn eight_bits(records: &[u32], i: usize) -> u64
    requires { (0 < i) × (4 * (i + 8) ≤ length records.now) }
    ensures { (result ≡ word_of records.now i 8) × (result < 256) }
{
    let low = four_bits(records, i);
    let high = four_bits(records, i + 4);
    low + 16 * high
}

// The bits of 64, eight at a time: most words are such.
fn full_word(records: &[u32], from: usize) -> u64
    requires { (0 < from) × (4 * (from + 64) ≤ length records.now) }
    ensures { result ≡ word_of records.now from 64 }
{
    let mut word = 0u64;
    for j in (0..8).rev() {
        word = word * 256 + eight_bits(records, from + 8 * j);
    }
    word
}

// The word whose first bit is this instruction's. Behind the last instruction no bit is set.
fn word_at(records: Records<'_>, i: usize) -> u64
    ensures { result ≡ word_of records.entry.numbers.now i (min 64 (records.entry.count - i)) }
{
    let count = records.count;
    if count <= i {
        return 0;
    }
    if count - i < WORD_BITS {
        return word_of(records.numbers, i, count - i);
    }
    if i == 0 {
        return word_of(records.numbers, i, WORD_BITS);
    }
    full_word(records.numbers, i)
}

// The ones of a word.
pub fn ones_of(word: u64) -> u64
    ensures { (result ≡ ones word) × (result ≤ 64) }
{
    u64::count_ones(word) as u64
}

// Stores one block: the running total, then the words of its instructions. The answer is the total behind them.
fn put_block(index: &mut [u64], b: usize, total: u64, records: Records<'_>) -> u64
    requires { (9 * b + 9 ≤ length index.old) × (512 * b ≤ records.count) × (total ≡ starts_in records.numbers.now 0 (512 * b)) }
    ensures { (result ≡ starts_in records.entry.numbers.now 0 (min (512 * b + 512) records.entry.count))
        × (index.new ≡ sets index.old (9 * b) (block records.entry.numbers.now records.entry.count b)) }
{
    let at = BLOCK_WORDS * b;
    index[at] = total;
    let mut sum = total;
    let mut i = BLOCK_BITS * b;
    for j in 1..BLOCK_WORDS {
        let word = word_at(records, i);
        index[at + j] = word;
        sum += ones_of(word);
        i += WORD_BITS;
    }
    sum
}

// Stores every block, and answers how many starts there are.
fn put_blocks(index: &mut [u64], records: Records<'_>) -> u64
    requires { need records.count ≤ length index.old }
    ensures { (result ≡ starts_in records.entry.numbers.now 0 records.entry.count)
        × (index.new ≡ sets index.old 0 (blocks records.entry.numbers.now records.entry.count 0 (blocks_of records.entry.count))) }
{
    let n = records.count / BLOCK_BITS + 1;
    let mut total = 0u64;
    for b in 0..n {
        total = put_block(index, b, total, records);
    }
    total
}

// How many words an index of so many instructions has.
pub fn words_needed(count: u32) -> usize
    ensures { result ≡ need count }
{
    BLOCK_WORDS * (count as usize / BLOCK_BITS + 1)
}

// Builds the index of so many records, and answers how many starts there are. C gives the records and their count apart.
pub fn index_starts(records: &[u32], count: u32, index: &mut [u64]) -> Result<u32, Fault>
    ensures { (result ≡ (indexed records.now count (length index.old)).0)
        × (index.new ≡ (indexed records.now count (length index.old)).1) }
{
    index.fill(0);
    let kept = records.len() / RECORD_WIDTH;
    if kept < count as usize {
        return Err(Refusal::NoRoom.at(kept as u32));
    }
    if index.len() < words_needed(count) {
        return Err(Refusal::NoRoom.at(index.len() as u32));
    }
    let held = Records {
        numbers: records,
        count: count as usize,
    };
    let starts = put_blocks(index, held);
    Ok(starts as u32)
}
