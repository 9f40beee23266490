// 02's K4: two questions of an index of row starts, answered by its own words whatever they hold.
#![tactic(auto)]

ghost use Rattle.std.specs.Prelude.{◌≡◌, ◌+◌, ◌-◌, ◌*◌, ◌/◌, ◌%◌, ◌^◌, ◌<◌, ◌≤◌, length};
ghost use Rattle.startindex.specs.Index.{blocks_of};
ghost use Rattle.starts.specs.Questions.{ones_of, before, block_with, kth_bit, kth_of, kth, starts_before, start_at};

use refusals::{Fault, Refusal};
use startindex::{BLOCK_BITS, BLOCK_WORDS, WORD_BITS};

// So many low bits of a word.
fn low_bits(word: u64, n: usize) -> u64
    requires { n < 64 }
    ensures { result ≡ word % 2 ^ n }
{
    word & ((1u64 << n) - 1)
}

// The ones of some words of a block, one after another.
fn sum_ones(index: &[u64], from: usize, n: usize) -> u64
    requires { (from + n ≤ length index.now) × (n < 8) }
    ensures { (result ≡ ones_of index.now from n) × (result ≤ 448) }
{
    let mut sum = 0u64;
    for j in 0..n {
        sum += startindex::ones_of(index[from + j]);
    }
    sum
}

// How many starts lie before an instruction: the block's running total and the ones behind it, in 64 bits.
fn count_before(index: &[u64], n: usize) -> u64
    requires { (9 * (n / 512) + 9 ≤ length index.now) × (n < 0x100000000) }
    ensures { result ≡ before index.now n }
{
    let at = BLOCK_WORDS * (n / BLOCK_BITS);
    let words = n % BLOCK_BITS / WORD_BITS;
    let sum = sum_ones(index, at + 1, words);
    let last = startindex::ones_of(low_bits(index[at + 1 + words], n % WORD_BITS));
    index[at].wrapping_add(sum + last)
}

// The block where a bisection of the running totals ends.
fn block_with(index: &[u64], blocks: usize, k: u64) -> usize
    requires { (9 * blocks ≤ length index.now) × (0 < blocks) × (blocks < 0x100000000) }
    ensures { (result ≡ block_with index.now blocks k) × (result < blocks) }
{
    let mut low = 0;
    let mut high = blocks;
    while 1 < high - low {
        let middle = low + (high - low) / 2;
        if index[BLOCK_WORDS * middle] < k {
            low = middle;
        } else {
            high = middle;
        }
    }
    low
}

// Where the k-th one of a word stands.
fn kth_bit(word: u64, k: u64) -> usize
    requires { 0 < k }
    ensures { (result ≡ kth_bit 64 word k) × (result ≤ 64) }
{
    let mut rest = word;
    let mut left = k;
    for i in 0..WORD_BITS {
        left -= rest % 2;
        if left == 0 {
            return i;
        }
        rest /= 2;
    }
    WORD_BITS
}

// The k-th one of a block's eight words, which start at a place of the index; the first bit is that of instruction `first`.
fn kth_in_words(index: &[u64], from: usize, first: usize, k: u64) -> Option<usize>
    requires { (from + 8 ≤ length index.now) × (first < 0x10000000000) × (0 < k) }
    ensures { result ≡ kth_of index.now from 8 first k }
{
    let mut left = k;
    let mut i = first;
    for j in 0..8 {
        let word = index[from + j];
        let own = startindex::ones_of(word);
        if left <= own {
            return Some(i + kth_bit(word, left));
        }
        left -= own;
        i += WORD_BITS;
    }
    None
}

// How many starts lie before instruction n.
pub fn starts_before(index: &[u64], count: u32, n: u32) -> Result<u64, Fault>
    ensures { result ≡ starts_before index.now count n }
{
    if index.len() < startindex::words_needed(count) {
        return Err(Refusal::NoRoom.at(index.len() as u32));
    }
    if count < n {
        return Err(Refusal::NoSuchStart.at(0));
    }
    Ok(count_before(index, n as usize))
}

// Where the k-th start is, in the block where the bisection ends: only an instruction that there is.
// `index` and `count` go through this one function alone, so a struct, as startindex has of its records, would be no plainer; `starts_before` and `start_at` have them as C gives them.
fn kth_start(index: &[u64], count: usize, k: u64) -> Option<usize>
    requires { (9 * blocks_of count ≤ length index.now) × (count < 0x100000000) }
    ensures { result ≡ kth index.now count k }
{
    let b = block_with(index, count / BLOCK_BITS + 1, k);
    let total = index[BLOCK_WORDS * b];
    if k <= total {
        return None;
    }
    kth_in_words(index, BLOCK_WORDS * b + 1, BLOCK_BITS * b, k - total).filter(|i| *i < count)
}

// Where the k-th start is.
pub fn start_at(index: &[u64], count: u32, k: u32) -> Result<u64, Fault>
    ensures { result ≡ start_at index.now count k }
{
    if index.len() < startindex::words_needed(count) {
        return Err(Refusal::NoRoom.at(index.len() as u32));
    }
    let i = kth_start(index, count as usize, k as u64).ok_or(Refusal::NoSuchStart.at(0))?;
    Ok(i as u64)
}
