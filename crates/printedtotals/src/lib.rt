// K14's totals as text, over a cleared output: its size is counted first, then the lines are put one behind another.
// Each line is a counter's label, its count in decimal digits, and a newline.
#![tactic(auto)]

ghost use Rattle.std.specs.Prelude.{◌≡◌, ◌+◌, ◌≤◌, length};
ghost use Rattle.std.proofs.lemmas.List.Edits.{sets};
ghost use Rattle.totals.specs.Totals.{counters, held_in};
ghost use Rattle.printedtotals.specs.Lines.{label, line, lines, printed_of};

use refusals::{Fault, Refusal};

// The 29 lines of a store's totals; the answer is how many bytes they take.
pub fn print_totals(store: &[u64], out: &mut [u8]) -> Result<u32, Fault>
    ensures { (result, out.new) ≡ printed_of store.now (length out.old) }
{
    clearing::clear_bytes(out);
    let size = lines_size(store);
    if out.len() < size {
        return Err(Refusal::NoRoom.at(out.len() as u32));
    }
    put_lines(out, store);
    Ok(size as u32)
}

// How many bytes all lines take.
fn lines_size(store: &[u64]) -> usize
    ensures { (result ≡ length (lines (held_in store.now))) × (result ≤ 2000) }
{
    let mut size = 0;
    for i in 0..totals::COUNTERS {
        size += line_size(i, totals::counter(store, i));
    }
    size
}

// How many bytes a line takes.
fn line_size(i: usize, count: u64) -> usize
    requires { i + 1 ≤ counters }
    ensures { (result ≡ length (line i count)) × (result ≤ 50) }
{
    label_size(i) + decimals::digit_count(count) + 1
}

fn label_size(i: usize) -> usize
    requires { i + 1 ≤ counters }
    ensures { (result ≡ length (label i)) × (result ≤ 29) }
{
    match i {
        0 => b"inputs ".len(),
        1 => b"accepted ".len(),
        2 => b"refused ".len(),
        _ => b"refusal  ".len() + decimals::digit_count((i - 2) as u64),
    }
}

// All lines, from the output's start.
fn put_lines(out: &mut [u8], store: &[u64])
    requires { length (lines (held_in store.now)) ≤ length out.old }
    ensures { out.new ≡ sets out.old 0 (lines (held_in store.now)) }
{
    let mut at = 0;
    for i in 0..totals::COUNTERS {
        at = put_line(out, at, i, totals::counter(store, i));
    }
}

// A line over the bytes that stand from `at` on; the answer is the place behind it.
fn put_line(out: &mut [u8], at: usize, i: usize, count: u64) -> usize
    requires { at + length (line i count) ≤ length out.old }
    ensures { (result ≡ at + length (line i count)) × (out.new ≡ sets out.old at (line i count)) }
{
    let digits = put_label(out, at, i);
    let end = decimals::put_decimal(out, digits, count);
    put_text(out, end, b"\n")
}

// A line's label; the answer is the place behind it.
fn put_label(out: &mut [u8], at: usize, i: usize) -> usize
    requires { at + length (label i) ≤ length out.old }
    ensures { (result ≡ at + length (label i)) × (out.new ≡ sets out.old at (label i)) }
{
    match i {
        0 => put_text(out, at, b"inputs "),
        1 => put_text(out, at, b"accepted "),
        2 => put_text(out, at, b"refused "),
        _ => {
            let number = put_text(out, at, b"refusal ");
            let end = decimals::put_decimal(out, number, (i - 2) as u64);
            put_text(out, end, b" ")
        }
    }
}

// A text over the bytes that stand from `at` on; the answer is the place behind it.
fn put_text(out: &mut [u8], at: usize, text: &[u8]) -> usize
    requires { at + length text.now ≤ length out.old }
    ensures { (result ≡ at + length text.now) × (out.new ≡ sets out.old at text.now) }
{
    let end = at + text.len();
    out[at..end].copy_from_slice(text);
    end
}
