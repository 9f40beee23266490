// Numbers of 64 bits in decimal digits, put behind what is written: K14's totals are printed with it.
// How many digits there are is counted first; they are then stored from the last to the first.
#![tactic(auto)]

ghost use Rattle.std.specs.Prelude.{◌≡◌, ◌+◌, ◌≤◌, length};
ghost use Rattle.std.proofs.lemmas.List.Edits.{sets};
ghost use Rattle.decimals.specs.Decimal.{decimal};

// How many digits a number takes.
// The loop divides a number and counts no index.
pub fn digit_count(n: u64) -> usize
    ensures { (result ≡ length (decimal n)) × (1 ≤ result) × (result ≤ 20) }
{
    let mut count = 1;
    let mut above = n / 10;
    while 0 < above {
        count += 1;
        above /= 10;
    }
    count
}

// The digits of `n`, highest first, over the bytes that stand from `at` on; the answer is the place behind them.
pub fn put_decimal(out: &mut [u8], at: usize, n: u64) -> usize
    requires { at + length (decimal n) ≤ length out.old }
    ensures { (result ≡ at + length (decimal n)) × (out.new ≡ sets out.old at (decimal n)) }
{
    let end = at + digit_count(n);
    let mut above = n / 10;
    out[end - 1] = b'0' + (n % 10) as u8;
    for i in (at..end - 1).rev() {
        out[i] = b'0' + (above % 10) as u8;
        above /= 10;
    }
    end
}
