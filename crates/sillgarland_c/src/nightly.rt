// Nightly totals for C and Rust callers. See include/sillgarland.h for what a caller owes.
ghost use Rattle.std.specs.Prelude.{◌≡◌, length};
ghost use Rattle.totals.specs.Totals.{totals_of, added_of};
ghost use Rattle.printedtotals.specs.Lines.{printed_of};
ghost use Rattle.sillgarland.specs.Nightly.{totalled_as};
ghost use Rattle.sillgarland.specs.Varints.{written_as};

use sillgarland::nightly::SillTotalled;
use sillgarland::varints::SillWritten;

// `count_answers`.
#[unsafe(no_mangle)]
pub extern "C" fn sill_totals(before: &[u64], answers: &[u32], after: &mut [u64]) -> SillTotalled
    ensures { (result, after.new) ≡ totalled_as (totals_of before.now answers.now (length after.old)) }
{
    sillgarland::nightly::sill_totals(before, answers, after)
}

// `add_totals`.
#[unsafe(no_mangle)]
pub extern "C" fn sill_add_totals(a: &[u64], b: &[u64], sum: &mut [u64]) -> SillTotalled
    ensures { (result, sum.new) ≡ totalled_as (added_of a.now b.now (length sum.old)) }
{
    sillgarland::nightly::sill_add_totals(a, b, sum)
}

// `print_totals`.
#[unsafe(no_mangle)]
pub extern "C" fn sill_print_totals(totals: &[u64], out: &mut [u8]) -> SillWritten
    ensures { (result, out.new) ≡ written_as (printed_of totals.now (length out.old)) }
{
    sillgarland::nightly::sill_print_totals(totals, out)
}
