// Nightly totals for C and Rust callers. See include/sillgarland.h for what a caller owes.
ghost use Rattle.std.specs.Prelude.{◌≡◌, length};
ghost use Rattle.totals.specs.Totals.{totals_of, added_of};
ghost use Rattle.printedtotals.specs.Lines.{printed_of};
ghost use Rattle.sillgarland.specs.Nightly.{totalled_struct, totalled_as};
ghost use Rattle.sillgarland.specs.Varints.{written_as};

use crate::varints::SillWritten;
use refusals::Fault;

// A count's answer: its refusal and place, both 0 where all is counted.
#[repr(C)]
#[derive(Clone, Copy)]
pub struct SillTotalled {
    pub refusal: u32,
    pub place: u32,
}

impl From<Result<(), Fault>> for SillTotalled {
    ghost from_gives = { λ answer numbers. numbers ≡ totalled_struct answer };

    fn from(answer: Result<(), Fault>) -> SillTotalled {
        match answer {
            Ok(_) => SillTotalled {
                refusal: refusals::ACCEPTED,
                place: 0,
            },
            Err(fault) => SillTotalled {
                refusal: fault.refusal.number(),
                place: fault.place,
            },
        }
    }
}

// `count_answers`.
// This export, `sill_add_totals` and `sill_print_totals` are names of C, each of one line.
pub fn sill_totals(before: &[u64], answers: &[u32], after: &mut [u64]) -> SillTotalled
    ensures { (result, after.new) ≡ totalled_as (totals_of before.now answers.now (length after.old)) }
{
    SillTotalled::from(totals::count_answers(before, answers, after))
}

// `add_totals`.
pub fn sill_add_totals(a: &[u64], b: &[u64], sum: &mut [u64]) -> SillTotalled
    ensures { (result, sum.new) ≡ totalled_as (added_of a.now b.now (length sum.old)) }
{
    SillTotalled::from(totals::add_totals(a, b, sum))
}

// `print_totals`.
pub fn sill_print_totals(totals: &[u64], out: &mut [u8]) -> SillWritten
    ensures { (result, out.new) ≡ written_as (printed_of totals.now (length out.old)) }
{
    SillWritten::from(printedtotals::print_totals(totals, out))
}
