// K14's totals: answers are counted into 29 counters of 64 bits, and totals are added, from stores that are only read into one that is
// lent. Each answer is one more in the cell of its own number; the first three counters follow from those.
#![tactic(auto)]

ghost use Rattle.std.specs.Prelude.{◌≡◌, ◌≤◌, ◌<◌, length, get_or, is_ok, IfErr, MatchResult};
ghost use Rattle.refusals.specs.Faults.{fault};
ghost use Rattle.refusals.specs.declared.Refusal.TheVariants.{NoRoom, NumberRange};
ghost use Rattle.clearing.specs.Lent.{zeros};
ghost use Rattle.clearing.specs.Refused.{unless_refused};
ghost use Rattle.totals.specs.Totals.{counters, held_in, plus, stored, totals_of, added_of};
ghost use Rattle.totals.specs.Steps.{Fresh, Tallied};

use refusals::{Fault, Refusal};

// How many counters there are.
pub const COUNTERS: usize = 29;

// The totals of `before` with every answer counted.
// `add_totals` is alike but for what it adds: a closure for that would be longer than both.
pub fn count_answers(before: &[u64], answers: &[u32], after: &mut [u64]) -> Result<(), Fault>
    ensures { (result, after.new) ≡ totals_of before.now answers.now (length after.old) }
{
    after.fill(0);
    let counted = count_over(before, answers, after);
    if counted.is_err() {
        after.fill(0);
    }
    counted
}

// Two totals, counter by counter.
pub fn add_totals(a: &[u64], b: &[u64], sum: &mut [u64]) -> Result<(), Fault>
    ensures { (result, sum.new) ≡ added_of a.now b.now (length sum.old) }
{
    sum.fill(0);
    let added = add_over(a, b, sum);
    if added.is_err() {
        sum.fill(0);
    }
    added
}

// A counter of a lent store; one that it is too short for is 0.
pub fn counter(store: &[u64], i: usize) -> u64
    ensures { result ≡ get_or store.now i 0 }
{
    store.get(i).copied().unwrap_or(0)
}

// The same over zeros, which a refusal leaves as far as it came.
fn count_over(before: &[u64], answers: &[u32], after: &mut [u64]) -> Result<(), Fault>
    requires { after.old ≡ zeros (length after.old) }
    ensures { (result, unless_refused result after.new) ≡ totals_of before.now answers.now (length after.old) }
{
    hold_counters(after)?;
    tally(after, answers)?;
    add_to(after, before)
}

fn add_over(a: &[u64], b: &[u64], sum: &mut [u64]) -> Result<(), Fault>
    requires { sum.old ≡ zeros (length sum.old) }
    ensures { (result, unless_refused result sum.new) ≡ added_of a.now b.now (length sum.old) }
{
    hold_counters(sum)?;
    add_to(sum, b)?;
    add_to(sum, a)
}

// A store too short for the counters is refused.
fn hold_counters(store: &[u64]) -> Result<(), Fault>
    ensures { MatchResult result (λ _. counters ≤ length store.now) (λ why. (length store.now < counters) × (why ≡ fault NoRoom (length store.now))) }
{
    if store.len() < COUNTERS {
        return Err(Refusal::NoRoom.at(store.len() as u32));
    }
    Ok(())
}

// The answers' counts, over zeros, if each of the answers is 0 or a refusal's number.
fn tally(after: &mut [u64], answers: &[u32]) -> Result<(), Fault>
    requires { (counters ≤ length after.old) × (after.old ≡ zeros (length after.old)) }
    ensures counted { Tallied answers.now (is_ok result) after.new }
    ensures refused { IfErr result (λ why. why ≡ fault NumberRange 0) }
{
    for &answer in answers {
        if refusals::LAST_NUMBER < answer {
            return Err(Refusal::NumberRange.at(0));
        }
        after[2 + answer as usize] += 1;
    }
    let inputs = answers.len() as u64;
    let accepted = after[2];
    after[0] = inputs;
    after[1] = accepted;
    after[2] = inputs - accepted;
    Ok(())
}

// The counters of `a` added to those of a store; a sum that passes 64 bits is refused.
fn add_to(sum: &mut [u64], a: &[u64]) -> Result<(), Fault>
    requires { Fresh sum.old }
    ensures { (result, unless_refused result sum.new) ≡ stored (length sum.old) (plus (held_in a.now) (held_in sum.old)) }
{
    for i in 0..COUNTERS {
        let more = counter(a, i);
        if u64::MAX - more < sum[i] {
            return Err(Refusal::NumberRange.at(0));
        }
        sum[i] += more;
    }
    Ok(())
}
