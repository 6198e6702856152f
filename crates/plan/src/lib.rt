//! Plan words, rows, links and sequences: where each stands, what is refused of it, and the links of one consumer.
//! Every public function takes every input.
#![tactic(auto)]

ghost use Rattle.std.specs.Prelude.{◌≡◌};
ghost use Rattle.plan.specs.Refusal.{checked, length_fault, room_fault};
ghost use Rattle.plan.specs.StepSets.{step_set_fault, step_sets_fault, rows_fault, order_fault};
ghost use Rattle.plan.specs.Sequences.{uses_each_once};

use sets::Set;

mod replies;
mod words;

pub use replies::{Done, Refusal, Reply, accept, refuse};
pub use words::{Need, Plan};

/// The most steps that a plan or an order has.
const MOST_STEPS: u64 = 62;

/// The most facts that a plan has.
const MOST_FACTS: u64 = 64;

/// Refuses a length that is not the one wanted.
#[tactic(auto, unfolding(crate::specs::Refusal::length_fault))]
pub fn length_fault(wanted: u64, sent: u64) -> Result<(), Refusal>
    ensures { checked result ≡ length_fault wanted sent }
{
    if sent == wanted {
        Ok(())
    } else {
        Err(Refusal::WrongLength)
    }
}

/// Refuses an output buffer that is shorter than what is to be written into it.
#[tactic(auto, unfolding(crate::specs::Refusal::room_fault))]
pub fn room_fault(needed: u64, room: u64) -> Result<(), Refusal>
    ensures { checked result ≡ room_fault needed room }
{
    if room < needed {
        Err(Refusal::ShortOutput { needed })
    } else {
        Ok(())
    }
}

/// Refuses the first number of a set of steps that is not one of 1 to n.
// One call of the library's `map_or`, as `set_fault` of words.rt.
#[tactic(auto, using(crate::proofs::Faults::sets_looked_at))]
fn step_set_fault(n: u64, step: u64, set: Set) -> Result<(), Refusal>
    ensures { checked result ≡ step_set_fault n step set }
{
    let outside = set.difference(Set::steps(n));
    outside.first().map_or(Ok(()), |other| {
        Err(Refusal::StepOutside {
            step,
            fact: 0,
            other,
        })
    })
}

/// The first refusal of rows, or of any other list of step sets.
pub fn step_sets_fault(n: u64, sets: &[u64]) -> Result<(), Refusal>
    ensures { checked result ≡ step_sets_fault n sets.now }
{
    for (i, set) in sets.iter().enumerate() {
        step_set_fault(n, i as u64 + 1, Set::from(*set))?;
    }
    Ok(())
}

/// The first refusal of the rows of n steps.
#[tactic(auto, using(crate::proofs::Refusals::in_turn), unfolding(crate::specs::StepSets::rows_fault))]
pub fn rows_fault(n: u64, rows: &[u64]) -> Result<(), Refusal>
    ensures { checked result ≡ rows_fault n rows.now }
{
    length_fault(n, rows.len() as u64)?;
    step_sets_fault(n, rows)
}

/// The first refusal of rows that come without a plan.
#[tactic(auto, using(crate::proofs::Refusals::in_turn), unfolding(crate::specs::StepSets::order_fault))]
pub fn order_fault(rows: &[u64]) -> Result<(), Refusal>
    ensures { checked result ≡ order_fault rows.now }
{
    let n = rows.len() as u64;
    if n > MOST_STEPS {
        return Err(Refusal::WrongLength);
    }
    step_sets_fault(n, rows)
}

/// Does each step of 1 to n stand at exactly one of n places?
pub fn uses_each_once(n: u64, sequence: &[u8]) -> bool
    ensures { result ≡ uses_each_once n sequence.now }
{
    if n > MOST_STEPS || sequence.len() as u64 != n {
        return false;
    }
    let mut seen = Set::default();
    for step in sequence {
        seen = seen.with(u64::from(*step));
    }
    // There are n places, so where each of the n steps is seen, each stands at one of them and nothing else does.
    Set::steps(n).within(seen)
}
