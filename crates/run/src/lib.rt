//! Running a sequence of a plan's steps.
#![tactic(auto)]

ghost use Rattle.std.specs.Prelude.{◌≡◌};
ghost use Rattle.plan.specs.Layout.{plan_of};
ghost use Rattle.plan.specs.Refusal.{fine, checked};
ghost use Rattle.run.specs.Call.{unmet, ran, run_from, begun, run_reply};
ghost use Rattle.sets.specs.Word.{has};
ghost use Rattle.model.specs.Run.{after};

use plan::{Plan, Refusal};
use sets::Set;

/// Refuses the first fact that a step needs and a state lacks.
// One call of the library's `map_or`, as `set_fault` of plan/src/words.rt.
#[tactic(auto, using(crate::proofs::Steps::looked_at))]
fn need_fault(plan: &Plan, step: u64, state: Set) -> Result<(), Refusal>
    ensures { checked result ≡ unmet (plan_of plan.now) step (has state) fine }
{
    let lacking = plan.needs_of(step).difference(state);
    lacking
        .first()
        .map_or(Ok(()), |fact| Err(Refusal::NeedUnmet { step, fact }))
}

/// The state after a step.
#[tactic(auto, using(crate::proofs::Steps::after_is))]
fn after_step(plan: &Plan, step: u64, state: Set) -> Set
    ensures { has result ≡ after (plan_of plan.now) step (has state) }
{
    let kept = state.difference(plan.deletes_of(step));
    kept.union(plan.adds_of(step))
}

/// The run of a sequence whose steps are taken as they come: each in its turn, then the goal.
pub fn run_steps(plan: &Plan, sequence: &[u8]) -> Result<Set, Refusal>
    ensures { ran result ≡ run_from (plan_of plan.now) sequence.now (begun (plan_of plan.now)) }
{
    let mut state = plan.adds_of(0);
    for step in sequence {
        let step = u64::from(*step);
        need_fault(plan, step, state)?;
        state = after_step(plan, step, state);
    }
    need_fault(plan, plan.steps() + 1, state)?;
    Ok(state)
}

/// Runs a sequence of the steps 1 to n from the initial facts, each step once: the facts that hold at the end.
// In line, since as a function of its own it copies a refusal once more (docs/LOOK-BACK.md).
#[inline]
#[tactic(auto, using(plan::proofs::Refusals::in_turn, crate::proofs::Steps::once), unfolding(crate::specs::Call::run_reply))]
pub fn run(plan: &Plan, sequence: &[u8]) -> Result<Set, Refusal>
    ensures { ran result ≡ run_reply plan.now sequence.now }
{
    plan.fault()?;
    let n = plan.steps();
    plan::length_fault(n, sequence.len() as u64)?;
    if !plan::uses_each_once(n, sequence) {
        return Err(Refusal::NotOnceEach);
    }
    run_steps(plan, sequence)
}

#[cfg(test)]
mod tests {
    use super::*;
    use plan::Reply;

    /// Three facts, 0 at the start, 1 and 2 wanted. Step 1 needs 0 and adds 1; step 2 deletes 0 and adds 2.
    const PLAN: [u64; 10] = [3, 2, 1, 6, 1, 2, 0, 0, 4, 1];

    #[test]
    fn tells_runs_and_refusals(rt: HostRuntime) {
        for (sequence, [code, step, fact, other]) in [
            ([1, 2], [0, 0, 0, 6]),
            ([2, 1], [9, 1, 0, 0]),
            ([1, 1], [15, 0, 0, 0]),
        ] {
            let reply = Reply::from(run(&Plan::from(PLAN.as_slice()), &sequence));
            assert_eq!(rt; reply, plan::refuse(code, step, fact, other));
        }
    }

    #[test]
    fn tells_checks(rt: HostRuntime) {
        assert_eq!(rt; Reply::from(plan::order_fault(&[4, 0])), plan::accept());
        assert_eq!(rt;
            Reply::from(plan::order_fault(&[4, 8])),
            plan::refuse(5, 2, 0, 3)
        );
    }
}
