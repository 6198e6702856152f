//! What the calls promise beside their own clauses: that one input has one reply, and the examples that are proved.
#![tactic(auto)]

ghost use Rattle.std.specs.Prelude.{IsTrue, ◌≡◌, true, [], ◌∷◌};
ghost use Rattle.promises.specs.Examples.{EachIsAnswered, examples};

use plan::{Plan, Reply};

/// One plan and sequence have one reply, and so have steps taken as they come: of `run` nothing but its contract is known here, and it leaves no second.
pub fn runs_reply_once(plan: &Plan, sequence: &[u8]) -> [bool; 2]
    ensures { result ≡ true ∷ true ∷ [] }
{
    [
        Reply::from(run::run(plan, sequence)) == Reply::from(run::run(plan, sequence)),
        Reply::from(run::run_steps(plan, sequence)) == Reply::from(run::run_steps(plan, sequence)),
    ]
}

/// One plan, links and consumer have one stretch.
pub fn links_of_answers_once(plan: &Plan, links: &[u8], consumer: u64) -> bool
    ensures { IsTrue result }
{
    plan.links_of(links, consumer) == plan.links_of(links, consumer)
}

/// The words of a plan have one reply, and so have its links, the rows of n steps, rows that come without a plan, any other list of step sets, a length
/// and the room of an output.
pub fn checks_reply_once(plan: &Plan, links: &[u8], n: u64, sent: u64, rows: &[u64]) -> [bool; 7]
    ensures { result ≡ true ∷ true ∷ true ∷ true ∷ true ∷ true ∷ true ∷ [] }
{
    [
        Reply::from(plan.fault()) == Reply::from(plan.fault()),
        Reply::from(plan.links_fault(links)) == Reply::from(plan.links_fault(links)),
        Reply::from(plan::rows_fault(n, rows)) == Reply::from(plan::rows_fault(n, rows)),
        Reply::from(plan::order_fault(rows)) == Reply::from(plan::order_fault(rows)),
        Reply::from(plan::step_sets_fault(n, rows)) == Reply::from(plan::step_sets_fault(n, rows)),
        Reply::from(plan::length_fault(n, sent)) == Reply::from(plan::length_fault(n, sent)),
        Reply::from(plan::room_fault(n, sent)) == Reply::from(plan::room_fault(n, sent)),
    ]
}

/// Each example of the table has the reply that stands beside it.
pub fn examples_are_proved()
    ensures { EachIsAnswered examples }
{}
