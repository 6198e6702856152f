//! The words of a plan: what each of them says, what is refused of them, the needs that they count, and the links of one consumer.
//! The crate's root hands `Plan` and `Need` on.
ghost use Rattle.std.specs.Prelude.{◌≡◌, ◌≤◌, nat_lt, position, slice_index, slice_index_or};
ghost use Rattle.plan.specs.Refusal.{fine, first_of, checked};
ghost use Rattle.plan.specs.Layout.{facts_of, steps_of, step_word, needs_of, adds_of, deletes_of};
ghost use Rattle.plan.specs.Words.{well_shaped, set_fault, meet_fault, step_checks, steps_fault, plan_fault};
ghost use Rattle.plan.specs.Links.{need_for, need_list, needs_below, need_count, links_fault, has_stretch, stretch_of};

use crate::replies::Refusal;
use crate::{MOST_FACTS, MOST_STEPS, length_fault};
use sets::Set;
use std::marker::Model;

/// The place of F.
const FACTS: usize = 0;

/// The place of n.
const STEPS: usize = 1;

/// The place of the initial facts.
const INITIAL: usize = 2;

/// The place of the goal.
const GOAL: usize = 3;

/// Where the words of the steps begin.
const FIRST_STEP: usize = 4;

/// How many words a step has.
const STEP_WORDS: usize = 3;

/// The words of a plan as they are lent: any words, well formed or not. Clauses see the list of them.
#[derive(Debug, Drop)]
pub struct Plan<'p> {
    words: &'p [u64],
}

impl<'p> Model for Plan<'p> {
    ghost use Rattle.std.specs.Prelude.{ℕ, List};

    ghost Value = { List ℕ };

    ghost view = { λ plan. plan.words.now };
}

/// The plan of lent words.
impl<'p> From<&'p [u64]> for Plan<'p> {
    ghost from_gives = { λ words plan. plan ≡ words.now };

    fn from(words: &'p [u64]) -> Plan<'p> {
        Plan { words }
    }
}

/// A fact that a consumer needs.
#[derive(Clone, Copy, Debug, PartialEq, Eq, Hash)]
pub struct Need {
    pub consumer: u64,
    pub fact: u64,
}

/// The three sets of a step.
#[derive(Clone, Copy, Debug, Default, PartialEq, Eq, Hash)]
struct Step {
    needs: Set,
    adds: Set,
    deletes: Set,
}

/// Refuses the first fact of a set that is no fact of a plan.
// One call of the library's `map_or`, as in each check of a set; the checks differ in the set and in the case, and a function for the rest would be
// `map_or` again.
#[tactic(auto, using(crate::proofs::Faults::sets_looked_at))]
fn set_fault(facts: u64, step: u64, set: Set) -> Result<(), Refusal>
    ensures { checked result ≡ set_fault facts step set }
{
    let outside = set.difference(Set::below(facts));
    outside
        .first()
        .map_or(Ok(()), |fact| Err(Refusal::FactOutside { step, fact }))
}

/// Refuses the first fact that adds and deletes share.
// One call of the library's `map_or`, as `set_fault`.
#[tactic(auto, using(crate::proofs::Faults::sets_looked_at))]
fn meet_fault(step: u64, adds: Set, deletes: Set) -> Result<(), Refusal>
    ensures { checked result ≡ meet_fault step adds deletes }
{
    let shared = adds.shared(deletes);
    shared
        .first()
        .map_or(Ok(()), |fact| Err(Refusal::SetsMeet { step, fact }))
}

/// The first link with a producer above n, counted from 0.
fn first_above(n: u64, links: &[u8]) -> Option<usize>
    ensures { result ≡ position (λ producer. nat_lt n producer) links.now }
{
    links.iter().position(|producer| n < u64::from(*producer))
}

impl Plan<'_> {
    /// Word i, 0 past the end.
    // The 0 stays, in place of an `Option`: no plainer, since it would move to the callers, whose definitions have it.
    fn word_at(&self, i: usize) -> u64
        ensures { result ≡ slice_index self.now i }
    {
        self.words.get(i).copied().unwrap_or(0)
    }

    /// F.
    #[tactic(auto, unfolding(crate::specs::Layout::facts_of))]
    pub fn facts(&self) -> u64
        ensures { result ≡ facts_of self.now }
    {
        self.word_at(FACTS)
    }

    /// n, at most 62.
    #[tactic(auto, unfolding(crate::specs::Layout::steps_of))]
    pub fn steps(&self) -> u64
        ensures value { result ≡ steps_of self.now }
        ensures at_most { result ≤ 62 }
    {
        self.word_at(STEPS).min(MOST_STEPS)
    }

    /// The sets of a step; a number that is no step has none.
    #[tactic(auto, unfolding(crate::specs::Layout::step_word, crate::specs::Layout::place_of, sets::specs::Test::up_to))]
    fn step_at(&self, step: u64) -> Step
        ensures needs { result.needs ≡ step_word self.now step 0 }
        ensures adds { result.adds ≡ step_word self.now step 1 }
        ensures deletes { result.deletes ≡ step_word self.now step 2 }
    {
        // n before the tests, or `run_steps` is slower; two tests in place of one condition, or `need_at` is (docs/LOOK-BACK.md).
        let n = self.steps();
        if step < 1 {
            return Step::default();
        }
        if n < step {
            return Step::default();
        }
        // Word by word, by place: what may not change, `step_word` of specs/Layout, reads 0 where the words end within a step.
        let place = FIRST_STEP + STEP_WORDS * (step as usize - 1);
        Step {
            needs: Set::from(self.word_at(place)),
            adds: Set::from(self.word_at(place + 1)),
            deletes: Set::from(self.word_at(place + 2)),
        }
    }

    /// What a step needs; the end needs the goal.
    // No twin of `adds_of`: another step, another word and another field, so one function for both would take three arguments and be no plainer.
    #[tactic(auto, unfolding(crate::specs::Layout::needs_of))]
    pub fn needs_of(&self, step: u64) -> Set
        ensures { result ≡ needs_of self.now step }
    {
        if step == self.steps() + 1 {
            Set::from(self.word_at(GOAL))
        } else {
            self.step_at(step).needs
        }
    }

    /// What a step adds; the start adds the initial facts.
    // No twin of `needs_of`, as said there.
    #[tactic(auto, unfolding(crate::specs::Layout::adds_of))]
    pub fn adds_of(&self, step: u64) -> Set
        ensures { result ≡ adds_of self.now step }
    {
        if step == 0 {
            Set::from(self.word_at(INITIAL))
        } else {
            self.step_at(step).adds
        }
    }

    /// What a step deletes.
    #[tactic(auto, unfolding(crate::specs::Layout::deletes_of))]
    pub fn deletes_of(&self, step: u64) -> Set
        ensures { result ≡ deletes_of self.now step }
    {
        self.step_at(step).deletes
    }

    /// Are F, n and the length right?
    #[tactic(auto, unfolding(crate::specs::Layout::facts_of, crate::specs::Layout::words_for, crate::specs::Words::well_shaped))]
    fn is_well_shaped(&self) -> bool
        ensures { result ≡ well_shaped self.now }
    {
        let n = self.word_at(STEPS);
        self.facts() <= MOST_FACTS
            && n <= MOST_STEPS
            // Counted by place: the C interface, docs/RULES.md 'Words, rows and links'.
            && self.words.len() == FIRST_STEP + STEP_WORDS * n as usize
    }

    /// The first refusal of one step's words.
    #[tactic(auto, using(crate::proofs::Refusals::in_turn), unfolding(crate::specs::Words::step_checks, crate::specs::Refusal::first_of))]
    fn step_fault(&self, step: u64) -> Result<(), Refusal>
        ensures { checked result ≡ first_of (step_checks self.now step) fine }
    {
        let facts = self.facts();
        let own = self.step_at(step);
        set_fault(facts, step, own.needs)?;
        set_fault(facts, step, own.adds)?;
        set_fault(facts, step, own.deletes)?;
        meet_fault(step, own.adds, own.deletes)
    }

    /// The first refusal of the steps' words.
    fn steps_fault(&self) -> Result<(), Refusal>
        ensures { checked result ≡ steps_fault self.now 1 (steps_of self.now) }
    {
        for step in 1..=self.steps() {
            self.step_fault(step)?;
        }
        Ok(())
    }

    /// The first refusal of the words, in their order.
    pub fn fault(&self) -> Result<(), Refusal>
        ensures { checked result ≡ plan_fault self.now }
    {
        if !self.is_well_shaped() {
            return Err(Refusal::WrongLength);
        }
        let facts = self.facts();
        let end = self.steps() + 1;
        set_fault(facts, 0, Set::from(self.word_at(INITIAL)))?;
        set_fault(facts, end, Set::from(self.word_at(GOAL)))?;
        self.steps_fault()
    }

    /// How many needs the steps below a step have.
    fn needs_below(&self, step: u64) -> u64
        requires { step ≤ 64 }
        ensures { result ≡ needs_below self.now step }
    {
        let mut sum = 0;
        // From step 1, since the start needs nothing.
        for i in 1..step {
            sum += self.needs_of(i).count();
        }
        sum
    }

    /// The number of needs, and so of links.
    pub fn need_count(&self) -> u64
        ensures value { result ≡ need_count self.now }
        ensures at_most { result ≤ 4032 }
    {
        self.needs_below(self.steps() + 2)
    }

    /// Need k, in the order of the links; the need of consumer 0 for fact 0 where there is none.
    // The 0 stays: what may not change, the clause of this function.
    pub fn need_at(&self, k: u64) -> Need
        ensures { result ≡ slice_index_or (need_list self.now) k (need_for 0 0) }
    {
        let mut rest = k;
        for consumer in 1..=self.steps() + 1 {
            let needs = self.needs_of(consumer);
            let own = needs.count();
            if rest < own {
                return Need {
                    consumer,
                    fact: needs.nth(rest),
                };
            }
            rest -= own;
        }
        Need {
            consumer: 0,
            fact: 0,
        }
    }

    /// The first refusal of the links of the plan.
    #[tactic(auto, using(crate::proofs::Refusals::in_turn), unfolding(crate::specs::Links::links_fault))]
    pub fn links_fault(&self, links: &[u8]) -> Result<(), Refusal>
        ensures { checked result ≡ links_fault self.now links.now }
    {
        length_fault(self.need_count(), links.len() as u64)?;
        let Some(k) = first_above(self.steps(), links) else {
            return Ok(());
        };
        let need = self.need_at(k as u64);
        Err(Refusal::StepOutside {
            step: need.consumer,
            fact: need.fact,
            other: u64::from(links[k]),
        })
    }

    /// Is the plan well formed, is there a link for each need, and is the consumer one of 1 to n + 1?
    fn has_stretch(&self, links: &[u8], consumer: u64) -> bool
        ensures { result ≡ has_stretch self.now links.now consumer }
    {
        self.fault().is_ok()
            && links.len() as u64 == self.need_count()
            && Set::steps(self.steps() + 1).holds(consumer)
    }

    /// The links of one consumer, as a part of the lent bytes; an empty part for a malformed plan, a wrong link count or no consumer.
    // The empty part stays, in place of an `Option`: what may not change, the clause of this function.
    pub fn links_of<'a>(&self, links: &'a [u8], consumer: u64) -> &'a [u8]
        ensures { result.now ≡ stretch_of self.now links.now consumer }
    {
        if !self.has_stretch(links, consumer) {
            return &links[..0];
        }
        let start = self.needs_below(consumer) as usize;
        let own = self.needs_of(consumer).count() as usize;
        &links[start..start + own]
    }
}
