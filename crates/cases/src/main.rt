//! The cases: each call on examples and on the edges of its ranges, the five numbers of each reply on a line. crates/cases/stdout has what must come.
#![tactic(auto)]

use plan::{Done, Plan, Refusal, Reply};
use std::io;

/// Three facts, 0 at the start, 1 and 2 wanted. Step 1 needs 0 and adds 1; step 2 deletes 0 and adds 2.
const DELETING: [u64; 10] = [3, 2, 1, 6, 1, 2, 0, 0, 4, 1];

/// Four facts, 2 and 3 wanted. Step 1 adds 0, step 2 needs 0 and adds 1, steps 3 and 4 need 1 and add 2 and 3.
const FORKING: [u64; 16] = [4, 4, 0, 12, 0, 1, 0, 1, 2, 0, 2, 4, 0, 2, 8, 0];

/// Prints the reply of a call.
fn told<T: Done>(rt: &impl Print, outcome: Result<T, Refusal>) -> io::Result<()> {
    let reply = Reply::from(outcome);
    println!(rt;
        "{} {} {} {} {}",
        reply.code, reply.step, reply.fact, reply.other, reply.at
    )
}

/// Prints the reply of a run.
fn told_run(rt: &impl Print, words: &[u64], sequence: &[u8]) -> io::Result<()> {
    told(rt, run::run(&Plan::from(words), sequence))
}

/// Runs: at least one for each code that a run gives. The first is an example that is proved, too.
fn runs(rt: &impl Print) -> io::Result<()> {
    println!(rt; "runs")?;
    told_run(rt, &DELETING, &[2, 1])?;
    told_run(rt, &DELETING, &[1, 2])?;
    told_run(rt, &FORKING, &[1, 2, 4, 3])?;
    told_run(rt, &FORKING, &[1, 3, 2, 4])?;
    told_run(rt, &DELETING, &[1])?;
    told_run(rt, &DELETING, &[1, 1])?;
    told_run(rt, &DELETING, &[1, 3])?;
    told_run(rt, &[1, 0, 0, 1], &[])?;
    told_run(rt, &[1, 0, 2, 0], &[])?;
    told_run(rt, &[1, 1, 0, 0, 0, 1, 1], &[1])
}

/// The edges of F and n: 64 facts and 62 steps pass, one more does not.
fn edges(rt: &impl Print) -> io::Result<()> {
    println!(rt; "edges")?;
    told_run(rt, &[64, 0, u64::MAX, 0], &[])?;
    told_run(rt, &[65, 0, 0, 0], &[])?;
    let mut words = [0; 193];
    let mut sequence = [0; 63];
    for step in 0..63u8 {
        sequence[usize::from(step)] = 63 - step;
    }
    words[1] = 62;
    told_run(rt, &words[..190], &sequence[1..])?;
    words[1] = 63;
    told_run(rt, &words, &sequence)
}

/// Rows and links: a step number at the edge of its range, and past it.
fn checks(rt: &impl Print) -> io::Result<()> {
    println!(rt; "checks")?;
    told(rt, plan::order_fault(&[4, 2]))?;
    told(rt, plan::order_fault(&[4, 8]))?;
    told(rt, plan::order_fault(&[1]))?;
    told(rt, plan::rows_fault(2, &[4]))?;
    let forking = Plan::from(FORKING.as_slice());
    told(rt, forking.links_fault(&[1, 2, 2, 3, 4]))?;
    told(rt, forking.links_fault(&[1, 2, 5, 3, 4]))?;
    told(rt, forking.links_fault(&[1, 2, 2, 3]))?;
    told(rt, plan::room_fault(5, 4))
}

/// The links of each consumer, each stretch on a line; the start and what is past the end have none, nor have too few links or a malformed plan.
fn stretches(rt: &impl Print) -> io::Result<()> {
    println!(rt; "stretches")?;
    let forking = Plan::from(FORKING.as_slice());
    for consumer in 0..7 {
        println!(rt; "{:?}", forking.links_of(&[1, 2, 2, 3, 4], consumer))?;
    }
    println!(rt; "{:?}", forking.links_of(&[1, 2, 2, 3], 3))?;
    let malformed = Plan::from([1, 0, 0, 2].as_slice());
    println!(rt; "{:?}", malformed.links_of(&[0], 1))
}

fn main(rt: HostRuntime) -> io::Result<()> {
    runs(&rt)?;
    edges(&rt)?;
    checks(&rt)?;
    stretches(&rt)
}
