//! How many answers the threads get that all ask for one number.
use crate::error::MeasureError;
use crate::holding::now;
use crate::requests::card;
use std::alloc::Global;
use std::sync::Wait;
use std::thread;
use std::thread::Threads;
use std::time::{Clock, Instant};
use vs_command::Answer;
use vs_history::TableName;
use vs_pass::Pass;
use vs_shared::Shared;

/// A thread's pass, and how many answers it got.
#[derive(Drop)]
pub struct Worker<N: TableName> {
    pub pass: Pass<N>,
    pub answers: u64,
}

/// How many of so many calls a pass gets answered.
fn ask<N: TableName, R: Wait>(
    rt: &R,
    alloc: Global,
    shared: &Shared<N>,
    pass: &mut Pass<N>,
    calls: u32,
) -> Result<u64, MeasureError> {
    let request = card(alloc)?;
    let mut slot = shared.take_slot(rt)?;
    let mut answers: u64 = 0;
    for _ in 0..calls {
        if let Answer::Int(_) = now(rt, shared, pass, &request, &[], &mut slot)? {
            answers = answers.saturating_add(1);
        }
    }
    shared.give_slot(rt, slot);
    Ok(answers)
}

/// Prints how many answers there were, and how many a second.
pub fn count<N: TableName + Send + Sync, R: Print + Eprint + Clock + Threads + Wait + Sync>(
    rt: &R,
    alloc: Global,
    shared: &Shared<N>,
    workers: &mut [Worker<N>],
    threads: u32,
    calls: u32,
) -> anyhow::Result<()> {
    let threads = (threads as usize).min(workers.len());
    if threads == 0 {
        return Ok(());
    }
    let workers = &mut workers[..threads];
    let start = Instant::now(rt)?;
    thread::for_each_mut(
        rt,
        workers,
        threads,
        &|_, worker: &mut Worker<N>| {
            worker.answers = ask(rt, alloc, shared, &mut worker.pass, calls).unwrap_or(0);
        },
    );
    let nanos = start.elapsed(rt)?.as_nanos();
    let mut answers: u64 = 0;
    for worker in workers.iter() {
        answers = answers.saturating_add(worker.answers);
    }
    println!(rt; "count by {threads} threads: {answers} answers")?;
    eprintln!(rt;
        "count by {threads} threads: {} answers a second",
        u128::from(answers).saturating_mul(1_000_000_000) / nanos.max(1)
    )?;
    Ok(())
}
