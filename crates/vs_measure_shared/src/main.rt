//! Measures the store behind its lock: `vs_measure_shared DIMENSION M EF SEED STEP..`, each step of three words: `count CALLS THREADS`,
//! `now MEMBERS LEVEL`, `draft MEMBERS LEVEL`. What was done goes to standard output; how long it took, which differs from run to run, to
//! standard error.
#![tactic(auto)]

mod adding;
mod case;
mod counting;
mod drawing;
mod error;
mod holding;
mod requests;
mod times;

ghost use Rattle.std.specs.Prelude.{◌≡◌};

use crate::adding::add_all;
use crate::case::{Case, Step, THREADS, case_of};
use crate::counting::{Worker, count};
use crate::drawing::Drawn;
use std::alloc::Global;
use std::env;
use std::marker::Brand;
use std::sync::Wait;
use std::thread::Threads;
use std::time::{Clock, CpuClock};
use vs_history::TableName;
use vs_outside::NoMemory;
use vs_pass::Pass;
use vs_shared::Opened;
use vs_store::Limits;

/// Each pass beside what its thread is to note.
fn workers_of<N: TableName>(
    alloc: Global,
    passes: Vec<Pass<N>>,
) -> Result<Vec<Worker<N>>, NoMemory> {
    let mut workers = Vec::new(alloc);
    for pass in passes {
        workers.push(Worker { pass, answers: 0 })?;
    }
    Ok(workers)
}

/// Does the steps of a case over one store.
fn measure<
    N: TableName + Send + Sync,
    R: Print + Eprint + Clock + CpuClock + Threads + Wait + Sync,
>(rt: &R, alloc: Global, opened: Opened, case: &Case) -> anyhow::Result<()>
    requires { opened ≡ record { table = N.table; limits = N.limits } }
{
    let (shared, passes) = opened.named::<N>(alloc, case.seed, THREADS, THREADS)?;
    let mut workers = workers_of(alloc, passes)?;
    let mut drawn = Drawn::new(case.seed);
    for step in case.steps.as_slice() {
        match *step {
            Step::Count { calls, threads } => {
                count(rt, alloc, &shared, workers.as_mut_slice(), threads, calls)?;
            }
            Step::Add(additions) => {
                let first = workers.as_mut_slice().first_mut();
                add_all(rt, alloc, &shared, first, case, &mut drawn, additions)?;
            }
        }
    }
    Ok(())
}

fn main(rt: HostRuntime) -> anyhow::Result<()> {
    let alloc = rt.alloc();
    let words = env::args(&rt)?.skip(1).collect::<Vec<String>>(alloc)?;
    let case = case_of(alloc, words.as_slice())?;
    let opened = Opened::new(alloc, Limits::usual())?;
    measure::<Brand, _>(&rt, alloc, opened, &case)
}
