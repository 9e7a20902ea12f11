//! Two thousand requests beside the plain list.
use crate::keeping::{check_set, check_sets};
use crate::links::check_graph;
use crate::requests::{Trial, step};
use std::process::Abort;
use std::test::Fail;
use vs_outside::NoMemory;
use vs_store::Limits;
use vs_store_fixtures::KEYS;

/// How many requests are drawn.
const REQUESTS: u32 = 2_000;

fn check_graphs(rt: &impl Abort, trial: &mut Trial) -> Result<(), NoMemory> {
    for key in KEYS {
        check_graph(rt, &mut trial.asked, &trial.plain, key)?;
    }
    Ok(())
}

/// Draws a request; then its set is compared, and now and then all sets and their graphs.
fn turn(rt: &impl Abort, trial: &mut Trial, number: u32) -> Result<(), NoMemory> {
    let key = step(rt, trial)?;
    check_set(rt, &mut trial.asked, &trial.plain, key)?;
    if number % 25 == 0 {
        check_sets(rt, &mut trial.asked, &trial.plain)?;
        check_graphs(rt, trial)?;
    }
    Ok(())
}

#[test]
fn requests_are_answered_as_by_a_plain_list(rt: HostRuntime) -> Result<(), Fail> {
    let limits = Limits {
        set: 14,
        keys: 3,
        all: 34,
        ..Limits::usual()
    };
    let mut trial = Trial::new(rt.alloc(), limits);
    for number in 0..REQUESTS {
        turn(&rt, &mut trial, number)?;
    }
    Ok(())
}
