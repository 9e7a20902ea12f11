//! Measures a graph of generated members: `vs_measure KIND MEMBERS DIMENSION M EF_CONSTRUCTION SEED SEARCHES EF..`. At the first line of
//! standard input it grows the graph by drafts and commits, and at each further line it looks for generated vectors once with each width,
//! so that a script may run it in turn with another program. What was found goes to standard output; how many insertions and searches a
//! second of processor time, which differs from run to run, to standard error.
#![tactic(auto)]

mod case;
mod comparing;
mod error;
mod growing;
mod names;
mod searching;
mod table;
mod vectors;

ghost use Rattle.std.specs.Prelude.{◌≡◌, ◌<◌, ◌≤◌, All};

use crate::case::{Case, case_of};
use crate::comparing::{bounds, found};
use crate::growing::{Growth, grown};
use crate::table::Table;
use crate::vectors::table_of;
use std::env;
use std::marker::Brand;
use std::sync::ledger::{Blank, Ledger};
use std::time::CpuClock;
use vs_graph::{Graph, Nodes, Steps};
use vs_page::PageNodes;
use vs_slot::Slot;

/// How many a second, by how many there were and the nanoseconds that they took.
fn per_second(count: u32, nanos: u128) -> u128 {
    u128::from(count) * 1_000_000_000 / nanos.max(1)
}

/// Looks for all vectors once with each width, and prints how many of the nearest were found.
fn search_all<R: Print + Eprint + CpuClock + AllocGlobal, N: Nodes, L: Ledger>(
    rt: &R,
    graph: &Graph<N>,
    queries: &Table,
    bounds: &[u32],
    efs: &[u32],
    slot: &mut Slot,
    reads: &mut Steps<L>,
) -> anyhow::Result<()>
    requires dim { queries.now.dim ≡ graph.now.dim }
    requires wide { All (λ ef. 1 ≤ ef) efs.now }
{
    for ef in efs {
        let start = rt.thread_cpu_time()?;
        let count = found(rt.alloc(), graph, queries, bounds, *ef, slot, reads)?;
        let nanos = rt.thread_cpu_time()?.saturating_sub(start).as_nanos();
        println!(rt; "ef {ef} found {count}")?;
        eprintln!(rt;
            "ef {ef} searches a second {}",
            per_second(queries.rows().len() as u32, nanos)
        )?;
    }
    Ok(())
}

fn measure<R: Print + Eprint + CpuClock + Input + AllocGlobal, L: Ledger>(
    rt: &R,
    case: &Case,
    blank: Blank,
) -> anyhow::Result<()>
    requires name { blank.name ≡ L.name }
    requires parts { blank.parts ≡ L.parts }
    requires some { 0 < L.parts }
{
    let alloc = rt.alloc();
    let table = table_of(alloc, case, case.members, 1)?;
    let queries = table_of(alloc, case, case.searches, 2)?;
    let mut slot = Slot::new(alloc);
    let mut reads = Steps::<L>::new(blank);
    eprintln!(rt; "generated")?;
    let mut lines = rt.lines(alloc);
    if let Some(line) = lines.next() {
        line?;
    }
    let Growth { graph, nanos } = grown::<R, PageNodes, L>(
        rt, alloc, case, &table, &mut slot, &mut reads,
    )?;
    eprintln!(rt; "insertions a second {}", per_second(case.members, nanos))?;
    let bounds = bounds(alloc, &table, &queries, &mut reads)?;
    println!(rt; "members {} searches {}", case.members, case.searches)?;
    for line in lines {
        line?;
        search_all(
            rt,
            &graph,
            &queries,
            bounds.as_slice(),
            case.efs.as_slice(),
            &mut slot,
            &mut reads,
        )?;
        eprintln!(rt; "searched")?;
    }
    Ok(())
}

fn main(rt: HostRuntime) -> anyhow::Result<()> {
    let words = env::args(&rt)?.skip(1).collect::<Vec<String>>(rt.alloc())?;
    let case = case_of(rt.alloc(), words.as_slice())?;
    measure::<_, Brand>(&rt, &case, Blank::new(1))
}
