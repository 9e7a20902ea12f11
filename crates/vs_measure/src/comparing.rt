//! Beams compared with the exact scan: of the ten members that are answered, those count that are as near as the tenth of the scan, so that
//! ties are no misses.
ghost use Rattle.std.specs.Prelude.{◌≡◌, ◌≤◌, ◌*◌, IfOk, All, length};
ghost use mathlib.Core.HProp.{IsProp-prop};
ghost use Rattle.vs_rank.specs.Tests.{AnswersOne};

use crate::searching::{near_count, searched};
use crate::table::{Row, Table};
use std::alloc::Global;
use std::sync::ledger::Ledger;
use vs_bits::Bits;
use vs_graph::{Graph, Nodes, Steps};
use vs_outside::NoMemory;
use vs_rank::{Everyone, Testing, Wanted};
use vs_slot::Slot;
use vs_truth::nearest;

/// The distance of the tenth nearest member, or of the last one where there are fewer; 0 where there is none.
fn bound_of<F: Testing, L: Ledger>(
    alloc: Global,
    table: &Table,
    query: &Bits,
    wanted: &Wanted<F>,
    reads: &mut Steps<L>,
) -> Result<u32, NoMemory>
    requires long { length query.now ≡ table.now.dim }
{
    let hits = nearest(alloc, table, query, 10, wanted, reads)?;
    match hits.as_slice().last() {
        Some(hit) => Ok(hit.dist),
        None => Ok(0),
    }
}

fn bounds_by<F: Testing + Drop, L: Ledger>(
    alloc: Global,
    table: &Table,
    queries: &Table,
    test: F,
    reads: &mut Steps<L>,
) -> Result<Vec<u32>, NoMemory>
    requires single { IsProp (F.ready test) }
    requires callable { F.ready test }
    requires answers { AnswersOne (F.gives test) }
    requires dim { table.now.dim ≡ queries.now.dim }
{
    let everyone = Wanted::new(test);
    let mut bounds = Vec::new(alloc);
    for row in queries.rows() {
        bounds.push(bound_of(alloc, table, &row.bits, &everyone, reads)?)?;
    }
    Ok(bounds)
}

/// For each vector looked for, how far its ten nearest members are at most.
pub fn bounds<L: Ledger>(
    alloc: Global,
    table: &Table,
    queries: &Table,
    reads: &mut Steps<L>,
) -> Result<Vec<u32>, NoMemory>
    requires { table.now.dim ≡ queries.now.dim }
{
    bounds_by(alloc, table, queries, Everyone, reads)
}

fn found_by<N: Nodes, F: Testing + Drop, L: Ledger>(
    alloc: Global,
    graph: &Graph<N>,
    queries: &[Row],
    bounds: &[u32],
    ef: u32,
    test: F,
    slot: &mut Slot,
    reads: &mut Steps<L>,
) -> Result<u64, NoMemory>
    requires single { IsProp (F.ready test) }
    requires callable { F.ready test }
    requires answers { AnswersOne (F.gives test) }
    requires dim { All (λ row. length row.bits ≡ graph.now.dim) queries.now }
    requires wide { 1 ≤ ef }
{
    let everyone = Wanted::new(test);
    let mut found: u64 = 0;
    for (row, bound) in queries.iter().zip(bounds) {
        let keys = searched(alloc, graph, row.bits.words(), ef, &everyone, slot, reads)?;
        found = found.saturating_add(near_count(keys.as_slice(), *bound) as u64);
    }
    Ok(found)
}

/// Looks for each vector by a beam of width `ef`, and counts how many of the ten answered members are as near as the tenth nearest.
pub fn found<N: Nodes, L: Ledger>(
    alloc: Global,
    graph: &Graph<N>,
    queries: &Table,
    bounds: &[u32],
    ef: u32,
    slot: &mut Slot,
    reads: &mut Steps<L>,
) -> Result<u64, NoMemory>
    requires dim { queries.now.dim ≡ graph.now.dim }
    requires wide { 1 ≤ ef }
{
    found_by(
        alloc,
        graph,
        queries.rows(),
        bounds,
        ef,
        Everyone,
        slot,
        reads,
    )
}
