//! A graph of generated members, and the processor time that its insertions took.
ghost use Rattle.std.specs.Prelude.{◌≡◌, ◌≤◌, ◌<◌, ◌≢◌, ℕ, None, IfOk, IfSome, All, length};
ghost use Rattle.vs_defs.specs.Draws.{level_of};

use crate::case::Case;
use crate::error::MeasureError;
use crate::names::is_new_name;
use crate::table::{Row, Table};
use rand_core::utils::NextWord;
use rand_pcg::Lcg64Xsh32;
use std::alloc::Global;
use std::sync::ledger::Ledger;
use std::time::CpuClock;
use vs_graph::{FreshNodes, Graph, InlineBody, Nodes, Steps};
use vs_insert::{commit, prepare};
use vs_slot::Slot;

/// A graph, and the nanoseconds of its insertions.
#[derive(Drop)]
pub struct Growth<N: Nodes> {
    pub graph: Graph<N>,
    pub nanos: u128,
}

/// The level of a new member by a random word.
fn level_of_word(word: u32) -> u8
    ensures level { result ≡ level_of word }
    ensures bound { result ≤ 15 }
{
    (word.trailing_zeros() / 2).min(15) as u8
}

/// Adds a member of a new name at a free id, by a draft and its commit.
fn insert<N: Nodes, L: Ledger>(
    alloc: Global,
    graph: &mut Graph<N>,
    id: u32,
    row: &Row,
    level: u8,
    ef: u32,
    slot: &mut Slot,
    reads: &mut Steps<L>,
) -> Result<(), MeasureError>
    requires dim { graph.old.dim ≡ length row.now.bits }
    requires low { level ≤ 15 }
    requires wide { 1 ≤ ef }
    requires free { N.at graph.old.nodes id ≡ None }
    requires small { id < 1048576 }
    requires name { (q : ℕ) → IfSome (N.at graph.old.nodes q) (λ other. other.body.name ≢ row.now.name) }
    ensures dim { graph.new.dim ≡ graph.old.dim }
{
    let body = InlineBody::new(alloc, row.name.as_slice(), row.bits.words())?;
    let draft = prepare(alloc, graph, 0, body, level, ef, slot, reads)?;
    commit(alloc, graph, draft, id, None, reads)?;
    Ok(())
}

/// Adds a member at the next id, and answers the nanoseconds that the insertion alone took.
fn add<R: CpuClock, N: Nodes, L: Ledger>(
    rt: &R,
    alloc: Global,
    graph: &mut Graph<N>,
    row: &Row,
    level: u8,
    ef: u32,
    slot: &mut Slot,
    reads: &mut Steps<L>,
) -> anyhow::Result<u128>
    requires dim { graph.old.dim ≡ length row.now.bits }
    requires low { level ≤ 15 }
    requires wide { 1 ≤ ef }
    ensures dim { graph.new.dim ≡ graph.old.dim }
{
    let id = graph.nodes().limit();
    if id >= 1_048_576 {
        return Err(MeasureError::TooMany.into());
    }
    if !is_new_name(graph.nodes(), row.name.as_slice(), reads) {
        return Err(MeasureError::NameTaken.into());
    }
    let start = rt.thread_cpu_time()?;
    insert(alloc, graph, id, row, level, ef, slot, reads)?;
    Ok(rt.thread_cpu_time()?.saturating_sub(start).as_nanos())
}

/// A graph of all members of the table in order, with levels of the words of stream 0.
pub fn grown<R: CpuClock, N: FreshNodes, L: Ledger>(
    rt: &R,
    alloc: Global,
    case: &Case,
    table: &Table,
    slot: &mut Slot,
    reads: &mut Steps<L>,
) -> anyhow::Result<Growth<N>>
    requires { table.now.dim ≡ case.now.dim }
    ensures { IfOk result (λ grown. grown.graph.dim ≡ case.now.dim) }
{
    let mut levels = Lcg64Xsh32::new(case.seed, 0);
    let mut graph = Graph::new(N::fresh(alloc)?, case.m, case.dim);
    let mut nanos: u128 = 0;
    for row in table.rows() {
        let level = level_of_word(levels.next_word());
        let ef = case.ef_construction;
        nanos = nanos.saturating_add(add(rt, alloc, &mut graph, row, level, ef, slot, reads)?);
    }
    Ok(Growth { graph, nanos })
}
