//! One search by a descent and a beam.
ghost use Rattle.std.specs.Prelude.{◌≡◌, ◌≤◌, ◌<◌, IfOk, length};
ghost use Rattle.vs_defs.specs.Words.{FitsDimension};

use std::alloc::Global;
use std::sync::ledger::Ledger;
use vs_beam::{Descent, beam, descend};
use vs_graph::{Graph, Nodes, Steps};
use vs_outside::{List, NoMemory};
use vs_rank::{Key, Testing, Wanted};
use vs_slot::Slot;

/// The keys that a beam of width `ef` finds from where the descent to layer 1 ends, the nearest first; none in an empty graph.
pub fn searched<N: Nodes, F: Testing, L: Ledger>(
    alloc: Global,
    graph: &Graph<N>,
    query: &[u64],
    ef: u32,
    wanted: &Wanted<F>,
    slot: &mut Slot,
    reads: &mut Steps<L>,
) -> Result<List<Key>, NoMemory>
    requires fits { FitsDimension graph.now.dim query.now }
    requires wide { 1 ≤ ef }
{
    if graph.nodes().limit() == 0 {
        return Ok(List::new(alloc));
    }
    match descend(graph, query, 1, reads) {
        Some(
            Descent {
                start,
                top: _,
                at: _,
            },
        ) => {
            let search = beam(alloc, graph, 0, start, query, ef, 0, wanted, slot, reads)?;
            Ok(search.found)
        }
        None => Ok(List::new(alloc)),
    }
}

/// How many of the first ten keys are no farther than the bound.
pub fn near_count(keys: &[Key], bound: u32) -> usize
    ensures { result ≤ 10 }
{
    keys.iter().take(10).filter(|key| key.dist <= bound).count()
}
