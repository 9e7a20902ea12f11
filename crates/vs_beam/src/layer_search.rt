//! The public call of a search of one layer: it empties the slot, runs the search and hands out its lists.
ghost use Rattle.std.specs.Prelude.{◌+◌, ◌<◌, ◌≤◌, ◌↔◌, Bool, IfOk, IsTrue};
ghost use Rattle.vs_defs.specs.Words.{FitsDimension};
ghost use Rattle.vs_graph.specs.Good.{StandsAt};
ghost use Rattle.vs_rank.specs.Tests.{Attribute, Answers};
ghost use Rattle.vs_beam.specs.Beam.{IsBeam, IsSpent};
ghost use Rattle.vs_beam.specs.Named.{IsNamedBeam};
ghost use Rattle.vs_beam.specs.Searching.{expansion_cost};

use crate::answer::Beam;
use crate::search::Search;
use std::alloc::Global;
use std::sync::ledger::Ledger;
use vs_graph::{Graph, Nodes, Steps};
use vs_outside::{List, NoMemory};
use vs_rank::{Testing, Wanted};
use vs_slot::Slot;

/// Searches a layer from a member for the `ef` nearest ones that pass (a beam, after the HNSW paper; that a filtered search goes on
/// from members that don't pass, and its effort, are this project's rule). An effort other than 0 is the most members that it tries;
/// 0 sets no bound. The slot is emptied first, and a slot with room for each id of the graph takes no memory.
pub fn beam<N: Nodes, F: Testing, L: Ledger>(
    alloc: Global,
    graph: &Graph<N>,
    layer: u8,
    from: u32,
    query: &[u64],
    ef: u32,
    effort: u32,
    wanted: &Wanted<F>,
    slot: &mut Slot,
    reads: &mut Steps<L>,
) -> Result<Beam, NoMemory>
    requires fits { FitsDimension graph.now.dim query.now }
    requires wide { 0 < ef }
    requires stands { StandsAt (N.at graph.now.nodes) layer from }
    ensures beam { IfOk result (λ beam. (passes : Attribute → Bool) → Answers (F.gives wanted.now.test) passes → IsBeam (N.at graph.now.nodes) layer from query.now ef effort passes beam.tried beam.expanded beam.found) }
    ensures named { IfOk result (λ beam. (passes : Attribute → Bool) → Answers (F.gives wanted.now.test) passes → IsNamedBeam (N.at graph.now.nodes) graph.now.entry graph.now.m graph.now.dim layer from query.now ef effort passes beam.tried beam.expanded beam.found) }
    ensures spent { IfOk result (λ beam. IsTrue beam.spent ↔ IsSpent effort beam.tried) }
    ensures told { IfOk result (λ beam. reads.new ≤ reads.old + 1 + expansion_cost (N.at graph.now.nodes) layer beam.expanded) }
{
    let nodes = graph.nodes();
    slot.begin(nodes.limit())?;
    let mut search = Search::start(
        alloc, nodes, layer, from, query, ef, effort, wanted, slot, reads,
    )?;
    let spent = search.run(nodes, layer, query, wanted, slot, reads)?;
    let Search {
        from: _,
        effort: _,
        tried,
        expanded,
        best,
        frontier: _,
    } = search;
    Ok(Beam {
        found: List::from_vec(best.into_sorted()),
        tried,
        expanded,
        spent,
    })
}
