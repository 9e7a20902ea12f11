//! The public call that makes a draft over a graph.
ghost use Rattle.std.specs.Prelude.{◌≡◌, ◌<◌, ◌≤◌, ◌+◌, ℕ, List as Items, IfOk, length};
ghost use Rattle.vs_defs.specs.Limits.{max_level};
ghost use Rattle.vs_defs.specs.Words.{FitsDimension, bits_of_words};
ghost use Rattle.vs_defs.specs.Insertion.{IsChosen};
ghost use Rattle.vs_graph.specs.Standing.{AreIds, set_of};
ghost use Rattle.vs_insert.specs.Drafts.{chosen_at, names_down, HaveBodies};
ghost use Rattle.vs_insert.specs.Added.{AreDrafted};
ghost use Rattle.vs_rank.specs.Tests.{Answers};
ghost use mathlib.Core.HProp.{IsProp-prop};
ghost use Rattle.vs_insert.specs.Choosing.{everyone, drafted_by};

use crate::choosing::{choose_from, filled};
use crate::{Chosen, Draft};
use std::alloc::Global;
use std::sync::ledger::Ledger;
use vs_beam::{Descent, descend};
use vs_graph::{Graph, InlineBody, Nodes, Steps};
use vs_outside::{List, NoMemory};
use vs_rank::{Everyone, Testing, Wanted};
use vs_slot::Slot;

/// Whom a new member is to be linked to, from the highest layer down at which it meets others.
fn chosen_lists<N: Nodes, F: Testing + Drop, L: Ledger>(
    alloc: Global,
    graph: &Graph<N>,
    query: &[u64],
    level: u8,
    ef: u32,
    test: F,
    slot: &mut Slot,
    reads: &mut Steps<L>,
) -> Result<Vec<List<Chosen>>, NoMemory>
    requires fits { FitsDimension graph.now.dim query.now }
    requires low { level ≤ max_level }
    requires wide { 0 < ef }
    requires single { IsProp (F.ready test) }
    requires callable { F.ready test }
    requires everyone { Answers (F.gives test) everyone }
    ensures long { IfOk result (λ lists. length lists.items ≤ level + 1) }
    ensures drafted { IfOk result (λ lists. AreDrafted (N.at graph.now.nodes) graph.now.m level (drafted_by level lists.items)) }
    ensures bodies { IfOk result (λ lists. (layer : ℕ) → HaveBodies (N.at graph.now.nodes) (chosen_at (drafted_by level lists.items) layer)) }
    ensures chosen { IfOk result (λ lists. (cut : ℕ) (ids : Items ℕ) → AreIds (N.at graph.now.nodes) ids
        → IsChosen (set_of (N.at graph.now.nodes) graph.now.entry graph.now.m graph.now.dim cut ids) (bits_of_words graph.now.dim query.now) level ef (names_down (drafted_by level lists.items))) }
{
    if graph.nodes().limit() == 0 {
        return Ok(Vec::new(alloc));
    }
    let wanted = Wanted::new(test);
    match descend(graph, query, level + 1, reads) {
        Some(Descent { start, top, at: _ }) => choose_from(
            alloc,
            graph,
            start,
            level.min(top) + 1,
            query,
            ef,
            &wanted,
            slot,
            reads,
        ),
        None => Ok(Vec::new(alloc)),
    }
}

/// Chooses whom a new member is to be linked to, by a descent to the layer above its own and a beam of width `ef` at each layer below. The
/// graph may be a snapshot: a later commit needs no search. Each of the chosen has the body that it has there. Above the entry's level the lists are empty. The slot is emptied at each beam;
/// after a refusal it may have any marks.
pub fn prepare<N: Nodes, L: Ledger>(
    alloc: Global,
    graph: &Graph<N>,
    cut: u64,
    body: InlineBody,
    level: u8,
    ef: u32,
    slot: &mut Slot,
    reads: &mut Steps<L>,
) -> Result<Draft, NoMemory>
    requires fits { FitsDimension graph.now.dim body.bits }
    requires low { level ≤ max_level }
    requires wide { 0 < ef }
    ensures cut { IfOk result (λ draft. draft.cut ≡ cut) }
    ensures level { IfOk result (λ draft. draft.level ≡ level) }
    ensures body { IfOk result (λ draft. draft.body ≡ body) }
    ensures drafted { IfOk result (λ draft. AreDrafted (N.at graph.now.nodes) graph.now.m level draft.chosen) }
    ensures bodies { IfOk result (λ draft. (layer : ℕ) → HaveBodies (N.at graph.now.nodes) (chosen_at draft.chosen layer)) }
    ensures chosen { IfOk result (λ draft. (cut : ℕ) (ids : Items ℕ) → AreIds (N.at graph.now.nodes) ids
        → IsChosen (set_of (N.at graph.now.nodes) graph.now.entry graph.now.m graph.now.dim cut ids) (bits_of_words graph.now.dim body.bits) level ef (names_down draft.chosen)) }
{
    let query = body.bits();
    let mut lists = chosen_lists(alloc, graph, query, level, ef, Everyone, slot, reads)?;
    lists.reverse();
    let chosen = filled(alloc, lists, level + 1)?;
    Ok(Draft {
        cut,
        level,
        chosen,
        body,
    })
}
