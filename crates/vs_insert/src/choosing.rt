//! The lists of those whom a new member is to be joined to: a descent, then a beam and a choice at each layer from the top down.
ghost use Rattle.std.specs.Prelude.{◌≡◌, ◌<◌, ◌≤◌, ◌+◌, ◌-◌, ◌++◌, ℕ, Some, IsSome, IfOk, All, length, replicate, [], option_map, slice_get};
ghost use Rattle.vs_defs.specs.Words.{FitsDimension};
ghost use Rattle.vs_graph.specs.Good.{body_at, StandsAt, IsGood};
ghost use Rattle.vs_rank.specs.Tests.{Answers};
ghost use Rattle.vs_insert.specs.Drafts.{ids_of};
ghost use Rattle.vs_insert.specs.Choosing.{everyone, IsLayerChosen, AreChosenFrom};

use crate::Chosen;
use std::alloc::Global;
use std::sync::ledger::Ledger;
use vs_beam::beam;
use vs_graph::{Edit, Graph, Nodes, Steps};
use vs_link::select;
use vs_outside::{List, NoMemory};
use vs_rank::{Key, Testing, Wanted};
use vs_slot::Slot;

/// A live member as one that is chosen.
fn chosen_one<N: Nodes, L: Ledger>(
    nodes: &N,
    id: u32,
    reads: &mut Steps<L>,
) -> Result<Chosen, NoMemory>
    requires { IsSome (N.at nodes.now id) }
    ensures id { IfOk result (λ one. one.id ≡ id) }
    ensures body { IfOk result (λ one. body_at (N.at nodes.now) id ≡ Some one.body) }
{
    match nodes.get(id, reads) {
        Some(node) => Ok(Chosen {
            id,
            body: node.body.try_clone()?,
        }),
        None => unreachable!(),
    }
}

/// Live members with their bodies.
fn with_bodies<N: Nodes, L: Ledger>(
    alloc: Global,
    nodes: &N,
    ids: &[u32],
    reads: &mut Steps<L>,
) -> Result<List<Chosen>, NoMemory>
    requires { All (λ id. IsSome (N.at nodes.now id)) ids.now }
    ensures ids { IfOk result (λ list. ids_of list ≡ ids.now) }
    ensures bodies { IfOk result (λ list. All (λ one. body_at (N.at nodes.now) one.id ≡ Some one.body) list) }
{
    let mut list = List::new(alloc);
    for id in ids {
        list.push(chosen_one(nodes, *id, reads)?)?;
    }
    Ok(list)
}

/// The nearest that a beam found.
fn nearest(found: &[Key], from: u32) -> u32
    requires { 0 < length found.now }
    ensures { option_map (λ key. key.id) (slice_get found.now 0) ≡ Some result }
{
    match found.first() {
        Some(key) => key.id,
        None => from,
    }
}

/// Whom a new member is to be linked to at a layer, and where the beam of the layer below starts.
fn choose<N: Nodes, F: Testing, L: Ledger>(
    alloc: Global,
    graph: &Graph<N>,
    layer: u8,
    from: u32,
    query: &[u64],
    ef: u32,
    wanted: &Wanted<F>,
    slot: &mut Slot,
    reads: &mut Steps<L>,
) -> Result<(List<Chosen>, u32), NoMemory>
    requires fits { FitsDimension graph.now.dim query.now }
    requires wide { 0 < ef }
    requires stands { StandsAt (N.at graph.now.nodes) layer from }
    requires everyone { Answers (F.gives wanted.now.test) everyone }
    ensures { IfOk result (λ made. IsLayerChosen (N.at graph.now.nodes) graph.now.m layer from ef query.now made.0 made.1) }
{
    let nodes = graph.nodes();
    let search = beam(alloc, graph, layer, from, query, ef, 0, wanted, slot, reads)?;
    let found = search.found.as_slice();
    let edit = Edit::new(alloc);
    let ids = select(alloc, &edit, nodes, found, graph.m(), reads)?;
    let list = with_bodies(alloc, nodes, ids.as_slice(), reads)?;
    Ok((list, nearest(found, from)))
}

/// Whom a new member is to be linked to at each of the layers below a number, from the highest down.
pub(crate) fn choose_from<N: Nodes, F: Testing, L: Ledger>(
    alloc: Global,
    graph: &Graph<N>,
    start: u32,
    count: u8,
    query: &[u64],
    ef: u32,
    wanted: &Wanted<F>,
    slot: &mut Slot,
    reads: &mut Steps<L>,
) -> Result<Vec<List<Chosen>>, NoMemory>
    requires good { IsGood (N.at graph.now.nodes) graph.now.entry graph.now.m graph.now.dim }
    requires fits { FitsDimension graph.now.dim query.now }
    requires wide { 0 < ef }
    requires stands { (layer : ℕ) → layer < count → StandsAt (N.at graph.now.nodes) layer start }
    requires everyone { Answers (F.gives wanted.now.test) everyone }
    ensures { IfOk result (λ lists. AreChosenFrom (N.at graph.now.nodes) graph.now.entry graph.now.m graph.now.dim start count ef query.now lists.items) }
{
    let mut lists = Vec::new(alloc);
    let mut here = start;
    let mut layer = count;
    while layer > 0 {
        layer -= 1;
        let (list, next) = choose(alloc, graph, layer, here, query, ef, wanted, slot, reads)?;
        lists.push(list)?;
        here = next;
    }
    Ok(lists)
}

/// Lists, and empty ones behind them, so many in all.
pub(crate) fn filled(
    alloc: Global,
    lists: Vec<List<Chosen>>,
    count: u8,
) -> Result<List<List<Chosen>>, NoMemory>
    requires { length lists.items ≤ count }
    ensures { IfOk result (λ all. all ≡ lists.items ++ replicate (count - length lists.items) []) }
{
    let first = lists.len() as u8;
    let mut all = List::from_vec(lists);
    for _layer in first..count {
        all.push(List::new(alloc))?;
    }
    Ok(all)
}
