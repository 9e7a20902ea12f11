//! One member that a removal left without a link at a layer, joined to the choice of a beam in the graph before the removal.
ghost use Rattle.std.specs.Prelude.{◌≡◌, ◌≢◌, ℕ, Some, IsSome, IfOk, OnOk};
ghost use mathlib.Core.HProp.{IsProp-prop};
ghost use Rattle.vs_rank.specs.Tests.{Answers};
ghost use Rattle.vs_graph.specs.Edits.{overwritten};
ghost use Rattle.vs_graph.specs.Good.{links_at, IsEntry};
ghost use Rattle.vs_graph.specs.GoodTable.{KeepsLinked};
ghost use Rattle.vs_insert.specs.Choosing.{everyone};
ghost use Rattle.vs_unlink.specs.Unlinked.{bare, IsWithout};
ghost use Rattle.vs_insert.specs.Rejoined.{CanRejoin, IsStart, IsOrphansChoice, IsRejoined, RejoinsByNames, others_of};

use crate::highest::highest_but;
use std::alloc::Global;
use std::sync::ledger::Ledger;
use vs_beam::beam;
use vs_graph::{Edit, Graph, Nodes, Steps, live_node};
use vs_link::{link_layer, select};
use vs_outside::{List, NoMemory};
use vs_rank::{Everyone, Key, Testing, Wanted};
use vs_slot::Slot;
use vs_unlink::Orphan;

/// Of what was found, those that are live in the edit's meaning, one left out.
fn others<N: Nodes, L: Ledger>(
    alloc: Global,
    edit: &Edit,
    base: &N,
    found: &[Key],
    but: u32,
    reads: &mut Steps<L>,
) -> Result<List<Key>, NoMemory>
    ensures { IfOk result (λ left. left ≡ others_of (overwritten edit.now (N.at base.now)) but found.now) }
{
    let mut left = List::new(alloc);
    for key in found {
        if key.id == but || edit.node(base, key.id, reads).is_none() {
            continue;
        }
        left.push(*key)?;
    }
    Ok(left)
}

/// Where an orphan's beam starts: at the entry, or where that is the orphan, at the highest of the others.
fn start_of<N: Nodes, L: Ledger>(
    edit: &Edit,
    base: &N,
    entry: u32,
    orphan: u32,
    reads: &mut Steps<L>,
) -> u32
    requires { (id : ℕ) → IsSome (overwritten edit.now (N.at base.now) id) → IsSome (N.at base.now id) }
    ensures { (z : ℕ) → z ≢ orphan → IsSome (overwritten edit.now (N.at base.now) z) → IsStart (overwritten edit.now (N.at base.now)) entry orphan result }
{
    if entry != orphan {
        return entry;
    }
    match highest_but(edit, base, orphan, reads) {
        Some(other) => other,
        None => entry,
    }
}

/// Whom an orphan is joined to, chosen in the graph before the removal.
fn choice_for<N: Nodes, F: Testing, L: Ledger>(
    alloc: Global,
    edit: &Edit,
    graph: &Graph<N>,
    entry: u32,
    orphan: Orphan,
    ef: u32,
    wanted: &Wanted<F>,
    slot: &mut Slot,
    reads: &mut Steps<L>,
) -> Result<List<u32>, NoMemory>
    requires can { CanRejoin (N.at graph.now.nodes) (overwritten edit.now (N.at graph.now.nodes)) graph.now.m graph.now.dim entry orphan.layer orphan.id }
    requires wide { ef ≡ 200 }
    requires everyone { Answers (F.gives wanted.now.test) everyone }
    ensures { IfOk result (λ chosen. IsOrphansChoice (N.at graph.now.nodes) (overwritten edit.now (N.at graph.now.nodes)) graph.now.m entry orphan.layer orphan.id chosen) }
{
    let nodes = graph.nodes();
    let start = start_of(edit, nodes, entry, orphan.id, reads);
    let query = live_node(edit, nodes, orphan.id, reads).body.bits();
    let search = beam(
        alloc,
        graph,
        orphan.layer,
        start,
        query,
        ef,
        0,
        wanted,
        slot,
        reads,
    )?;
    let left = others(
        alloc,
        edit,
        nodes,
        search.found.as_slice(),
        orphan.id,
        reads,
    )?;
    let unchanged = Edit::new(alloc);
    select(alloc, &unchanged, nodes, left.as_slice(), graph.m(), reads)
}

/// Joins an orphan by a test that all pass.
fn rejoin<N: Nodes, F: Testing + Drop, L: Ledger>(
    alloc: Global,
    edit: &mut Edit,
    graph: &Graph<N>,
    entry: u32,
    orphan: Orphan,
    ef: u32,
    test: F,
    slot: &mut Slot,
    reads: &mut Steps<L>,
) -> Result<(), NoMemory>
    requires can { CanRejoin (N.at graph.now.nodes) (overwritten edit.old (N.at graph.now.nodes)) graph.now.m graph.now.dim entry orphan.layer orphan.id }
    requires wide { ef ≡ 200 }
    requires single { IsProp (F.ready test) }
    requires callable { F.ready test }
    requires everyone { Answers (F.gives test) everyone }
    ensures joined { OnOk result (IsRejoined (N.at graph.now.nodes) (overwritten edit.old (N.at graph.now.nodes)) (overwritten edit.new (N.at graph.now.nodes)) graph.now.m graph.now.dim entry orphan.layer orphan.id) }
    ensures rejoins { OnOk result (RejoinsByNames (N.at graph.now.nodes) (overwritten edit.old (N.at graph.now.nodes)) (overwritten edit.new (N.at graph.now.nodes)) graph.now.entry graph.now.m graph.now.dim entry orphan.layer orphan.id) }
{
    let wanted = Wanted::new(test);
    let chosen = choice_for(alloc, edit, graph, entry, orphan, ef, &wanted, slot, reads)?;
    link_layer(
        alloc,
        edit,
        graph.nodes(),
        orphan.id,
        orphan.layer,
        chosen.as_slice(),
        Some(entry),
        graph.m(),
        reads,
    )?;
    Ok(())
}

/// Joins a member that a removal left without a link at a layer where others stand: a beam of width 200 in the graph before the removal,
/// from the entry after it, or where that is the orphan itself, from the highest of the others; the removed member and the orphan are
/// left out of what it found. The links are those that the definitions make, by ids and by names. Levels, bodies and attributes stay, and
/// so does the entry. After a refusal the edit is to be dropped; the graph is as it was, and the slot may have any marks.
pub fn relink<N: Nodes, L: Ledger>(
    alloc: Global,
    edit: &mut Edit,
    graph: &Graph<N>,
    entry: u32,
    orphan: Orphan,
    ef: u32,
    slot: &mut Slot,
    reads: &mut Steps<L>,
) -> Result<(), NoMemory>
    requires can { CanRejoin (N.at graph.now.nodes) (overwritten edit.old (N.at graph.now.nodes)) graph.now.m graph.now.dim entry orphan.layer orphan.id }
    requires wide { ef ≡ 200 }
    ensures joined { OnOk result (IsRejoined (N.at graph.now.nodes) (overwritten edit.old (N.at graph.now.nodes)) (overwritten edit.new (N.at graph.now.nodes)) graph.now.m graph.now.dim entry orphan.layer orphan.id) }
    ensures rejoins { OnOk result (RejoinsByNames (N.at graph.now.nodes) (overwritten edit.old (N.at graph.now.nodes)) (overwritten edit.new (N.at graph.now.nodes)) graph.now.entry graph.now.m graph.now.dim entry orphan.layer orphan.id) }
    ensures without { OnOk result ((x : ℕ) → IsWithout (N.at graph.now.nodes) (overwritten edit.old (N.at graph.now.nodes)) x → IsWithout (N.at graph.now.nodes) (overwritten edit.new (N.at graph.now.nodes)) x) }
    ensures rest { OnOk result ((id : ℕ) → bare (overwritten edit.new (N.at graph.now.nodes) id) ≡ bare (overwritten edit.old (N.at graph.now.nodes) id)) }
    ensures top { OnOk result (IsEntry (overwritten edit.new (N.at graph.now.nodes)) (Some entry)) }
    ensures kept { OnOk result ((layer : ℕ) → KeepsLinked (links_at (overwritten edit.old (N.at graph.now.nodes)) layer) (links_at (overwritten edit.new (N.at graph.now.nodes)) layer)) }
{
    rejoin(alloc, edit, graph, entry, orphan, ef, Everyone, slot, reads)
}
