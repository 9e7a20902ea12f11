//! A member is taken out of a graph whole: unlinked, those that it leaves alone joined again, and the entry after it.
ghost use Rattle.std.specs.Prelude.{◌≡◌, ℕ, List as Items, true, false, Some, IsSome, IfOk, OnOk, All, option_map};
ghost use Rattle.vs_defs.specs.Removal as rules;
ghost use Rattle.vs_graph.specs.Edits.{overwritten};
ghost use Rattle.vs_graph.specs.Good.{IsEntry, IsGood, StandsAt, AreLinksGood};
ghost use Rattle.vs_graph.specs.Standing.{AreIds, name_of, set_of};
ghost use Rattle.vs_unlink.specs.Unlinked.{IsWithout};
ghost use Rattle.vs_insert.specs.Rejoined.{HasAnother};
ghost use Rattle.vs_insert.specs.Turns.{IsTopBeside, NobodyElse, IsTurn};
ghost use Rattle.vs_insert.specs.Walked.{IsWalked};
ghost use Rattle.vs_insert.specs.Removed.{IsUnlinked, RemovesByNames};

use crate::highest::highest_but;
use crate::relinking::relink;
use std::alloc::Global;
use std::sync::ledger::Ledger;
use vs_graph::{Edit, Graph, Nodes, Steps, degree, live_node};
use vs_outside::{List, NoMemory};
use vs_slot::Slot;
use vs_unlink::{Orphan, unlink};

/// The change that takes a member out with its former neighbours paired, and those that it leaves alone.
fn unlinked<N: Nodes, L: Ledger>(
    alloc: Global,
    graph: &Graph<N>,
    x: u32,
    reads: &mut Steps<L>,
) -> Result<(Edit, List<Orphan>), NoMemory>
    requires { IsSome (N.at graph.now.nodes x) }
    ensures unlinked { IfOk result (λ made. IsUnlinked (N.at graph.now.nodes) (overwritten made.0 (N.at graph.now.nodes)) graph.now.m graph.now.dim x made.1) }
    ensures whole { IsGood (N.at graph.now.nodes) graph.now.entry graph.now.m graph.now.dim }
{
    let nodes = graph.nodes();
    let mut edit = Edit::new(alloc);
    let orphans = unlink(alloc, &mut edit, nodes, x, reads)?;
    Ok((edit, orphans))
}

/// The entry after a removal: the old one, or where that was removed, the highest of those that are left.
fn entry_without<N: Nodes, L: Ledger>(
    edit: &Edit,
    graph: &Graph<N>,
    x: u32,
    reads: &mut Steps<L>,
) -> Option<u32>
    requires without { IsWithout (N.at graph.now.nodes) (overwritten edit.now (N.at graph.now.nodes)) x }
    requires links { AreLinksGood (overwritten edit.now (N.at graph.now.nodes)) graph.now.m graph.now.dim }
    ensures top { IsEntry (overwritten edit.now (N.at graph.now.nodes)) result }
    ensures named { (cut : ℕ) (ids : Items ℕ) → AreIds (N.at graph.now.nodes) ids
        → option_map (name_of (N.at graph.now.nodes)) result ≡ rules.entry_without (name_of (N.at graph.now.nodes) x) (set_of (N.at graph.now.nodes) graph.now.entry graph.now.m graph.now.dim cut ids) }
{
    let nodes = graph.nodes();
    let Some(entry) = graph.entry() else {
        return None;
    };
    if entry != x {
        return Some(entry);
    }
    highest_but(edit, nodes, x, reads)
}

/// One of greatest level among the others than `y`: the entry, or where that is `y` itself, the highest of them.
fn highest_beside<N: Nodes, L: Ledger>(
    edit: &Edit,
    base: &N,
    entry: u32,
    y: u32,
    reads: &mut Steps<L>,
) -> Option<u32>
    requires top { IsEntry (overwritten edit.now (N.at base.now)) (Some entry) }
    requires within { (id : ℕ) → IsSome (overwritten edit.now (N.at base.now) id) → IsSome (N.at base.now id) }
    ensures { IsTopBeside (overwritten edit.now (N.at base.now)) y result }
{
    if entry != y {
        return Some(entry);
    }
    highest_but(edit, base, y, reads)
}

/// Whether another than `y` stands at a layer.
fn has_another<N: Nodes, L: Ledger>(
    edit: &Edit,
    base: &N,
    entry: u32,
    layer: u8,
    y: u32,
    reads: &mut Steps<L>,
) -> bool
    requires top { IsEntry (overwritten edit.now (N.at base.now)) (Some entry) }
    requires within { (id : ℕ) → IsSome (overwritten edit.now (N.at base.now) id) → IsSome (N.at base.now id) }
    ensures yes { result ≡ true → HasAnother (overwritten edit.now (N.at base.now)) layer y }
    ensures no { result ≡ false → NobodyElse (overwritten edit.now (N.at base.now)) layer y }
{
    let Some(z) = highest_beside(edit, base, entry, y, reads) else {
        return false;
    };
    if live_node(edit, base, z, reads).level < layer {
        return false;
    }
    true
}

/// An orphan's turn: it is joined where it has no link by now and another stands at its layer.
fn relink_if_alone<N: Nodes, L: Ledger>(
    alloc: Global,
    edit: &mut Edit,
    graph: &Graph<N>,
    entry: u32,
    orphan: Orphan,
    slot: &mut Slot,
    reads: &mut Steps<L>,
) -> Result<(), NoMemory>
    requires without { (x : ℕ) × IsWithout (N.at graph.now.nodes) (overwritten edit.old (N.at graph.now.nodes)) x }
    requires links { AreLinksGood (overwritten edit.old (N.at graph.now.nodes)) graph.now.m graph.now.dim }
    requires top { IsEntry (overwritten edit.old (N.at graph.now.nodes)) (Some entry) }
    requires stands { StandsAt (overwritten edit.old (N.at graph.now.nodes)) orphan.layer orphan.id }
    ensures { OnOk result (IsTurn (N.at graph.now.nodes) (overwritten edit.old (N.at graph.now.nodes)) (overwritten edit.new (N.at graph.now.nodes)) graph.now.entry graph.now.m graph.now.dim entry orphan.layer orphan.id) }
{
    let nodes = graph.nodes();
    if degree(live_node(edit, nodes, orphan.id, reads), orphan.layer) > 0 {
        return Ok(());
    }
    if !has_another(edit, nodes, entry, orphan.layer, orphan.id, reads) {
        return Ok(());
    }
    relink(alloc, edit, graph, entry, orphan, 200, slot, reads)?;
    Ok(())
}

/// The orphans' turns, in their order.
fn relink_all<N: Nodes, L: Ledger>(
    alloc: Global,
    edit: &mut Edit,
    graph: &Graph<N>,
    entry: u32,
    orphans: &[Orphan],
    slot: &mut Slot,
    reads: &mut Steps<L>,
) -> Result<(), NoMemory>
    requires without { (x : ℕ) × IsWithout (N.at graph.now.nodes) (overwritten edit.old (N.at graph.now.nodes)) x }
    requires links { AreLinksGood (overwritten edit.old (N.at graph.now.nodes)) graph.now.m graph.now.dim }
    requires top { IsEntry (overwritten edit.old (N.at graph.now.nodes)) (Some entry) }
    requires stand { All (λ o. StandsAt (overwritten edit.old (N.at graph.now.nodes)) o.layer o.id) orphans.now }
    ensures { OnOk result (IsWalked (N.at graph.now.nodes) (overwritten edit.old (N.at graph.now.nodes)) (overwritten edit.new (N.at graph.now.nodes)) graph.now.entry graph.now.m graph.now.dim entry orphans.now) }
{
    for orphan in orphans {
        relink_if_alone(alloc, edit, graph, entry, *orphan, slot, reads)?;
    }
    Ok(())
}

/// The change that takes a member out of the graph, and the entry after it: its former neighbours are paired, and each of them that at its
/// turn has no link at a layer where another stands is joined again by a beam of width 200. Where the member was the entry, the highest of
/// the others is it then, and none where it was alone. Those that are left keep their bodies, levels and attributes. It changes no graph;
/// after a refusal the slot may have any marks.
pub fn without<N: Nodes, L: Ledger>(
    alloc: Global,
    graph: &Graph<N>,
    x: u32,
    slot: &mut Slot,
    reads: &mut Steps<L>,
) -> Result<(Edit, Option<u32>), NoMemory>
    requires live { IsSome (N.at graph.now.nodes x) }
    ensures good { IfOk result (λ made. IsGood (overwritten made.0 (N.at graph.now.nodes)) made.1 graph.now.m graph.now.dim) }
    ensures without { IfOk result (λ made. IsWithout (N.at graph.now.nodes) (overwritten made.0 (N.at graph.now.nodes)) x) }
    ensures removes { IfOk result (λ made. RemovesByNames (N.at graph.now.nodes) (overwritten made.0 (N.at graph.now.nodes)) graph.now.entry made.1 graph.now.m graph.now.dim x) }
{
    let (mut edit, orphans) = unlinked(alloc, graph, x, reads)?;
    let Some(entry) = entry_without(&edit, graph, x, reads) else {
        return Ok((edit, None));
    };
    relink_all(
        alloc,
        &mut edit,
        graph,
        entry,
        orphans.as_slice(),
        slot,
        reads,
    )?;
    Ok((edit, Some(entry)))
}
