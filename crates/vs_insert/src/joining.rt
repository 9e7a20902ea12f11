//! A new member linked at its layers, from layer 0 up.
ghost use Rattle.std.specs.Prelude.{◌≡◌, ◌≢◌, ◌<◌, ◌≤◌, ◌+◌, ◌*◌, ℕ, [], IfOk, OnOk, All, length};
ghost use Rattle.vs_defs.specs.Limits.{min_m, max_level};
ghost use Rattle.vs_graph.specs.Edits.{overwritten};
ghost use Rattle.vs_graph.specs.Good.{links_at, layers_at, AreLinksGood, IsEntry, StandsAt, HasGoodLinksFor};
ghost use Rattle.vs_link.specs.Linked.{IsFallback};
ghost use Rattle.vs_insert.specs.Drafts.{ids_of, chosen_at, AreChoices};
ghost use Rattle.vs_insert.specs.Joined.{layers_shared, IsSharedBelow, IsLayerJoined, IsJoinedFrom, reads_of};

use crate::Chosen;
use std::alloc::Global;
use std::sync::ledger::Ledger;
use vs_graph::{Edit, Nodes, Steps};
use vs_link::link_layer;
use vs_outside::{List, NoMemory};

/// The ids of those that were chosen.
fn ids(alloc: Global, chosen: &[Chosen]) -> Result<List<u32>, NoMemory>
    ensures { IfOk result (λ ids. ids ≡ ids_of chosen.now) }
{
    let mut ids = List::new(alloc);
    for one in chosen {
        ids.push(one.id)?;
    }
    Ok(ids)
}

/// Of the layers of a new member of a level, those at which other members stand, are the ones below this number. A member of level 0
/// needs no look at the entry.
pub(crate) fn shared_layers<N: Nodes, L: Ledger>(
    nodes: &N,
    entry: Option<u32>,
    level: u8,
    reads: &mut Steps<L>,
) -> u8
    requires low { level ≤ max_level }
    requires top { IsEntry (N.at nodes.now) entry }
    ensures shared { result ≡ layers_shared (N.at nodes.now) entry level }
    ensures told { reads.new ≤ reads.old + level }
{
    match entry {
        None => 0,
        Some(_) if level == 0 => 1,
        Some(id) => match nodes.get(id, reads) {
            Some(node) => node.level.min(level) + 1,
            None => unreachable!(),
        },
    }
}

/// Joins a new member at one layer.
fn join_layer<N: Nodes, L: Ledger>(
    alloc: Global,
    edit: &mut Edit,
    base: &N,
    x: u32,
    layer: u8,
    chosen: &[Chosen],
    fallback: Option<u32>,
    m: u16,
    reads: &mut Steps<L>,
) -> Result<(), NoMemory>
    requires good { HasGoodLinksFor (overwritten edit.old (N.at base.now)) m }
    requires low { min_m ≤ m }
    requires stands { StandsAt (overwritten edit.old (N.at base.now)) layer x }
    requires free { links_at (overwritten edit.old (N.at base.now)) layer x ≡ [] }
    requires chosen { AreChoices (overwritten edit.old (N.at base.now)) m layer chosen.now }
    requires others { All (λ c. c.id ≢ x) chosen.now }
    requires fallback { IsFallback (layers_at (overwritten edit.old (N.at base.now))) layer x fallback }
    ensures joined { OnOk result (IsLayerJoined (overwritten edit.old (N.at base.now)) (overwritten edit.new (N.at base.now)) m x layer chosen.now fallback) }
    ensures told { reads.new ≤ reads.old + reads_of m layer }
{
    let ids = ids(alloc, chosen)?;
    link_layer(
        alloc,
        edit,
        base,
        x,
        layer,
        ids.as_slice(),
        fallback,
        m,
        reads,
    )?;
    Ok(())
}

/// Joins a new member at each of its layers, from the highest down. At the layers that it shares with others the entry stands.
pub(crate) fn join_layers<N: Nodes, L: Ledger>(
    alloc: Global,
    edit: &mut Edit,
    base: &N,
    x: u32,
    chosen: &[List<Chosen>],
    entry: Option<u32>,
    shared: u8,
    m: u16,
    reads: &mut Steps<L>,
) -> Result<(), NoMemory>
    requires good { HasGoodLinksFor (overwritten edit.old (N.at base.now)) m }
    requires low { min_m ≤ m }
    requires layers { length chosen.now ≡ layers_at (overwritten edit.old (N.at base.now)) x }
    requires free { (layer : ℕ) → links_at (overwritten edit.old (N.at base.now)) layer x ≡ [] }
    requires chosen { (layer : ℕ) → AreChoices (overwritten edit.old (N.at base.now)) m layer (chosen_at chosen.now layer) }
    requires others { (layer : ℕ) → All (λ c. c.id ≢ x) (chosen_at chosen.now layer) }
    requires shared { IsSharedBelow (overwritten edit.old (N.at base.now)) x entry (length chosen.now) shared }
    ensures joined { OnOk result (IsJoinedFrom (overwritten edit.old (N.at base.now)) (overwritten edit.new (N.at base.now)) m x entry chosen.now 0) }
    ensures told { reads.new + length chosen.now ≤ reads.old + length chosen.now * reads_of m 0 + 1 }
{
    let mut layer = chosen.len() as u8;
    while layer > 0 {
        layer -= 1;
        let fallback = if layer < shared { entry } else { None };
        let list = &chosen[layer as usize];
        join_layer(
            alloc,
            edit,
            base,
            x,
            layer,
            list.as_slice(),
            fallback,
            m,
            reads,
        )?;
    }
    Ok(())
}
