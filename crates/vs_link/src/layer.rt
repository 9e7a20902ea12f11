//! A member joined at one layer: its chosen are offered in order, and where none accepts, one is made to. Keeps links good, and nobody
//! loses its last link.
ghost use Rattle.std.specs.Prelude.{◌≡◌, ◌≢◌, ◌<◌, ◌≤◌, ◌+◌, ◌*◌, ℕ, [], Some, None, OnOk, List, length, map, option_map};
ghost use Rattle.vs_defs.specs.Limits.{min_m};
ghost use Rattle.vs_defs.specs.Insertion.{SameLinks};
ghost use Rattle.vs_defs.specs.Linking as defs;
ghost use Rattle.vs_graph.specs.Edits.{overwritten};
ghost use Rattle.vs_graph.specs.Standing.{AreIds, members_of, name_of, named_links};
ghost use Rattle.vs_graph.specs.Good.{links_at, most_links, StandsAt, AreLinksGood, body_at, layers_at, HasGoodLinksFor};
ghost use Rattle.vs_graph.specs.Bodies.{AreAlike};
ghost use Rattle.vs_graph.specs.GoodTable.{IsGoodTable, KeepsLinked};
ghost use Rattle.vs_graph.specs.Relinks.{RelinksBy};
ghost use Rattle.vs_link.specs.Linked.{linked, target, AreChosen, IsFallback};

use crate::offers::{accept, force};
use std::alloc::Global;
use std::sync::ledger::Ledger;
use vs_graph::{Edit, Nodes, Steps};
use vs_outside::NoMemory;

/// Whom a member is joined to where nobody accepts it.
fn target_of(chosen: &[u32], fallback: Option<u32>) -> Option<u32>
    ensures { result ≡ target chosen.now fallback }
{
    match chosen.first() {
        Some(y) => Some(*y),
        None => fallback,
    }
}

/// Joins `x` at a layer where a member may have `most` links.
pub(crate) fn link_at<N: Nodes, L: Ledger>(
    alloc: Global,
    edit: &mut Edit,
    base: &N,
    x: u32,
    layer: u8,
    chosen: &[u32],
    fallback: Option<u32>,
    most: usize,
    reads: &mut Steps<L>,
) -> Result<(), NoMemory>
    requires alike { AreAlike (body_at (overwritten edit.old (N.at base.now))) }
    requires two { 1 < most }
    requires good { IsGoodTable (layers_at (overwritten edit.old (N.at base.now))) layer most (links_at (overwritten edit.old (N.at base.now)) layer) }
    requires x_stands { layer < layers_at (overwritten edit.old (N.at base.now)) x }
    requires free { links_at (overwritten edit.old (N.at base.now)) layer x ≡ [] }
    requires chosen { AreChosen (layers_at (overwritten edit.old (N.at base.now))) layer most x chosen.now }
    requires fallback { chosen.now ≡ [] → IsFallback (layers_at (overwritten edit.old (N.at base.now))) layer x fallback }
    ensures links { OnOk result (RelinksBy (N.at base.now) edit.old edit.new layer
        (λ t. linked (body_at (overwritten edit.old (N.at base.now))) most t x chosen.now fallback)) }
    ensures told { reads.new ≤ reads.old + (length chosen.now * (most + 4) + (most + 4)) }
{
    let mut alone = true;
    for y in chosen {
        if accept(alloc, edit, base, x, *y, layer, most, reads)? {
            alone = false;
        }
    }
    if !alone {
        return Ok(());
    }
    match target_of(chosen, fallback) {
        Some(y) => force(alloc, edit, base, x, y, layer, most, reads),
        None => Ok(()),
    }
}

/// How many links a member may have at a layer.
fn most_of(m: u16, layer: u8) -> usize
    ensures { result ≡ most_links m layer }
{
    if layer == 0 {
        2 * m as usize
    } else {
        m as usize
    }
}

/// Joins a member at a layer at which it has no link.
pub fn link_layer<N: Nodes, L: Ledger>(
    alloc: Global,
    edit: &mut Edit,
    base: &N,
    x: u32,
    layer: u8,
    chosen: &[u32],
    fallback: Option<u32>,
    m: u16,
    reads: &mut Steps<L>,
) -> Result<(), NoMemory>
    requires good { HasGoodLinksFor (overwritten edit.old (N.at base.now)) m }
    requires low { min_m ≤ m }
    requires x_stands { StandsAt (overwritten edit.old (N.at base.now)) layer x }
    requires free { links_at (overwritten edit.old (N.at base.now)) layer x ≡ [] }
    requires chosen { AreChosen (layers_at (overwritten edit.old (N.at base.now))) layer m x chosen.now }
    requires fallback { chosen.now ≡ [] → IsFallback (layers_at (overwritten edit.old (N.at base.now))) layer x fallback }
    ensures links { OnOk result (RelinksBy (N.at base.now) edit.old edit.new layer
        (λ t. linked (body_at (overwritten edit.old (N.at base.now))) (most_links m layer) t x chosen.now fallback)) }
    ensures named { OnOk result ((dim : ℕ) (ids : List ℕ) → AreLinksGood (overwritten edit.old (N.at base.now)) m dim → AreIds (overwritten edit.old (N.at base.now)) ids
        → SameLinks (named_links (overwritten edit.new (N.at base.now)) ids)
        (defs.linked m (members_of (overwritten edit.old (N.at base.now)) dim ids) (named_links (overwritten edit.old (N.at base.now)) ids) (name_of (overwritten edit.old (N.at base.now)) x) layer
        (map (name_of (overwritten edit.old (N.at base.now))) chosen.now) (option_map (name_of (overwritten edit.old (N.at base.now))) fallback))) }
    ensures good { OnOk result ((dim : ℕ) → AreLinksGood (overwritten edit.old (N.at base.now)) m dim → AreLinksGood (overwritten edit.new (N.at base.now)) m dim) }
    ensures kept { OnOk result (KeepsLinked (links_at (overwritten edit.old (N.at base.now)) layer) (links_at (overwritten edit.new (N.at base.now)) layer)) }
    ensures own { OnOk result ((y : ℕ) → y ≢ x → StandsAt (overwritten edit.old (N.at base.now)) layer y → 0 < length (links_at (overwritten edit.new (N.at base.now)) layer x)) }
    ensures told { reads.new ≤ reads.old + (m * (most_links m layer + 4) + (most_links m layer + 4)) }
{
    let most = most_of(m, layer);
    link_at(alloc, edit, base, x, layer, chosen, fallback, most, reads)
}
