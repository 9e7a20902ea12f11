//! One layer of a removal: the member's links go at both ends, and its former neighbours are paired.
ghost use Rattle.std.specs.Prelude.{◌≡◌, ◌≢◌, ◌<◌, ◌≤◌, ◌+◌, ℕ, List as Items, [], Some, IfOk, OnOk, All, length};
ghost use Rattle.vs_graph.specs.Edits.{overwritten};
ghost use Rattle.vs_graph.specs.Good.{links_at, StandsAt, AreLinksGood, HasGoodLinks};
ghost use Rattle.vs_graph.specs.Good.{body_at};
ghost use Rattle.vs_graph.specs.Table.{put};
ghost use Rattle.vs_graph.specs.GoodTable.{IsGoodTable};
ghost use Rattle.vs_graph.specs.Good.{layers_at};
ghost use Rattle.vs_graph.specs.Relinks.{RelinksBy};
ghost use Rattle.vs_unlink.specs.declared.Pair.{Pair};
ghost use Rattle.vs_unlink.specs.Pairs.{detached, paired, IsPairing};

use crate::Pair;
use crate::pairs::pairing;
use std::alloc::Global;
use std::sync::ledger::Ledger;
use vs_graph::{Edit, Nodes, Steps, add_link, drop_link, links, live_copy, live_node};
use vs_outside::{List, NoMemory};

/// Leaves `x` without links at a layer.
fn clear_links<N: Nodes, L: Ledger>(
    alloc: Global,
    edit: &mut Edit,
    base: &N,
    x: u32,
    layer: u8,
    reads: &mut Steps<L>,
) -> Result<(), NoMemory>
    requires { layer < layers_at (overwritten edit.old (N.at base.now)) x }
    ensures { OnOk result (RelinksBy (N.at base.now) edit.old edit.new layer (λ t. put t x [])) }
{
    let mut own = live_copy(alloc, edit, base, x, reads)?;
    own.links.clear(layer);
    edit.put(x, own)
}

/// Takes away the links of `x` at a layer, and answers its former neighbours.
fn detach<N: Nodes, L: Ledger>(
    alloc: Global,
    edit: &mut Edit,
    base: &N,
    x: u32,
    layer: u8,
    reads: &mut Steps<L>,
) -> Result<List<u32>, NoMemory>
    requires good { (most : ℕ) × IsGoodTable (layers_at (overwritten edit.old (N.at base.now))) layer most (links_at (overwritten edit.old (N.at base.now)) layer) }
    requires stands { layer < layers_at (overwritten edit.old (N.at base.now)) x }
    ensures links { OnOk result (RelinksBy (N.at base.now) edit.old edit.new layer (λ t. detached t x)) }
    ensures former { IfOk result (λ former. former ≡ links_at (overwritten edit.old (N.at base.now)) layer x) }
{
    let former = List::from_slice(alloc, links(live_node(edit, base, x, reads), layer))?;
    for y in former.as_slice() {
        drop_link(alloc, edit, base, *y, x, layer, reads)?;
    }
    clear_links(alloc, edit, base, x, layer, reads)?;
    Ok(former)
}

/// Joins each of some pairs.
fn join_all<N: Nodes, L: Ledger>(
    alloc: Global,
    edit: &mut Edit,
    base: &N,
    added: &[Pair],
    layer: u8,
    reads: &mut Steps<L>,
) -> Result<(), NoMemory>
    requires { All (λ p. (layer < layers_at (overwritten edit.old (N.at base.now)) p.one) × (layer < layers_at (overwritten edit.old (N.at base.now)) p.other)) added.now }
    ensures { OnOk result (RelinksBy (N.at base.now) edit.old edit.new layer (λ t. paired t added.now)) }
{
    for pair in added {
        let p = *pair;
        add_link(alloc, edit, base, p.other, p.one, layer, reads)?;
        add_link(alloc, edit, base, p.one, p.other, layer, reads)?;
    }
    Ok(())
}

/// Takes `x` out at a layer: its links go, and its former neighbours, which are answered, are paired.
pub(crate) fn unlink_layer<N: Nodes, L: Ledger>(
    alloc: Global,
    edit: &mut Edit,
    base: &N,
    x: u32,
    layer: u8,
    reads: &mut Steps<L>,
) -> Result<List<u32>, NoMemory>
    requires good { HasGoodLinks (overwritten edit.old (N.at base.now)) }
    requires stands { StandsAt (overwritten edit.old (N.at base.now)) layer x }
    ensures former { IfOk result (λ former. former ≡ links_at (overwritten edit.old (N.at base.now)) layer x) }
    ensures links { OnOk result ((added : Items Pair) × IsPairing (body_at (overwritten edit.old (N.at base.now))) (detached (links_at (overwritten edit.old (N.at base.now)) layer) x) (links_at (overwritten edit.old (N.at base.now)) layer x) added
        × RelinksBy (N.at base.now) edit.old edit.new layer (λ t. paired (detached t x) added)) }
    ensures good { OnOk result ((m dim : ℕ) → AreLinksGood (overwritten edit.old (N.at base.now)) m dim → AreLinksGood (overwritten edit.new (N.at base.now)) m dim) }
{
    let former = detach(alloc, edit, base, x, layer, reads)?;
    let added = pairing(alloc, edit, base, former.as_slice(), layer, reads)?;
    join_all(alloc, edit, base, added.as_slice(), layer, reads)?;
    Ok(former)
}
