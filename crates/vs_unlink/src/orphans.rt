//! Those whom a removal leaves without a link, by layer from the top down, then by name.
ghost use Rattle.std.specs.Prelude.{◌≡◌, ◌++◌, ◌==◌, ℕ, List as Items, IsSome, IfOk, OnOk, All, filter, length};
ghost use Rattle.vs_graph.specs.Edits.{overwritten};
ghost use Rattle.vs_graph.specs.Good.{body_at, links_at, links_of};
ghost use Rattle.vs_unlink.specs.Orphans.{AreAlone, Lists, at_layer};

use crate::Orphan;
use crate::named::by_name;
use std::alloc::Global;
use std::sync::ledger::Ledger;
use vs_graph::{Edit, Node, Nodes, Steps, degree, links, live_node};
use vs_outside::{List, NoMemory};

/// Those of some members that have no link at a layer.
fn alone_of<N: Nodes, L: Ledger>(
    alloc: Global,
    edit: &Edit,
    base: &N,
    ids: &[u32],
    layer: u8,
    reads: &mut Steps<L>,
) -> Result<List<u32>, NoMemory>
    requires { All (λ id. IsSome (overwritten edit.now (N.at base.now) id)) ids.now }
    ensures { IfOk result (λ alone. alone ≡ filter (λ y. length (links_at (overwritten edit.now (N.at base.now)) layer y) == 0) ids.now) }
{
    let mut alone = List::new(alloc);
    for id in ids {
        if degree(live_node(edit, base, *id, reads), layer) > 0 {
            continue;
        }
        alone.push(*id)?;
    }
    Ok(alone)
}

/// Puts the orphans of a layer, former neighbours of a node, last.
fn list_layer<N: Nodes, L: Ledger>(
    alloc: Global,
    orphans: &mut List<Orphan>,
    edit: &Edit,
    base: &N,
    former: &Node,
    layer: u8,
    reads: &mut Steps<L>,
) -> Result<(), NoMemory>
    requires { All (λ id. IsSome (overwritten edit.now (N.at base.now) id)) (links_of former.now layer) }
    ensures { OnOk result ((alone : Items ℕ) × AreAlone (body_at (overwritten edit.now (N.at base.now))) (links_at (overwritten edit.now (N.at base.now)) layer) (links_of former.now layer) alone × (orphans.new ≡ orphans.old ++ at_layer layer alone)) }
{
    let alone = alone_of(alloc, edit, base, links(former, layer), layer, reads)?;
    let sorted = by_name(alloc, edit, base, alone.as_slice(), reads)?;
    for id in sorted.as_slice() {
        orphans.push(Orphan { layer, id: *id })?;
    }
    Ok(())
}

/// The orphans among the former neighbours of a node, by layer descending, then name.
pub(crate) fn orphans<N: Nodes, L: Ledger>(
    alloc: Global,
    edit: &Edit,
    base: &N,
    former: &Node,
    count: u8,
    reads: &mut Steps<L>,
) -> Result<List<Orphan>, NoMemory>
    requires { (layer : ℕ) → All (λ id. IsSome (overwritten edit.now (N.at base.now) id)) (links_of former.now layer) }
    ensures { IfOk result (λ all. Lists (body_at (overwritten edit.now (N.at base.now))) (links_at (overwritten edit.now (N.at base.now))) (links_of former.now) count 0 all) }
{
    let mut all = List::new(alloc);
    let mut layer = count;
    while layer > 0 {
        layer -= 1;
        list_layer(alloc, &mut all, edit, base, former, layer, reads)?;
    }
    Ok(all)
}
