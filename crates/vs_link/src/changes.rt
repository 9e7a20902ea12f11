//! A link made, or given in place of another, at both ends.
ghost use Rattle.std.specs.Prelude.{◌≡◌, ◌<◌, ◌+◌, ◌≤◌, Some, OnOk};
ghost use Rattle.vs_graph.specs.Edits.{overwritten};
ghost use Rattle.vs_graph.specs.Good.{links_at, layers_at};
ghost use Rattle.vs_graph.specs.Table.{joined, displaced};
ghost use Rattle.vs_graph.specs.Relinks.{RelinksBy};

use std::alloc::Global;
use std::sync::ledger::Ledger;
use vs_graph::{Edit, Node, Nodes, Steps, add_link, drop_link};
use vs_outside::NoMemory;

/// Links `x` and `y`, whose node is at hand.
pub(crate) fn join<N: Nodes, L: Ledger>(
    alloc: Global,
    edit: &mut Edit,
    base: &N,
    x: u32,
    y: u32,
    mut node: Node,
    layer: u8,
    reads: &mut Steps<L>,
) -> Result<(), NoMemory>
    requires there { overwritten edit.old (N.at base.now) y ≡ Some node }
    requires y_stands { layer < layers_at (overwritten edit.old (N.at base.now)) y }
    requires x_stands { layer < layers_at (overwritten edit.old (N.at base.now)) x }
    ensures links { OnOk result (RelinksBy (N.at base.now) edit.old edit.new layer (λ t. joined t x y)) }
    ensures told { reads.new ≤ reads.old + 1 }
{
    node.links.push(layer, x)?;
    edit.put(y, node)?;
    add_link(alloc, edit, base, x, y, layer, reads)
}

/// Gives `y`, whose node is at hand, a link to `x` in the place of the one to `w`.
pub(crate) fn displace<N: Nodes, L: Ledger>(
    alloc: Global,
    edit: &mut Edit,
    base: &N,
    x: u32,
    y: u32,
    mut node: Node,
    w: u32,
    layer: u8,
    reads: &mut Steps<L>,
) -> Result<(), NoMemory>
    requires there { overwritten edit.old (N.at base.now) y ≡ Some node }
    requires y_stands { layer < layers_at (overwritten edit.old (N.at base.now)) y }
    requires x_stands { layer < layers_at (overwritten edit.old (N.at base.now)) x }
    requires w_stands { layer < layers_at (overwritten edit.old (N.at base.now)) w }
    ensures links { OnOk result (RelinksBy (N.at base.now) edit.old edit.new layer (λ t. displaced t x y w)) }
    ensures told { reads.new ≤ reads.old + 2 }
{
    node.links.remove(layer, w);
    node.links.push(layer, x)?;
    edit.put(y, node)?;
    drop_link(alloc, edit, base, w, y, layer, reads)?;
    add_link(alloc, edit, base, x, y, layer, reads)
}
