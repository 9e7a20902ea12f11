//! Removals for tests.
ghost use Rattle.std.specs.Prelude.{◌≤◌};

use std::alloc::Global;
use std::sync::ledger::Ledger;
use vs_graph::{Edit, Graph, Nodes, Steps};
use vs_insert::without;
use vs_outside::{List, NoMemory};
use vs_slot::Slot;
use vs_unlink::{Orphan, unlink};

/// Removes a member. False where there is no such member.
pub fn remove<N: Nodes, L: Ledger>(
    alloc: Global,
    graph: &mut Graph<N>,
    id: u32,
    slot: &mut Slot,
    reads: &mut Steps<L>,
) -> Result<bool, NoMemory> {
    if graph.nodes().get(id, reads).is_none() {
        return Ok(false);
    }
    let (edit, entry) = without(alloc, graph, id, slot, reads)?;
    graph.replace(edit, entry)?;
    Ok(true)
}

/// Whom the removal of a member leaves without a link; nobody where there is no such member. The graph stays as it is.
pub fn orphans_of<N: Nodes, L: Ledger>(
    alloc: Global,
    graph: &Graph<N>,
    id: u32,
    reads: &mut Steps<L>,
) -> Result<List<Orphan>, NoMemory> {
    let nodes = graph.nodes();
    let mut edit = Edit::new(alloc);
    if edit.node(nodes, id, reads).is_none() {
        return Ok(List::new(alloc));
    }
    unlink(alloc, &mut edit, nodes, id, reads)
}
