//! A graph in which a member is replaced: a snapshot of it from which the member is taken out whole, and to which it is then added at the
//! same id.
ghost use Rattle.std.specs.Prelude.{◌≡◌, ◌<◌, ◌≤◌, ℕ, IsSome, IsSomeAnd, IfOk, length};
ghost use Rattle.vs_bits.specs.Requests.{add_of};
ghost use Rattle.vs_graph.specs.Standing.{name_of};
ghost use Rattle.vs_set.specs.Again.{IsOut, IsReplaced};

use crate::attr::attr_copy;
use crate::growing::grow;
use std::alloc::Global;
use std::sync::ledger::Ledger;
use vs_bits::Add;
use vs_graph::{Attr, Graph, Nodes, RefCounted, Steps};
use vs_insert::without;
use vs_outside::NoMemory;
use vs_slot::Slot;

/// A graph in which a member was replaced, and whether it had an attribute and has one.
#[derive(Drop)]
pub(crate) struct Replaced<N: Nodes> {
    pub(crate) graph: Graph<N>,
    pub(crate) had: bool,
    pub(crate) has: bool,
}

/// The attribute of a live id.
fn attr_at<N: Nodes, L: Ledger>(
    graph: &Graph<N>,
    id: u32,
    reads: &mut Steps<L>,
) -> Result<Option<RefCounted<Attr>>, NoMemory>
    requires { IsSome (N.at graph.now.nodes id) }
    ensures { IfOk result (λ attr. IsSomeAnd (N.at graph.now.nodes id) (λ node. attr ≡ node.attr)) }
{
    match graph.nodes().get(id, reads) {
        Some(node) => attr_copy(&node.attr),
        None => unreachable!(),
    }
}

/// A snapshot without a member.
fn taken_out<N: Nodes, L: Ledger>(
    alloc: Global,
    graph: &Graph<N>,
    id: u32,
    slot: &mut Slot,
    reads: &mut Steps<L>,
) -> Result<Graph<N>, NoMemory>
    requires { IsSome (N.at graph.now.nodes id) }
    ensures { IfOk result (λ left. IsOut N.at graph.now left id) }
{
    let _nodes = graph.nodes();
    let mut left = graph.snapshot()?;
    let (edit, entry) = without(alloc, &left, id, slot, reads)?;
    left.replace(edit, entry)?;
    Ok(left)
}

/// A snapshot in which the member at an id is replaced by that of a VADD of its name.
pub(crate) fn replace_member<N: Nodes, L: Ledger>(
    alloc: Global,
    graph: &Graph<N>,
    id: u32,
    add: &Add,
    level: u8,
    slot: &mut Slot,
    reads: &mut Steps<L>,
) -> Result<Replaced<N>, NoMemory>
    requires live { IsSome (N.at graph.now.nodes id) }
    requires name { name_of (N.at graph.now.nodes) id ≡ add.now.name }
    requires dim { length add.now.bits ≡ graph.now.dim }
    requires level { level ≤ 15 }
    requires wide { 1 ≤ add.now.ef }
    ensures { IfOk result (λ r. IsReplaced N.at graph.now r.graph id (add_of add.now) level r.had r.has) }
{
    let attr = attr_at(graph, id, reads)?;
    let had = attr.is_some();
    let mut graph = taken_out(alloc, graph, id, slot, reads)?;
    let has = grow(alloc, &mut graph, id, add, attr, level, slot, reads)?;
    Ok(Replaced { graph, had, has })
}
