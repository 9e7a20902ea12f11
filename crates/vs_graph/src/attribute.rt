//! The attribute of a member: another one changes nothing else in the graph.
ghost use Rattle.std.specs.Prelude.{◌≡◌, ◌≤◌, ◌+◌, ℕ, List as Items, IsSome, IfOk, OnOk, OnErr, option_map};
ghost use Rattle.vs_defs.specs.PlainStep.{with_attr};
ghost use Rattle.vs_graph.specs.Attribute.{ChangesAttr};
ghost use Rattle.vs_graph.specs.Edits.{overwritten};
ghost use Rattle.vs_graph.specs.Good.{links_at, IsGood};
ghost use Rattle.vs_graph.specs.Replaced.{IsSameGraph};
ghost use Rattle.vs_graph.specs.Standing.{AreIds, members_of, name_of, wiring_of};

use crate::{Attr, Edit, Graph, Nodes, RefCounted, Steps, live_copy};
use std::alloc::Global;
use std::sync::ledger::Ledger;
use vs_outside::NoMemory;

/// The change that gives a member another attribute.
fn attr_change<N: Nodes, L: Ledger>(
    alloc: Global,
    graph: &Graph<N>,
    id: u32,
    attr: Option<RefCounted<Attr>>,
    reads: &mut Steps<L>,
) -> Result<Edit, NoMemory>
    requires { IsSome (N.at graph.now.nodes id) }
    ensures attr { IfOk result (λ edit. ChangesAttr (N.at graph.now.nodes) (overwritten edit (N.at graph.now.nodes)) id attr) }
    ensures good { IsGood (N.at graph.now.nodes) graph.now.entry graph.now.m graph.now.dim }
    ensures told { reads.new ≤ reads.old + 1 }
{
    let nodes = graph.nodes();
    let mut edit = Edit::new(alloc);
    let mut node = live_copy(alloc, &edit, nodes, id, reads)?;
    node.attr = attr;
    edit.put(id, node)?;
    Ok(edit)
}

/// Gives a member another attribute, or none. Links, levels and the entry stay, and so do the links by names, as a list. After a refusal
/// the graph is as it was.
pub fn set_attr<N: Nodes, L: Ledger>(
    alloc: Global,
    graph: &mut Graph<N>,
    id: u32,
    attr: Option<RefCounted<Attr>>,
    reads: &mut Steps<L>,
) -> Result<(), NoMemory>
    requires live { IsSome (N.at graph.old.nodes id) }
    ensures attr { OnOk result (ChangesAttr (N.at graph.old.nodes) (N.at graph.new.nodes) id attr) }
    ensures links { OnOk result (links_at (N.at graph.new.nodes) ≡ links_at (N.at graph.old.nodes)) }
    ensures wiring { OnOk result ((ids : Items ℕ) → wiring_of (N.at graph.new.nodes) graph.new.entry ids ≡ wiring_of (N.at graph.old.nodes) graph.old.entry ids) }
    ensures ids { OnOk result ((ids : Items ℕ) → AreIds (N.at graph.old.nodes) ids → AreIds (N.at graph.new.nodes) ids) }
    ensures members { OnOk result ((ids : Items ℕ) → AreIds (N.at graph.old.nodes) ids
        → members_of (N.at graph.new.nodes) graph.old.dim ids ≡ with_attr (name_of (N.at graph.old.nodes) id) (option_map (λ a. a.text) attr) (members_of (N.at graph.old.nodes) graph.old.dim ids)) }
    ensures entry { graph.new.entry ≡ graph.old.entry }
    ensures m { graph.new.m ≡ graph.old.m }
    ensures dim { graph.new.dim ≡ graph.old.dim }
    ensures told { reads.new ≤ reads.old + 1 }
    ensures err { OnErr result (IsSameGraph N.at graph.new graph.old) }
{
    let edit = attr_change(alloc, graph, id, attr, reads)?;
    let entry = graph.entry();
    graph.replace(edit, entry)
}
