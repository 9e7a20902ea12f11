//! A draft put into a graph that may have changed since: the member gets the draft's lists, by a bounded number of reads and no search.
ghost use Rattle.std.specs.Prelude.{◌≡◌, ◌≢◌, ◌<◌, ◌≤◌, ◌+◌, ◌^◌, ℕ, List as Items, None, OnOk, OnErr, IfOk, IfSome, length, option_map};
ghost use Rattle.vs_defs.specs.Limits.{max_level};
ghost use Rattle.vs_defs.specs.Words.{FitsDimension};
ghost use Rattle.vs_defs.specs.Counts.{commit_reads};
ghost use Rattle.vs_graph.specs.Edits.{overwritten};
ghost use Rattle.vs_graph.specs.Good.{IsGood};
ghost use Rattle.vs_graph.specs.Replaced.{IsSameGraph};
ghost use Rattle.vs_insert.specs.Added.{AreDrafted, IsAdded, entry_after};

use crate::Draft;
use crate::joining::{join_layers, shared_layers};
use std::alloc::Global;
use std::sync::ledger::Ledger;
use vs_graph::{Attr, Edit, Graph, LayerLinks, Node, Nodes, RefCounted, Steps, put_newcomer};
use vs_outside::NoMemory;

/// The change that adds a draft's member, and the entry after it.
fn addition<N: Nodes, L: Ledger>(
    alloc: Global,
    graph: &Graph<N>,
    draft: Draft,
    id: u32,
    attr: Option<RefCounted<Attr>>,
    reads: &mut Steps<L>,
) -> Result<(Edit, Option<u32>), NoMemory>
    requires free { N.at graph.now.nodes id ≡ None }
    requires small { id < 2 ^ 20 }
    requires level { draft.level ≤ max_level }
    requires name { (q : ℕ) → IfSome (N.at graph.now.nodes q) (λ other. other.body.name ≢ draft.body.name) }
    requires fits { FitsDimension graph.now.dim draft.body.bits }
    requires chosen { AreDrafted (N.at graph.now.nodes) graph.now.m draft.level draft.chosen }
    ensures good { IfOk result (λ made. IsGood (overwritten made.0 (N.at graph.now.nodes)) made.1 graph.now.m graph.now.dim) }
    ensures added { IfOk result (λ made. IsAdded (N.at graph.now.nodes) (overwritten made.0 (N.at graph.now.nodes)) graph.now.entry graph.now.m graph.now.dim id attr draft) }
    ensures entry { IfOk result (λ made. made.1 ≡ entry_after (N.at graph.now.nodes) graph.now.entry id draft.level) }
    ensures told { reads.new ≤ reads.old + commit_reads draft.level graph.now.m }
{
    let nodes = graph.nodes();
    let entry = graph.entry();
    let Draft {
        cut: _,
        level,
        chosen,
        body,
    } = draft;
    let shared = shared_layers(nodes, entry, level, reads);
    let node = Node {
        body,
        attr,
        level,
        links: LayerLinks::new(alloc, level)?,
    };
    let mut edit = Edit::new(alloc);
    put_newcomer(&mut edit, nodes, id, node)?;
    join_layers(
        alloc,
        &mut edit,
        nodes,
        id,
        chosen.as_slice(),
        entry,
        shared,
        graph.m(),
        reads,
    )?;
    let after = if shared <= level { Some(id) } else { entry };
    Ok((edit, after))
}

/// Adds a draft's member: at each of its layers it is linked to those that the draft chose, in the graph as it is now, which may have
/// changed since the draft was made: of a chosen one its name counts, and that it stands at the layer. Where its level is greater than the entry's, it becomes the entry. It makes no search, and publishes
/// once; after a refusal the graph is as it was.
pub fn commit<N: Nodes, L: Ledger>(
    alloc: Global,
    graph: &mut Graph<N>,
    draft: Draft,
    id: u32,
    attr: Option<RefCounted<Attr>>,
    reads: &mut Steps<L>,
) -> Result<(), NoMemory>
    requires free { N.at graph.old.nodes id ≡ None }
    requires small { id < 2 ^ 20 }
    requires level { draft.level ≤ max_level }
    requires name { (q : ℕ) → IfSome (N.at graph.old.nodes q) (λ other. other.body.name ≢ draft.body.name) }
    requires fits { FitsDimension graph.old.dim draft.body.bits }
    requires chosen { AreDrafted (N.at graph.old.nodes) graph.old.m draft.level draft.chosen }
    ensures added { OnOk result (IsAdded (N.at graph.old.nodes) (N.at graph.new.nodes) graph.old.entry graph.old.m graph.old.dim id attr draft) }
    ensures entry { OnOk result (graph.new.entry ≡ entry_after (N.at graph.old.nodes) graph.old.entry id draft.level) }
    ensures m { graph.new.m ≡ graph.old.m }
    ensures dim { graph.new.dim ≡ graph.old.dim }
    ensures told { reads.new ≤ reads.old + commit_reads draft.level graph.old.m }
    ensures err { OnErr result (IsSameGraph N.at graph.new graph.old) }
{
    let (edit, entry) = addition(alloc, graph, draft, id, attr, reads)?;
    graph.replace(edit, entry)
}
