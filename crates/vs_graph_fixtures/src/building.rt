//! Members of small graphs, put in and linked one by one.
ghost use Rattle.std.specs.Prelude.{◌≡◌, ◌<◌, ◌^◌, ℕ, Some, IfOk, IsSome, IsSomeAnd, unwrap_or, OnOk};
ghost use Rattle.vs_defs.specs.Words.{FitsDimension};
ghost use Rattle.vs_graph.specs.Edits.{changed, overwritten};
ghost use Rattle.vs_graph.specs.Good.{IsGood};
ghost use Rattle.vs_graph.specs.Newcomer.{IsNewcomer};
ghost use Rattle.vs_graph_fixtures.specs.Members.{IsPlain};

use crate::picking::{is_new_name, pick};
use std::alloc::Global;
use std::sync::ledger::Ledger;
use vs_graph::{
    Attr, Edit, Graph, InlineBody, LayerLinks, Node, Nodes, RefCounted, Steps, put_newcomer,
};
use vs_link::link_layer;
use vs_outside::{NoMemory, Text};

/// An attribute, where the text isn't empty.
pub fn attr_of(alloc: Global, text: &[u8]) -> Result<Option<RefCounted<Attr>>, NoMemory> {
    if text.is_empty() {
        return Ok(None);
    }
    let text = Text::from_slice(alloc, text)?;
    Ok(Some(RefCounted::new(alloc, Attr { text })?))
}

/// A node of level 0 without links. An empty attribute is none.
pub fn member(alloc: Global, name: &[u8], words: &[u64], attr: &[u8]) -> Result<Node, NoMemory>
    ensures { IfOk result (IsPlain words.now) }
{
    Ok(Node {
        body: InlineBody::new(alloc, name, words)?,
        attr: attr_of(alloc, attr)?,
        level: 0,
        links: LayerLinks::new(alloc, 0)?,
    })
}

/// The change that adds a member.
fn addition<N: Nodes, L: Ledger>(
    alloc: Global,
    graph: &Graph<N>,
    id: u32,
    node: Node,
    candidates: &[u32],
    reads: &mut Steps<L>,
) -> Result<Edit, NoMemory>
    requires newcomer { IsNewcomer (N.at graph.now.nodes) id node }
    requires plain { node.level ≡ 0 }
    requires fits { FitsDimension graph.now.dim node.body.bits }
    ensures { IfOk result (λ edit. IsGood (overwritten edit (N.at graph.now.nodes)) (Some (unwrap_or graph.now.entry id)) graph.now.m graph.now.dim) }
{
    let nodes = graph.nodes();
    let m = graph.m();
    let mut edit = Edit::new(alloc);
    put_newcomer(&mut edit, nodes, id, node)?;
    let chosen = pick(alloc, &edit, nodes, candidates, id, m, reads)?;
    link_layer(
        alloc,
        &mut edit,
        nodes,
        id,
        0,
        chosen.as_slice(),
        graph.entry(),
        m,
        reads,
    )?;
    Ok(edit)
}

/// Adds a member at layer 0 that is linked to the candidates, as far as they accept it. False where there is no id left, or where its
/// name is taken.
pub fn add_member<N: Nodes, L: Ledger>(
    alloc: Global,
    graph: &mut Graph<N>,
    node: Node,
    candidates: &[u32],
    reads: &mut Steps<L>,
) -> Result<bool, NoMemory>
    requires plain { IsPlain node.body.bits node }
    requires fits { FitsDimension graph.old.dim node.body.bits }
    ensures dim { graph.new.dim ≡ graph.old.dim }
{
    let id = graph.nodes().limit();
    if id >= 1048576 || !is_new_name(graph.nodes(), node.body.name(), reads) {
        return Ok(false);
    }
    let edit = addition(alloc, graph, id, node, candidates, reads)?;
    if edit.end() > 1048576 {
        return Ok(false);
    }
    let entry = graph.entry().unwrap_or(id);
    graph.replace(edit, Some(entry))?;
    Ok(true)
}

/// Adds a member with a vector of 64 bits.
pub fn add_word<N: Nodes, L: Ledger>(
    alloc: Global,
    graph: &mut Graph<N>,
    name: &[u8],
    word: u64,
    attr: &[u8],
    candidates: &[u32],
    reads: &mut Steps<L>,
) -> Result<bool, NoMemory>
    requires { graph.old.dim ≡ 64 }
    ensures { graph.new.dim ≡ 64 }
{
    let node = member(alloc, name, &[word], attr)?;
    add_member(alloc, graph, node, candidates, reads)
}
