//! A graph with the member of a VADD more.
ghost use Rattle.std.specs.Prelude.{◌≡◌, ◌≢◌, ◌<◌, ◌≤◌, ◌^◌, ℕ, None, IfOk, IfSome, OnOk, OnErr, length};
ghost use Rattle.vs_bits.specs.Requests.{add_of};
ghost use Rattle.vs_defs.specs.PlainStep.{attr_after};
ghost use Rattle.vs_defs.specs.Words.{FitsDimension, bits_of_words};
ghost use Rattle.vs_graph.specs.Replaced.{IsSameGraph};
ghost use Rattle.vs_set.specs.Grown.{IsGrown, IsInserted, text_of};

use crate::attr::attr_of;
use std::alloc::Global;
use std::sync::ledger::Ledger;
use vs_bits::Add;
use vs_graph::{Attr, Graph, InlineBody, Nodes, RefCounted, Steps};
use vs_insert::{commit, prepare};
use vs_outside::NoMemory;
use vs_slot::Slot;

/// The body of a VADD's member.
fn body_of(alloc: Global, add: &Add) -> Result<InlineBody, NoMemory>
    ensures name { IfOk result (λ body. body.name ≡ add.now.name) }
    ensures fits { IfOk result (λ body. FitsDimension (length add.now.bits) body.bits) }
    ensures bits { IfOk result (λ body. bits_of_words (length add.now.bits) body.bits ≡ add.now.bits) }
{
    InlineBody::new(alloc, add.name.as_slice(), add.bits.words())
}

/// The attribute of a VADD's member: the one that is given, or the one that it had.
fn attr_with(
    alloc: Global,
    add: &Add,
    had: Option<RefCounted<Attr>>,
) -> Result<Option<RefCounted<Attr>>, NoMemory>
    ensures { IfOk result (λ attr. text_of attr ≡ attr_after add.now.attr (text_of had)) }
{
    match &add.attr {
        None => Ok(had),
        Some(text) => attr_of(alloc, Some(text.try_clone()?)),
    }
}

/// Puts a body and an attribute at a free id, by beams in the graph itself.
fn insert<N: Nodes, L: Ledger>(
    alloc: Global,
    graph: &mut Graph<N>,
    id: u32,
    body: InlineBody,
    attr: Option<RefCounted<Attr>>,
    level: u8,
    ef: u32,
    slot: &mut Slot,
    reads: &mut Steps<L>,
) -> Result<(), NoMemory>
    requires free { N.at graph.old.nodes id ≡ None }
    requires small { id < 2 ^ 20 }
    requires level { level ≤ 15 }
    requires name { (q : ℕ) → IfSome (N.at graph.old.nodes q) (λ other. other.body.name ≢ body.name) }
    requires fits { FitsDimension graph.old.dim body.bits }
    requires wide { 0 < ef }
    ensures inserted { OnOk result (IsInserted N.at graph.old graph.new id body attr level ef) }
    ensures err { OnErr result (IsSameGraph N.at graph.new graph.old) }
{
    let _before = graph.nodes();
    let draft = prepare(alloc, graph, 0, body, level, ef, slot, reads)?;
    commit(alloc, graph, draft, id, attr, reads)?;
    let _nodes = graph.nodes();
    Ok(())
}

/// Puts the member of a VADD at a free id, and tells whether it has an attribute: the one that is given, or the one that it had. After a
/// refusal the graph is as it was.
pub(crate) fn grow<N: Nodes, L: Ledger>(
    alloc: Global,
    graph: &mut Graph<N>,
    id: u32,
    add: &Add,
    had: Option<RefCounted<Attr>>,
    level: u8,
    slot: &mut Slot,
    reads: &mut Steps<L>,
) -> Result<bool, NoMemory>
    requires dim { length add.now.bits ≡ graph.old.dim }
    requires free { N.at graph.old.nodes id ≡ None }
    requires small { id < 2 ^ 20 }
    requires level { level ≤ 15 }
    requires name { (q : ℕ) → IfSome (N.at graph.old.nodes q) (λ other. other.body.name ≢ add.now.name) }
    requires wide { 1 ≤ add.now.ef }
    ensures grown { IfOk result (λ has. IsGrown N.at graph.old graph.new id (add_of add.now) (text_of had) level has) }
    ensures err { OnErr result (IsSameGraph N.at graph.new graph.old) }
{
    let body = body_of(alloc, add)?;
    let attr = attr_with(alloc, add, had)?;
    let has = attr.is_some();
    insert(alloc, graph, id, body, attr, level, add.ef, slot, reads)?;
    Ok(has)
}
