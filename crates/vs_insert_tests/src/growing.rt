//! Graphs grown by drafts and commits.
ghost use Rattle.std.specs.Prelude.{◌≡◌, ◌≤◌, ℕ, List as Items, IfOk, OnOk, length};
ghost use Rattle.vs_defs.specs.Words.{FitsDimension};
ghost use Rattle.vs_graph.specs.Replaced.{IsSameGraph};
ghost use Rattle.vs_insert.specs.declared.draft.Chosen.{Chosen};
ghost use Rattle.vs_insert.specs.Added.{AreDrafted};

use std::alloc::Global;
use std::sync::ledger::Ledger;
use vs_bits::{Bits, Sign};
use vs_graph::{FreshNodes, Graph, InlineBody, Nodes, Steps};
use vs_graph_fixtures::{attr_of, is_new_name, word_at};
use vs_insert::{Draft, commit, prepare};
use vs_outside::NoMemory;
use vs_slot::Slot;

/// A member that is to be added: its name, its bits from the lowest on, its level, of which 15 is the greatest, and its attribute, where
/// that isn't empty.
#[derive(Clone, Copy)]
pub struct NewMember<'a> {
    pub name: &'a [u8],
    pub word: u64,
    pub level: u8,
    pub attr: &'a [u8],
}

/// A member without an attribute.
pub fn member<'a>(name: &'a [u8], word: u64, level: u8) -> NewMember<'a> {
    NewMember {
        name,
        word,
        level,
        attr: b"",
    }
}

/// The lowest bits of a word, as many as a dimension has.
pub fn bits_of(alloc: Global, dim: u32, word: u64) -> Result<Bits, NoMemory>
    requires some { 1 ≤ dim }
    requires few { dim ≤ 64 }
    ensures { IfOk result (λ bits. length bits ≡ dim) }
{
    let mut signs = [Sign::Minus; 64];
    for place in 0..64usize {
        if word >> place & 1 == 1 {
            signs[place] = Sign::Plus;
        }
    }
    Bits::from_signs(alloc, &signs[..dim as usize])
}

/// A draft by beams of width 8.
pub fn draft_of<N: Nodes, L: Ledger>(
    alloc: Global,
    graph: &Graph<N>,
    member: NewMember<'_>,
    slot: &mut Slot,
    reads: &mut Steps<L>,
) -> Result<Draft, NoMemory>
    requires { graph.now.dim ≤ 64 }
    ensures fits { IfOk result (λ draft. FitsDimension graph.now.dim draft.body.bits) }
    ensures level { IfOk result (λ draft. draft.level ≤ 15) }
    ensures drafted { IfOk result (λ draft. AreDrafted (N.at graph.now.nodes) graph.now.m draft.level draft.chosen) }
{
    let bits = bits_of(alloc, graph.dim(), member.word)?;
    let body = InlineBody::new(alloc, member.name, bits.words())?;
    prepare(alloc, graph, 0, body, member.level.min(15), 8, slot, reads)
}

/// Commits a draft at a new id. False where there is no id left, or where its name is taken.
pub fn settle<N: Nodes, L: Ledger>(
    alloc: Global,
    graph: &mut Graph<N>,
    draft: Draft,
    attr: &[u8],
    reads: &mut Steps<L>,
) -> Result<bool, NoMemory>
    requires dim { graph.old.dim ≤ 64 }
    requires low { draft.level ≤ 15 }
    requires fits { FitsDimension graph.old.dim draft.body.bits }
    requires drafted { AreDrafted (N.at graph.old.nodes) graph.old.m draft.level draft.chosen }
    ensures dim { graph.new.dim ≡ graph.old.dim }
    ensures kept { OnOk result ((level : ℕ) (chosen : Items (Items Chosen)) → AreDrafted (N.at graph.old.nodes) graph.old.m level chosen → AreDrafted (N.at graph.new.nodes) graph.new.m level chosen) }
{
    let id = graph.nodes().limit();
    if id >= 1048576 || !is_new_name(graph.nodes(), draft.body.name(), reads) {
        return Ok(false);
    }
    let attr = attr_of(alloc, attr)?;
    commit(alloc, graph, draft, id, attr, reads)?;
    Ok(true)
}

/// Adds a member by a draft of this graph.
pub fn add<N: Nodes, L: Ledger>(
    alloc: Global,
    graph: &mut Graph<N>,
    member: NewMember<'_>,
    slot: &mut Slot,
    reads: &mut Steps<L>,
) -> Result<bool, NoMemory>
    requires { graph.old.dim ≤ 64 }
    ensures dim { graph.new.dim ≡ graph.old.dim }
    ensures kept { OnOk result ((level : ℕ) (chosen : Items (Items Chosen)) → AreDrafted (N.at graph.old.nodes) graph.old.m level chosen → AreDrafted (N.at graph.new.nodes) graph.new.m level chosen) }
{
    let draft = draft_of(alloc, graph, member, slot, reads)?;
    settle(alloc, graph, draft, member.attr, reads)
}

/// Adds so many members of level 0, each by a draft of the graph as it is now, so that none chooses another of them. Each bears its name
/// as its attribute.
pub fn add_unseen<N: Nodes, L: Ledger>(
    alloc: Global,
    graph: &mut Graph<N>,
    count: u16,
    slot: &mut Slot,
    reads: &mut Steps<L>,
) -> Result<(), NoMemory>
    requires { graph.old.dim ≤ 64 }
    ensures dim { graph.new.dim ≡ graph.old.dim }
    ensures kept { OnOk result ((level : ℕ) (chosen : Items (Items Chosen)) → AreDrafted (N.at graph.old.nodes) graph.old.m level chosen → AreDrafted (N.at graph.new.nodes) graph.new.m level chosen) }
{
    let first = graph.snapshot()?;
    for number in 0..count {
        let name = number.to_be_bytes();
        let word = word_at(u64::from(number));
        let draft = draft_of(alloc, &first, member(&name, word, 0), slot, reads)?;
        settle(alloc, graph, draft, &name, reads)?;
    }
    Ok(())
}

/// The vector of a member among so many: twenty are a hub, without a pattern, and the leaves that have one bit more or less.
fn vector_at(number: u16) -> u64 {
    let hub = word_at(u64::from(number / 20));
    match number % 20 {
        0 => hub,
        leaf => hub ^ (1 << leaf),
    }
}

/// A graph of so many members with M 4. The level of each is drawn without a pattern: three of four stay at the level below. Every
/// other one bears its name as its attribute.
pub fn grown<N: FreshNodes, L: Ledger>(
    alloc: Global,
    dim: u32,
    count: u16,
    slot: &mut Slot,
    reads: &mut Steps<L>,
) -> Result<Graph<N>, NoMemory>
    requires some { 1 ≤ dim }
    requires few { dim ≤ 64 }
    ensures { IfOk result (λ graph. graph.dim ≡ dim) }
{
    let mut graph = Graph::new(N::fresh(alloc)?, 4, dim);
    for number in 0..count {
        let name = number.to_be_bytes();
        let one = NewMember {
            name: &name,
            word: vector_at(number),
            level: (word_at(u64::from(number)).trailing_zeros() / 2).min(15) as u8,
            attr: if number % 2 == 0 { b"" } else { &name },
        };
        add(alloc, &mut graph, one, slot, reads)?;
    }
    Ok(graph)
}
