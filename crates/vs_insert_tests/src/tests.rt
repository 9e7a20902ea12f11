//! Drafts and commits: levels, the entry, attributes, and room that was lost since the draft.
ghost use Rattle.std.specs.Prelude.{◌≡◌, ◌<◌, ◌≤◌, ℕ, List as Items, OnOk};
ghost use Rattle.vs_insert.specs.declared.draft.Chosen.{Chosen};
ghost use Rattle.vs_insert.specs.Added.{AreDrafted};

use super::*;
use crate::looking::{assert_attr, assert_links};
use std::alloc::Global;
use std::marker::Brand;
use std::process::Abort;
use std::sync::ledger::{Blank, Ledger};
use vs_graph::{Graph, ListNodes, Nodes, Steps};
use vs_outside::NoMemory;
use vs_slot::Slot;

/// Three members of the levels 0, 2 and 1, the last with an attribute.
fn levels_by<A: Abort, L: Ledger>(rt: &A, alloc: Global, blank: Blank) -> Result<(), NoMemory>
    requires name { blank.name ≡ L.name }
    requires parts { blank.parts ≡ L.parts }
    requires some { 0 < L.parts }
{
    let mut reads = Steps::<L>::new(blank);
    let mut slot = Slot::new(alloc);
    let mut graph = Graph::new(ListNodes::new(alloc)?, 4, 5);
    add(alloc, &mut graph, member(b"a", 0, 0), &mut slot, &mut reads)?;
    assert_eq!(rt; graph.entry(), Some(0), "after the first");
    add(
        alloc,
        &mut graph,
        member(b"b", 15, 2),
        &mut slot,
        &mut reads,
    )?;
    assert_eq!(rt; graph.entry(), Some(1), "after a higher one");
    let c = NewMember {
        name: b"c",
        word: 7,
        level: 1,
        attr: b"{\"n\":1}",
    };
    add(alloc, &mut graph, c, &mut slot, &mut reads)?;
    assert_eq!(rt; graph.entry(), Some(1), "after a lower one");
    assert_links(rt, &graph, 2, 0, &[1, 0], &mut reads);
    assert_links(rt, &graph, 2, 1, &[1], &mut reads);
    assert_links(rt, &graph, 1, 0, &[0, 2], &mut reads);
    assert_links(rt, &graph, 1, 2, &[], &mut reads);
    assert_attr(rt, &graph, 1, b"", &mut reads);
    assert_attr(rt, &graph, 2, b"{\"n\":1}", &mut reads);
    Ok(())
}

// The first member is the entry, and one of a greater level takes its place. The third is one bit from the second and
// three from the first, which are four bits apart: both are chosen, the nearer first.
#[test]
fn entries_levels_and_attributes(rt: HostRuntime) -> Result<(), NoMemory> {
    levels_by::<HostRuntime, Brand>(&rt, rt.alloc(), Blank::new(1))
}

/// Two drafts of one graph.
fn drafts_by<A: Abort, L: Ledger>(rt: &A, alloc: Global, blank: Blank) -> Result<(), NoMemory>
    requires name { blank.name ≡ L.name }
    requires parts { blank.parts ≡ L.parts }
    requires some { 0 < L.parts }
{
    let mut reads = Steps::<L>::new(blank);
    let mut slot = Slot::new(alloc);
    let mut graph = Graph::new(ListNodes::new(alloc)?, 4, 64);
    add(alloc, &mut graph, member(b"a", 3, 0), &mut slot, &mut reads)?;
    let c = draft_of(alloc, &graph, member(b"c", 2, 0), &mut slot, &mut reads)?;
    let d = draft_of(alloc, &graph, member(b"d", 0, 0), &mut slot, &mut reads)?;
    settle(alloc, &mut graph, d, b"", &mut reads)?;
    let is_settled = settle(alloc, &mut graph, c, b"", &mut reads)?;
    assert!(rt; is_settled, "the draft of an older graph is refused");
    assert_links(rt, &graph, 0, 0, &[1, 2], &mut reads);
    assert_links(rt, &graph, 1, 0, &[0], &mut reads);
    assert_links(rt, &graph, 2, 0, &[0], &mut reads);
    Ok(())
}

// Each draft chose the one member that it knew of. The one that is committed last doesn't look for the other.
#[test]
fn two_drafts_of_one_graph(rt: HostRuntime) -> Result<(), NoMemory> {
    drafts_by::<HostRuntime, Brand>(&rt, rt.alloc(), Blank::new(1))
}

/// Adds eight leaves of level 0, each with one bit of its own.
fn add_leaves<N: Nodes, L: Ledger>(
    alloc: Global,
    graph: &mut Graph<N>,
    slot: &mut Slot,
    reads: &mut Steps<L>,
) -> Result<(), NoMemory>
    requires { graph.old.dim ≤ 64 }
    ensures dim { graph.new.dim ≡ graph.old.dim }
    ensures kept { OnOk result ((level : ℕ) (chosen : Items (Items Chosen)) → AreDrafted (N.at graph.old.nodes) graph.old.m level chosen → AreDrafted (N.at graph.new.nodes) graph.new.m level chosen) }
{
    for leaf in 0u8..8 {
        let name = [b'a' + leaf];
        add(alloc, graph, member(&name, 1 << leaf, 0), slot, reads)?;
    }
    Ok(())
}

/// A late draft whose one choice has become full.
fn late_by<A: Abort, L: Ledger>(rt: &A, alloc: Global, blank: Blank) -> Result<(), NoMemory>
    requires name { blank.name ≡ L.name }
    requires parts { blank.parts ≡ L.parts }
    requires some { 0 < L.parts }
{
    let mut reads = Steps::<L>::new(blank);
    let mut slot = Slot::new(alloc);
    let mut graph = Graph::new(ListNodes::new(alloc)?, 4, 9);
    add(
        alloc,
        &mut graph,
        member(b"hub", 0, 0),
        &mut slot,
        &mut reads,
    )?;
    let late = draft_of(alloc, &graph, member(b"i", 256, 0), &mut slot, &mut reads)?;
    add_leaves(alloc, &mut graph, &mut slot, &mut reads)?;
    let is_settled = settle(alloc, &mut graph, late, b"", &mut reads)?;
    assert!(rt; is_settled, "the late draft is refused");
    assert_links(rt, &graph, 0, 0, &[1, 2, 3, 4, 5, 6, 7, 8], &mut reads);
    assert_links(rt, &graph, 1, 0, &[0, 9], &mut reads);
    assert_links(rt, &graph, 9, 0, &[1], &mut reads);
    Ok(())
}

// With M 4 the hub is full with its eight leaves, none farther than the late one, which is forced to the first leaf.
#[test]
fn a_choice_that_lost_its_room(rt: HostRuntime) -> Result<(), NoMemory> {
    late_by::<HostRuntime, Brand>(&rt, rt.alloc(), Blank::new(1))
}
