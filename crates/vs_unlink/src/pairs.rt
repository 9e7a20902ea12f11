//! The pairs of former neighbours that are joined: a greedy matching by distance, then names, so that no pair of two unjoined, unlinked
//! ones is left.
ghost use Rattle.std.specs.Prelude.{◌≡◌, ◌<◌, ◌+◌, ◌||◌, IsSome, IfOk, OnOk, length, All, map, nat_eq, false, slice_index_or, Some};
ghost use Rattle.std.specs.List.{list_any, IsDistinct};
ghost use Rattle.vs_graph.specs.Edits.{overwritten};
ghost use Rattle.vs_graph.specs.Good.{links_at, links_of, body_at};
ghost use Rattle.vs_graph.specs.Bodies.{AreAlike};
ghost use Rattle.vs_unlink.specs.Pairs.{matched, Differ, IsPairing};
ghost use Rattle.vs_unlink.specs.Candidates.{some_now, node_in, pair_at, IsCandidate, IsPlaced, IsWithin, HasPairsBelow, HasPlacedBelow};

use crate::Pair;
use crate::named::by_name;
use std::alloc::Global;
use std::sync::ledger::Ledger;
use vs_graph::{Edit, Node, Nodes, Steps, links, live_node};
use vs_hamming::distance;
use vs_outside::{List, NoMemory};

/// An unlinked pair of former neighbours, by their places in the order of names. Candidates are looked at by distance, then the lesser
/// name, then the greater.
#[derive(Clone, Copy, PartialEq, Eq, PartialOrd, Ord)]
pub(crate) struct Candidate {
    pub(crate) dist: u32,
    pub(crate) one: usize,
    pub(crate) other: usize,
}

/// The nodes of members, in the same order.
fn nodes_of<'a, N: Nodes, L: Ledger>(
    alloc: Global,
    edit: &'a Edit,
    base: &'a N,
    ids: &[u32],
    reads: &mut Steps<L>,
) -> Result<Vec<&'a Node>, NoMemory>
    requires { All (λ id. IsSome (overwritten edit.now (N.at base.now) id)) ids.now }
    ensures { IfOk result (λ nodes. map some_now nodes.items ≡ map (overwritten edit.entry.now (N.at base.entry.now)) ids.now) }
{
    let mut nodes = Vec::with_capacity(alloc, ids.len())?;
    for id in ids {
        nodes.push(live_node(edit, base, *id, reads))?;
    }
    Ok(nodes)
}

fn node_at<'a>(nodes: &[&'a Node], place: usize) -> &'a Node
    requires { place < length nodes.now }
    ensures { node_in nodes.now place ≡ Some result.now }
{
    nodes[place]
}

fn is_linked(node: &Node, layer: u8, id: u32) -> bool
    ensures { result ≡ list_any (nat_eq id) (links_of node.now layer) }
{
    links(node, layer).contains(&id)
}

/// Puts the unlinked pairs of the former neighbour at a place with those behind it last.
fn pair_with_later(
    found: &mut Vec<Candidate>,
    nodes: &[&Node],
    ranked: &[u32],
    one: usize,
    layer: u8,
) -> Result<(), NoMemory>
    requires alike { AreAlike (body_at (node_in nodes.now)) }
    requires long { length nodes.now ≡ length ranked.now }
    requires within { one < length ranked.now }
    requires sound { All (IsPlaced (node_in nodes.now) layer ranked.now) found.old.items }
    requires all { HasPlacedBelow (node_in nodes.now) layer ranked.now one (map (pair_at ranked.now) found.old.items) }
    ensures sound { OnOk result (All (IsPlaced (node_in nodes.now) layer ranked.now) found.new.items) }
    ensures all { OnOk result (HasPlacedBelow (node_in nodes.now) layer ranked.now (one + 1) (map (pair_at ranked.now) found.new.items)) }
{
    let a = node_at(nodes, one);
    for other in one + 1..ranked.len() {
        if is_linked(a, layer, ranked[other]) {
            continue;
        }
        let b = node_at(nodes, other);
        let dist = distance(a.body.bits(), b.body.bits());
        found.push(Candidate { dist, one, other })?;
    }
    Ok(())
}

/// The unlinked pairs of members that stand in the order of names, by their nodes.
fn placed(
    alloc: Global,
    nodes: &[&Node],
    ranked: &[u32],
    layer: u8,
) -> Result<Vec<Candidate>, NoMemory>
    requires alike { AreAlike (body_at (node_in nodes.now)) }
    requires long { length nodes.now ≡ length ranked.now }
    ensures sound { IfOk result (λ found. All (IsPlaced (node_in nodes.now) layer ranked.now) found.items) }
    ensures all { IfOk result (λ found. HasPlacedBelow (node_in nodes.now) layer ranked.now (length ranked.now) (map (pair_at ranked.now) found.items)) }
{
    let mut found = Vec::new(alloc);
    for one in 0..ranked.len() {
        pair_with_later(&mut found, nodes, ranked, one, layer)?;
    }
    Ok(found)
}

/// The unlinked pairs of former neighbours, which stand in the order of names.
fn candidates<N: Nodes, L: Ledger>(
    alloc: Global,
    edit: &Edit,
    base: &N,
    ranked: &[u32],
    layer: u8,
    reads: &mut Steps<L>,
) -> Result<Vec<Candidate>, NoMemory>
    requires alike { AreAlike (body_at (overwritten edit.now (N.at base.now))) }
    requires live { All (λ id. IsSome (overwritten edit.now (N.at base.now) id)) ranked.now }
    ensures sound { IfOk result (λ found. All (IsCandidate (body_at (overwritten edit.now (N.at base.now))) (links_at (overwritten edit.now (N.at base.now)) layer) ranked.now) found.items) }
    ensures all { IfOk result (λ found. HasPairsBelow (links_at (overwritten edit.now (N.at base.now)) layer) ranked.now (length ranked.now) (map (pair_at ranked.now) found.items)) }
{
    let nodes = nodes_of(alloc, edit, base, ranked, reads)?;
    placed(alloc, &nodes, ranked, layer)
}

/// Whether one of a candidate's members has a new link, by the marks at their places.
fn is_taken(marks: &[bool], candidate: &Candidate) -> bool
    requires one { candidate.now.one < length marks.now }
    requires other { candidate.now.other < length marks.now }
    ensures { result ≡ (slice_index_or marks.now candidate.now.one false || slice_index_or marks.now candidate.now.other false) }
{
    marks[candidate.one] || marks[candidate.other]
}

/// The pairs that are joined: of candidates in their order, each whose members have no new link yet.
fn matching(alloc: Global, ranked: &[u32], found: &[Candidate]) -> Result<List<Pair>, NoMemory>
    requires once { IsDistinct nat_eq ranked.now }
    requires within { All (IsWithin ranked.now) found.now }
    ensures { IfOk result (λ added. added ≡ matched (map (pair_at ranked.now) found.now)) }
{
    let mut marks = vec![in alloc; false; ranked.len()]?;
    let mut added = List::new(alloc);
    for candidate in found {
        if is_taken(&marks, candidate) {
            continue;
        }
        marks[candidate.one] = true;
        marks[candidate.other] = true;
        added.push(Pair {
            one: ranked[candidate.one],
            other: ranked[candidate.other],
        })?;
    }
    Ok(added)
}

/// The pairs of former neighbours that are joined.
pub(crate) fn pairing<N: Nodes, L: Ledger>(
    alloc: Global,
    edit: &Edit,
    base: &N,
    ids: &[u32],
    layer: u8,
    reads: &mut Steps<L>,
) -> Result<List<Pair>, NoMemory>
    requires alike { AreAlike (body_at (overwritten edit.now (N.at base.now))) }
    requires live { All (λ id. IsSome (overwritten edit.now (N.at base.now) id)) ids.now }
    requires once { IsDistinct nat_eq ids.now }
    requires differ { Differ (body_at (overwritten edit.now (N.at base.now))) ids.now }
    ensures { IfOk result (λ added. IsPairing (body_at (overwritten edit.now (N.at base.now))) (links_at (overwritten edit.now (N.at base.now)) layer) ids.now added) }
{
    let ranked = by_name(alloc, edit, base, ids, reads)?;
    let mut found = candidates(alloc, edit, base, ranked.as_slice(), layer, reads)?;
    found.sort_unstable();
    matching(alloc, ranked.as_slice(), &found)
}
