//! Searches of a snapshot. Names and places are found by the order, so that no node is read but by the descent and the beam.
ghost use Rattle.std.specs.Prelude.{◌≡◌, ◌<◌, ◌≤◌, ◌-◌, Bool, true, All, IfOk, IsSome, IsSomeAnd, length, slice_get};
ghost use Rattle.vs_rank.specs.Tests.{Attribute, Answers};
ghost use Rattle.vs_truth.specs.Nearest.{AreHits};
ghost use Rattle.vs_order.specs.Entries.{is_taken};
ghost use Rattle.vs_set.specs.Found.{FindsNear, linked_to};
ghost use Rattle.vs_set.specs.Firsts.{first_of, keys_around};

use crate::Snap;
use crate::reading::node_at;
use std::alloc::Global;
use std::marker::Brand;
use std::sync::ledger::{Blank, Ledger};
use vs_beam::{beam, descend};
use vs_bits::Bits;
use vs_graph::{Graph, Nodes, Steps, links};
use vs_hamming::distance;
use vs_order::Order;
use vs_outside::{List, NoMemory};
use vs_rank::{Key, Testing, Wanted};
use vs_slot::Slot;
use vs_truth::{Candidate, Hit, NearestHeap, hits_of};

/// The first few of the members that a search found, by distance, then name. No node is read.
fn first_hits(
    alloc: Global,
    order: &Order,
    found: &[Key],
    count: u32,
) -> Result<List<Hit>, NoMemory>
    requires { All (λ key. is_taken key.id order.now ≡ true) found.now }
    ensures { IfOk result (λ hits. hits ≡ first_of order.now count found.now) }
{
    let most = (count as usize).min(found.len());
    let mut first = NearestHeap::new(alloc, most as u32)?;
    for key in found {
        let place = order.place_of(key.id);
        first.offer(Candidate {
            dist: key.dist,
            name: order.name_at(place),
            place,
        });
    }
    let hits = hits_of(alloc, first.into_sorted().as_slice())?;
    Ok(List::from_vec(hits))
}

/// The ids that a live one is linked to at a layer, with their distances to it. It has a counter of its own.
fn keys_around<N: Nodes, L: Ledger>(
    alloc: Global,
    graph: &Graph<N>,
    id: u32,
    layer: u8,
    blank: Blank,
) -> Result<List<Key>, NoMemory>
    requires live { IsSome (N.at graph.now.nodes id) }
    requires name { blank.name ≡ L.name }
    requires parts { blank.parts ≡ L.parts }
    requires some { 0 < L.parts }
    ensures { IfOk result (λ keys. keys ≡ keys_around (N.at graph.now.nodes) layer id) }
{
    let _nodes = graph.nodes();
    let mut reads = Steps::<L>::new(blank);
    let node = node_at(graph, id, &mut reads);
    let around = links(node, layer);
    let mut keys = List::new(alloc);
    for other in around {
        let near = node_at(graph, *other, &mut reads);
        let dist = distance(node.body.bits(), near.body.bits());
        keys.push(Key { dist, id: *other })?;
    }
    Ok(keys)
}

impl<N: Nodes> Snap<N> {
    /// The members that the one at a place is linked to at a layer, by distance to it, then name.
    pub fn links(&self, place: u32, layer: u8) -> Result<List<Hit>, NoMemory>
        requires { IsSomeAnd (slice_get self.now.contents.members place) (λ x. layer ≤ x.level) }
        ensures { IfOk result (λ hits. IsSomeAnd (slice_get self.now.contents.members place) (λ x. AreHits x.bits self.now.contents.members (linked_to self.now x.name layer) hits)) }
    {
        let _nodes = self.graph.nodes();
        let id = self.order.id_at(place);
        let keys = keys_around::<N, Brand>(self.alloc, &self.graph, id, layer, Blank::new(1))?;
        let count = keys.len() as u32;
        let hits = first_hits(self.alloc, &self.order, keys.as_slice(), count)?;
        Ok(hits)
    }

    /// The first `count` by distance, then name, of what a beam of width `max(ef, count)` finds at the lowest layer, from where a descent
    /// to the layer above it stopped.
    pub fn near<F: Testing, L: Ledger>(
        &self,
        query: &Bits,
        count: u32,
        ef: u32,
        effort: u32,
        wanted: &Wanted<F>,
        slot: &mut Slot,
        reads: &mut Steps<L>,
    ) -> Result<List<Hit>, NoMemory>
        requires some { 0 < length self.now.contents.members }
        requires dim { length query.now ≡ self.now.contents.dim }
        requires count { 1 ≤ count }
        requires wide { 1 ≤ ef }
        ensures { IfOk result (λ hits. (passes : Attribute → Bool) → Answers (F.gives wanted.now.test) passes → FindsNear self.now query.now count ef effort passes hits (reads.new - reads.old)) }
    {
        let _nodes = self.graph.nodes();
        let words = query.words();
        let start = match descend(&self.graph, words, 1, reads) {
            Some(descent) => descent.start,
            None => unreachable!(),
        };
        let beam = beam(
            self.alloc,
            &self.graph,
            0,
            start,
            words,
            ef.max(count),
            effort,
            wanted,
            slot,
            reads,
        )?;
        let hits = first_hits(self.alloc, &self.order, beam.found.as_slice(), count)?;
        Ok(hits)
    }
}
