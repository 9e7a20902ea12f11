//! The members of a snapshot by their places. A member's name, its place and mostly its words are found without its
//! node, and an exact search goes over the words of a chunk row by row.
ghost use Rattle.std.specs.Prelude.{◌≡◌, ◌<◌, ◌+◌, Some, IsSome, IsSomeAnd, length, option_map, position, slice_get};
ghost use Rattle.std.specs.Option.{option_copied};
ghost use Rattle.vs_defs.specs.Beam.{level_at};
ghost use Rattle.vs_defs.specs.Store.{is_of_name};
ghost use Rattle.vs_defs.specs.Words.{FitsDimension};

use crate::Snap;
use std::marker::Brand;
use std::sync::ledger::{Blank, Ledger};
use vs_graph::{Graph, Node, Nodes, Steps};
use vs_truth::{Members, Run};

/// The node of a live id.
pub(crate) fn node_at<'a, N: Nodes, L: Ledger>(
    graph: &'a Graph<N>,
    id: u32,
    reads: &mut Steps<L>,
) -> &'a Node
    requires { IsSome (N.at graph.now.nodes id) }
    ensures node { N.at graph.entry.now.nodes id ≡ Some result.now }
    ensures words { FitsDimension graph.entry.now.dim result.now.body.bits }
    ensures told { reads.new ≡ reads.old + 1 }
{
    match graph.nodes().get(id, reads) {
        Some(node) => node,
        None => unreachable!(),
    }
}

/// The same, with a counter of its own.
fn node_of<'a, N: Nodes, L: Ledger>(graph: &'a Graph<N>, id: u32, blank: Blank) -> &'a Node
    requires live { IsSome (N.at graph.now.nodes id) }
    requires name { blank.name ≡ L.name }
    requires parts { blank.parts ≡ L.parts }
    requires some { 0 < L.parts }
    ensures { N.at graph.entry.now.nodes id ≡ Some result.now }
{
    let mut reads = Steps::<L>::new(blank);
    node_at(graph, id, &mut reads)
}

impl<N: Nodes> Members for Snap<N> {
    ghost members = { λ s. s.contents.members };

    fn count(&self) -> u32 {
        self.order.len()
    }

    fn bits<L: Ledger>(&self, place: u32, reads: &mut Steps<L>) -> &[u64] {
        match self.rows.get(place) {
            Some(words) => {
                reads.tick();
                words
            }
            None => node_at(&self.graph, self.order.id_at(place), reads)
                .body
                .bits(),
        }
    }

    fn beside<L: Ledger>(&self, place: u32, most: u32, reads: &mut Steps<L>) -> Run {
        let run = self.rows.beside(place, most);
        for _ in 0..run.rows {
            reads.tick();
        }
        Run {
            width: run.width,
            rows: run.rows,
            words: run.words,
        }
    }

    fn name(&self, place: u32) -> &[u8] {
        self.order.name_at(place)
    }

    fn attr(&self, place: u32) -> Option<&[u8]> {
        let id = self.order.id_at(place);
        let node = node_of::<N, Brand>(&self.graph, id, Blank::new(1));
        match &node.attr {
            Some(attr) => Some(attr.get().text.as_slice()),
            None => None,
        }
    }
}

impl<N: Nodes> Snap<N> {
    /// The place of a name. It goes through the members; the set's `place_of` doesn't.
    pub fn place_of(&self, name: &[u8]) -> Option<u32>
        ensures { result ≡ position (is_of_name name.now) self.now.contents.members }
    {
        self.order.place_of_name(name)
    }

    /// The level of the member at a place.
    pub fn level(&self, place: u32) -> u8
        requires { place < length self.now.contents.members }
        ensures { IsSomeAnd (slice_get self.now.contents.members place) (λ x. result ≡ x.level) }
    {
        let id = self.order.id_at(place);
        node_of::<N, Brand>(&self.graph, id, Blank::new(1)).level
    }

    /// The level of the entry, which is the highest of all.
    pub fn top(&self) -> u8
        requires { 0 < length self.now.contents.members }
        ensures { option_map (level_at self.now) self.now.wiring.entry ≡ Some result }
    {
        let _nodes = self.graph.nodes();
        match self.graph.entry() {
            Some(entry) => node_of::<N, Brand>(&self.graph, entry, Blank::new(1)).level,
            None => unreachable!(),
        }
    }
}
