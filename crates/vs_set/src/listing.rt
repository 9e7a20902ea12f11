//! The members of a snapshot as a list of rows, for a search without the snapshot.
ghost use Rattle.std.specs.Prelude.{◌≡◌, ◌<◌, IfOk, IsSome, IsSomeAnd, All, length, map, slice_get};
ghost use Rattle.vs_defs.specs.Words.{FitsDimension};
ghost use Rattle.vs_graph.specs.Standing.{member_of_node};
ghost use Rattle.vs_truth.specs.RowMembers.{members_of_rows};
ghost use Rattle.vs_set.specs.Listed.{IsRowOf, on_no_layer};

use crate::Snap;
use crate::attr::attr_copy;
use crate::reading::node_at;
use std::alloc::Global;
use std::marker::Brand;
use std::sync::ledger::{Blank, Ledger};
use vs_graph::{Graph, Nodes, Steps};
use vs_outside::{List, NoMemory};
use vs_truth::Row;

/// The member of a live id. It has a counter of its own.
fn row_of<N: Nodes, L: Ledger>(graph: &Graph<N>, id: u32, blank: Blank) -> Result<Row, NoMemory>
    requires live { IsSome (N.at graph.now.nodes id) }
    requires name { blank.name ≡ L.name }
    requires parts { blank.parts ≡ L.parts }
    requires some { 0 < L.parts }
    ensures { IfOk result (λ row. IsSomeAnd (N.at graph.now.nodes id) (λ node. IsRowOf graph.now.dim row (member_of_node graph.now.dim node))) }
{
    let mut reads = Steps::<L>::new(blank);
    let node = node_at(graph, id, &mut reads);
    let body = node.body.try_clone()?;
    let attr = attr_copy(&node.attr)?;
    Ok(Row { body, attr })
}

impl<N: Nodes> Snap<N> {
    /// The member at a place.
    fn row(&self, place: u32) -> Result<Row, NoMemory>
        requires { place < length self.now.contents.members }
        ensures { IfOk result (λ row. IsSomeAnd (slice_get self.now.contents.members place) (IsRowOf self.now.contents.dim row)) }
    {
        let id = self.order.id_at(place);
        let row = row_of::<N, Brand>(&self.graph, id, Blank::new(1))?;
        Ok(row)
    }

    /// The members in their order. A row has no level.
    pub fn rows(&self, alloc: Global) -> Result<List<Row>, NoMemory>
        ensures members { IfOk result (λ rows. members_of_rows self.now.contents.dim rows ≡ map on_no_layer self.now.contents.members) }
        ensures fits { IfOk result (λ rows. All (λ row. FitsDimension self.now.contents.dim row.body.bits) rows) }
    {
        let mut rows = List::new(alloc);
        for place in 0..self.order.len() {
            rows.push(self.row(place)?)?;
        }
        Ok(rows)
    }
}
