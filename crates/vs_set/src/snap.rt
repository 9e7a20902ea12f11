//! A set as it was, for searches and drafts without the set.
ghost use Rattle.std.specs.Prelude.{◌≡◌};
ghost use Rattle.vs_set.specs.Kept.{IsSound};

use std::alloc::Global;
use std::marker::Model;
use vs_graph::{Graph, Nodes};
use vs_order::Order;
use vs_page::Rows;

/// The members and the graph of a set as they stood when it was taken.
#[derive(Drop)]
pub struct Snap<N: Nodes> {
    pub(crate) alloc: Global,
    pub(crate) order: Order,
    pub(crate) graph: Graph<N>,
    pub(crate) cut: u64,
    // the words of the members by place, where they are told
    pub(crate) rows: Rows,
}

impl<N: Nodes> Model for Snap<N> {
    ghost use Rattle.vs_defs.specs.Store as model;
    ghost use Rattle.vs_set.specs.Kept.{set_by, AreNamed, KeepRows};

    ghost Value = { model.Set };

    ghost view = { λ s. set_by (N.at s.graph.nodes) s.graph.entry s.graph.m s.graph.dim s.cut s.order };

    ghost invariant = { λ s. AreNamed (N.at s.graph.nodes) s.order × KeepRows (N.at s.graph.nodes) s.graph.dim s.order s.rows };
}

impl<N: Nodes> Snap<N> {
    /// The dimension of the vectors.
    pub fn dim(&self) -> u32
        ensures value { result ≡ self.now.contents.dim }
        ensures sound { IsSound self.now }
    {
        let _nodes = self.graph.nodes();
        let _count = self.order.len();
        self.graph.dim()
    }

    /// How many links a member may have at a layer above the lowest.
    pub fn m(&self) -> u16
        ensures { result ≡ self.now.contents.m }
    {
        self.graph.m()
    }

    /// The set's cut.
    pub fn cut(&self) -> u64
        ensures { result ≡ self.now.contents.cut }
    {
        self.cut
    }
}
