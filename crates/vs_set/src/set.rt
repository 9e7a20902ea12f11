//! The set, and what it tells without memory. Each change is all or nothing: what may be refused memory comes first, and what changes the
//! names, the order, the free ids and the cut comes last and takes none.
ghost use Rattle.std.specs.Prelude.{◌≡◌, ◌≤◌, ◌^◌, IfOk, length, position};
ghost use Rattle.vs_defs.specs.Store.{is_member, is_of_name};
ghost use Rattle.vs_set.specs.Changed.{empty_set};
ghost use Rattle.vs_set.specs.Kept.{IsSound, attribute_count as attributes_of};

use crate::Snap;
use std::alloc::Global;
use std::marker::Model;
use vs_graph::{FreshNodes, Graph, Nodes};
use vs_order::{Names, Order};
use vs_outside::NoMemory;
use vs_page::Rows;

/// Members by their names, with the graph of their links. A new member goes last, a replaced one keeps its place, and the last one takes
/// the place of a removed one. Contracts see no id.
#[derive(Drop)]
pub struct Set<N: Nodes> {
    pub(crate) alloc: Global,
    pub(crate) names: Names,
    // the same members, as snapshots keep them
    pub(crate) order: Order,
    pub(crate) graph: Graph<N>,
    pub(crate) cut: u64,
    // how many members have an attribute
    pub(crate) attributes: u32,
    // the words of the members by place, where they are told
    pub(crate) rows: Rows,
}

impl<N: Nodes> Model for Set<N> {
    ghost use Rattle.vs_defs.specs.Store as model;
    ghost use Rattle.vs_set.specs.Kept.{set_by, IsKept, KeepRows};

    ghost Value = { model.Set };

    ghost view = { λ s. set_by (N.at s.graph.nodes) s.graph.entry s.graph.m s.graph.dim s.cut s.names.entries };

    ghost invariant = { λ s. IsKept (N.at s.graph.nodes) s.graph.dim s.names.entries s.order s.attributes × KeepRows (N.at s.graph.nodes) s.graph.dim s.names.entries s.rows };
}

impl<N: FreshNodes> Set<N> {
    /// A set without members. M is how many links a member may have at a layer above the lowest. The cut is that of the first `add`.
    pub fn create(alloc: Global, dim: u32, m: u16) -> Result<Set<N>, NoMemory>
        requires dim_low { 1 ≤ dim }
        requires dim_high { dim ≤ 32768 }
        requires m_low { 4 ≤ m }
        requires m_high { m ≤ 256 }
        ensures { IfOk result (λ set. set ≡ empty_set dim m) }
    {
        let nodes = N::fresh(alloc)?;
        Ok(Set {
            alloc,
            names: Names::new(alloc),
            order: Order::new(alloc)?,
            graph: Graph::new(nodes, m, dim),
            cut: 0,
            attributes: 0,
            rows: Rows::new(alloc)?,
        })
    }
}

impl<N: Nodes> Set<N> {
    /// How many members.
    pub fn count(&self) -> u32
        ensures value { result ≡ length self.now.contents.members }
        ensures few { result ≤ 2 ^ 20 }
        ensures sound { IsSound self.now }
    {
        let _nodes = self.graph.nodes();
        self.names.len()
    }

    /// The dimension of the vectors.
    pub fn dim(&self) -> u32
        ensures { result ≡ self.now.contents.dim }
    {
        self.graph.dim()
    }

    /// How many links a member may have at a layer above the lowest.
    pub fn m(&self) -> u16
        ensures { result ≡ self.now.contents.m }
    {
        self.graph.m()
    }

    /// The number of changes when the set was made, or at its last removal or replacement.
    pub fn cut(&self) -> u64
        ensures { result ≡ self.now.contents.cut }
    {
        self.cut
    }

    /// How many members have an attribute. It goes through none of them.
    pub fn attribute_count(&self) -> u32
        ensures { result ≡ attributes_of self.now.contents.members }
    {
        self.attributes
    }

    /// Whether the name is a member.
    pub fn has(&self, name: &[u8]) -> bool
        ensures { result ≡ is_member name.now self.now.contents.members }
    {
        self.names.id_of(name).is_some()
    }

    /// The place of a name. It goes through none of the members.
    pub fn place_of(&self, name: &[u8]) -> Option<u32>
        ensures { result ≡ position (is_of_name name.now) self.now.contents.members }
    {
        self.names.place_of(name)
    }

    /// The members and the graph as they stand. Later changes leave it as it is, and it takes nothing that grows with the set.
    pub fn snapshot(&self) -> Result<Snap<N>, NoMemory>
        ensures { IfOk result (λ snap. snap ≡ self.now) }
    {
        Ok(Snap {
            alloc: self.alloc,
            order: self.order.try_clone()?,
            graph: self.graph.snapshot()?,
            cut: self.cut,
            rows: self.rows.try_clone()?,
        })
    }
}
