//! Nodes that count their own look-ups, to compare with what is told to the counter that is handed in.
use std::alloc::Global;
use std::cell::Cell;
use std::sync::ledger::Ledger;
use vs_graph::{Edit, FreshNodes, ListNodes, Node, Nodes, Steps};
use vs_outside::NoMemory;

/// Nodes that count each look-up.
#[derive(Drop)]
pub struct Counted {
    nodes: ListNodes,
    gets: Cell<u64>,
}

impl Counted {
    /// How many look-ups there were.
    pub fn gets(&self) -> u64 {
        self.gets.get()
    }
}

impl Nodes for Counted {
    ghost use Rattle.vs_graph.specs.NodeMap.{nodes_of};

    ghost at = { λ c. nodes_of c.nodes };

    fn get<L: Ledger>(&self, id: u32, reads: &mut Steps<L>) -> Option<&Node> {
        self.gets.set(self.gets.get().wrapping_add(1));
        self.nodes.get(id, reads)
    }

    fn words<L: Ledger>(&self, id: u32, reads: &mut Steps<L>) -> &[u64] {
        self.gets.set(self.gets.get().wrapping_add(1));
        self.nodes.words(id, reads)
    }

    fn limit(&self) -> u32 {
        self.nodes.limit()
    }

    fn snapshot(&self) -> Result<Counted, NoMemory> {
        let nodes = self.nodes.snapshot()?;
        Ok(Counted {
            nodes,
            gets: Cell::new(0),
        })
    }

    fn publish(&mut self, edit: Edit) -> Result<(), NoMemory> {
        self.nodes.publish(edit)
    }
}

impl FreshNodes for Counted {
    fn fresh(alloc: Global) -> Result<Counted, NoMemory> {
        let nodes = ListNodes::fresh(alloc)?;
        Ok(Counted {
            nodes,
            gets: Cell::new(0),
        })
    }
}
