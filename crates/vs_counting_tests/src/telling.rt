//! Nodes that count their own look-ups inside a set, which hands out neither its nodes nor those of its snapshots. What they counted is
//! told by refusals: a snapshot is refused as often as there were look-ups since the last one that was granted.
use std::alloc::{AllocError, Global};
use std::cell::Cell;
use std::rc::Rc;
use std::sync::ledger::Ledger;
use vs_graph::{Edit, FreshNodes, ListNodes, Node, Nodes, Steps};
use vs_outside::NoMemory;
use vs_set::Set;

/// As far as look-ups are counted.
pub const MOST: u64 = 1_000;

/// Nodes that have one count of look-ups together with all their snapshots.
#[derive(Drop)]
pub struct Telling {
    nodes: ListNodes,
    looks: Rc<Cell<u64>>,
}

impl Nodes for Telling {
    ghost use Rattle.vs_graph.specs.NodeMap.{nodes_of};

    ghost at = { λ t. nodes_of t.nodes };

    fn get<L: Ledger>(&self, id: u32, reads: &mut Steps<L>) -> Option<&Node> {
        self.looks.set(self.looks.get().saturating_add(1).min(MOST));
        self.nodes.get(id, reads)
    }

    fn words<L: Ledger>(&self, id: u32, reads: &mut Steps<L>) -> &[u64] {
        self.looks.set(self.looks.get().saturating_add(1).min(MOST));
        self.nodes.words(id, reads)
    }

    fn limit(&self) -> u32 {
        self.nodes.limit()
    }

    // Each refusal takes one from the count.
    fn snapshot(&self) -> Result<Telling, NoMemory> {
        let looks = self.looks.get();
        if looks > 0 {
            self.looks.set(looks - 1);
            return Err(AllocError);
        }
        Ok(Telling {
            nodes: self.nodes.snapshot()?,
            looks: self.looks.clone()?,
        })
    }

    fn publish(&mut self, edit: Edit) -> Result<(), NoMemory> {
        self.nodes.publish(edit)
    }
}

impl FreshNodes for Telling {
    fn fresh(alloc: Global) -> Result<Telling, NoMemory> {
        Ok(Telling {
            nodes: ListNodes::fresh(alloc)?,
            looks: Rc::new(alloc, Cell::new(0))?,
        })
    }
}

/// How many look-ups there were in the set and its snapshots since this was last asked, at most `MOST`.
pub fn told(set: &Set<Telling>) -> u64 {
    let mut looks: u64 = 0;
    for _ in 0..MOST {
        if set.snapshot().is_ok() {
            return looks;
        }
        looks = looks.saturating_add(1);
    }
    looks
}
