//! Nodes in pages: the map of pages as what a graph stands on.
ghost use Rattle.std.specs.Prelude.{◌≡◌, ◌<◌, ℕ, None, IsSome, IfOk};
ghost use Rattle.vs_page.specs.Changes.{items_of};
ghost use Rattle.vs_page.specs.PagedWords.{TellsAt};

use crate::draining::edit_changes;
use crate::page_words::{tell_all, untold_ids};
use crate::{PageMap, Rows};
use std::alloc::Global;
use std::sync::ledger::Ledger;
use vs_graph::{Edit, FreshNodes, Node, Nodes, Steps};
use vs_outside::NoMemory;

/// Nodes in pages of 16, in branches of 256 pages, in a root. Each node lies in its page, and the words of 256 members beside one another in a
/// chunk, since a search reads little else. A snapshot is two shared pointers; a publish copies the pages and chunks that a snapshot shares
/// and changes the others in place. Where memory for a chunk is refused, its members' words are read in their nodes from then on.
#[derive(Drop)]
pub struct PageNodes {
    map: PageMap<Node>,
    rows: Rows,
    end: u32,
    ghost ends: { (id : ℕ) → IsSome (items_of map id) → id < end },
    ghost told: { (id : ℕ) → TellsAt rows (items_of map) id },
}

impl PageNodes {
    ghost use Rattle.vs_page.specs.PagedNodes.{nodes_of};

    /// The empty map.
    pub fn new(alloc: Global) -> Result<PageNodes, NoMemory>
        ensures { IfOk result (λ nodes. (id : ℕ) → nodes_of nodes id ≡ None) }
    {
        Ok(PageNodes {
            map: PageMap::new(alloc)?,
            rows: Rows::new(alloc)?,
            end: 0,
        })
    }
}

impl Nodes for PageNodes {
    ghost use Rattle.vs_page.specs.PagedNodes.{nodes_of};

    ghost at = { nodes_of };

    fn get<L: Ledger>(&self, id: u32, reads: &mut Steps<L>) -> Option<&Node> {
        reads.tick();
        self.map.get(id)
    }

    fn words<L: Ledger>(&self, id: u32, reads: &mut Steps<L>) -> &[u64] {
        reads.tick();
        if let Some(words) = self.rows.get(id) {
            return words;
        }
        match self.map.get(id) {
            Some(node) => node.body.bits(),
            None => unreachable!(),
        }
    }

    fn limit(&self) -> u32 {
        self.end
    }

    fn snapshot(&self) -> Result<PageNodes, NoMemory> {
        Ok(PageNodes {
            map: self.map.try_clone()?,
            rows: self.rows.try_clone()?,
            end: self.end,
        })
    }

    fn publish(&mut self, edit: Edit) -> Result<(), NoMemory> {
        let end = self.end.max(edit.end().min(1048576) as u32);
        let changes = edit_changes(self.map.alloc(), edit)?;
        let untold = untold_ids(self.map.alloc(), &self.rows, &changes)?;
        self.map.publish(changes)?;
        self.end = end;
        tell_all(&self.map, &mut self.rows, &untold);
        Ok(())
    }
}

impl FreshNodes for PageNodes {
    fn fresh(alloc: Global) -> Result<PageNodes, NoMemory> {
        PageNodes::new(alloc)
    }
}
