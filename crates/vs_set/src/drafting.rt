//! Drafts over a snapshot.
ghost use Rattle.std.specs.Prelude.{◌≤◌, IfOk};
ghost use Rattle.vs_defs.specs.Words.{FitsDimension};
ghost use Rattle.vs_set.specs.Drafted.{IsDraft};

use crate::Snap;
use std::sync::ledger::Ledger;
use vs_graph::{InlineBody, Nodes, Steps};
use vs_insert::{Draft, prepare};
use vs_outside::NoMemory;
use vs_slot::Slot;

impl<N: Nodes> Snap<N> {
    /// Chooses whom a new member of this level is to be linked to, by beams of width `ef`. What it gives may be committed to the set as
    /// long as it isn't stale.
    pub fn prepare<L: Ledger>(
        &self,
        body: InlineBody,
        level: u8,
        ef: u32,
        slot: &mut Slot,
        reads: &mut Steps<L>,
    ) -> Result<Draft, NoMemory>
        requires fits { FitsDimension self.now.contents.dim body.bits }
        requires low { level ≤ 15 }
        requires wide { 1 ≤ ef }
        ensures { IfOk result (λ draft. IsDraft self.now body level ef draft) }
    {
        let _nodes = self.graph.nodes();
        let draft = prepare(
            self.alloc,
            &self.graph,
            self.cut,
            body,
            level,
            ef,
            slot,
            reads,
        )?;
        Ok(draft)
    }
}
