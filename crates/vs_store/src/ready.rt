//! An addition that is ready to be committed.
ghost use Rattle.std.specs.Prelude.{◌≡◌};
ghost use Rattle.vs_defs.specs.Bounds.{IsAddInBounds};
ghost use Rattle.vs_bits.specs.Requests.{add_of};

use std::marker::Model;
use vs_bits::Add;
use vs_insert::Draft;

/// An addition with CAS, its drawn word, and whom its member is to be linked to. Contracts see names with bits, and no id.
#[derive(Drop)]
pub struct Ready {
    pub(crate) add: Add,
    pub(crate) word: u32,
    pub(crate) draft: Draft,
}

impl Model for Ready {
    ghost use Rattle.vs_thread_defs.specs.Core as core;
    ghost use Rattle.vs_store.specs.Drafts.{ready_seen, IsReady};

    ghost Value = { core.Ready };

    ghost view = { λ r. ready_seen r.add r.word r.draft };

    ghost invariant = { λ r. IsReady r.add r.draft };
}

impl Ready {
    /// The addition.
    pub fn add(&self) -> &Add
        ensures value { add_of result.now ≡ self.now.add }
        ensures bounds { IsAddInBounds self.now.add }
    {
        &self.add
    }

    /// The addition and its drawn word; whom it was to be linked to is given up.
    pub fn into_add(self) -> (Add, u32)
        ensures add { add_of result.0 ≡ self.add }
        ensures drawn { result.1 ≡ self.drawn }
        ensures bounds { IsAddInBounds self.add }
    {
        let Ready { add, word, .. } = self;
        (add, word)
    }
}
