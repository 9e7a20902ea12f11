//! A search that has looked.
ghost use Rattle.std.specs.Prelude.{◌≡◌};

use std::alloc::Global;
use std::marker::Model;
use vs_command::Search;
use vs_set::{Kept, Snap};

/// A search with the set of its key as it was at the look, or none where the key was absent, and with the place of the member whose vector
/// is looked for, so that no name is looked up later.
#[derive(Drop)]
pub struct Looked {
    pub(crate) alloc: Global,
    pub(crate) search: Search,
    pub(crate) set: Option<Snap<Kept>>,
    pub(crate) place: Option<u32>,
}

impl Model for Looked {
    ghost use Rattle.vs_thread_defs.specs.Core as core;
    ghost use Rattle.vs_command.specs.Requests.{search_of};
    ghost use Rattle.vs_store.specs.Snapshots.{IsLook};

    ghost Value = { core.Looked };

    ghost view = { λ l. record { search = search_of l.search; set = l.set } };

    ghost invariant = { λ l. IsLook (record { search = search_of l.search; set = l.set }) l.place };
}

impl Looked {
    /// Whether the search goes through all members.
    pub fn has_truth(&self) -> bool
        ensures { result ≡ self.now.search.truth }
    {
        self.search.truth
    }
}
