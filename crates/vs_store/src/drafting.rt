//! An addition that was drafted.
use std::alloc::Global;
use std::marker::Model;
use vs_bits::Add;
use vs_set::{Kept, Snap};

/// An addition with CAS, its drawn word, and the set of its key as it was at the draft.
#[derive(Drop)]
pub struct Drafting {
    pub(crate) alloc: Global,
    pub(crate) add: Add,
    pub(crate) word: u32,
    pub(crate) set: Snap<Kept>,
}

impl Model for Drafting {
    ghost use Rattle.vs_thread_defs.specs.Core as core;
    ghost use Rattle.vs_bits.specs.Requests.{add_of};
    ghost use Rattle.vs_store.specs.Snapshots.{IsDraft};

    ghost Value = { core.Drafting };

    ghost view = { λ d. record { add = add_of d.add; drawn = d.word; set = d.set } };

    ghost invariant = { λ d. IsDraft (record { add = add_of d.add; drawn = d.word; set = d.set }) };
}
