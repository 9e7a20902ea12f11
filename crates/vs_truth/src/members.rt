//! Members in their order, as an exact search reads them.
ghost use Rattle.std.specs.Prelude.{◌≡◌, ◌+◌, ◌≤◌, ◌<◌, List, length, slice_get, IsSomeAnd};
ghost use Rattle.std.specs.Option.{option_copied};
ghost use Rattle.vs_defs.specs.Store.{Member};
ghost use Rattle.vs_truth.specs.Nearest.{KeepsBits, AreRunOf};

use crate::Run;
use std::sync::ledger::Ledger;
use vs_graph::Steps;

/// Members by their places, from 0 on.
pub trait Members {
    ghost members: { Self → List Member };

    fn count(&self) -> u32
        ensures { result ≡ length (members self.now) };

    /// The words that keep the member's bits; at most one read.
    fn bits<L: Ledger>(&self, place: u32, reads: &mut Steps<L>) -> &[u64]
        requires { place < length (members self.now) }
        ensures kept { IsSomeAnd (slice_get (members self.now) place) (λ member. KeepsBits member.bits result.now) }
        ensures told { reads.new ≤ reads.old + 1 };

    /// The words of the members from a place on, of at most `most` of them, as far as they lie beside one another: of none where that is
    /// not known. Each row is a read.
    fn beside<L: Ledger>(&self, place: u32, most: u32, reads: &mut Steps<L>) -> Run
        requires { place + most ≤ length (members self.now) }
        ensures few { result.rows ≤ most }
        ensures run { 0 < result.rows → AreRunOf (members self.now) place result }
        ensures told { reads.new ≤ reads.old + result.rows };

    fn name(&self, place: u32) -> &[u8]
        requires { place < length (members self.now) }
        ensures { IsSomeAnd (slice_get (members self.now) place) (λ member. result.now ≡ member.name) };

    fn attr(&self, place: u32) -> Option<&[u8]>
        requires { place < length (members self.now) }
        ensures { IsSomeAnd (slice_get (members self.now) place) (λ member. option_copied result ≡ member.attr) };
}
