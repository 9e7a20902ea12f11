//! A worker: a listener, a pass and a ticket seat of its own. It serves one link after another, each from where its pass was after the one
//! before.
ghost use Rattle.std.specs.Prelude.{◌≡◌, ◌<◌, [], true, false, if◌then◌else◌};
ghost use Rattle.vs_outside.specs.Links.{Rose};
ghost use Rattle.vs_session.specs.Shared.{point_of};
ghost use Rattle.vs_tickets.specs.Rule.{IsSeatOf};
ghost use Rattle.vs_server.specs.Chains.{Serves, Chained};
ghost use Rattle.vs_server.specs.Counts.{Counted, IsFresh, HasRun};

use std::alloc::Global;
use std::sync::Wait;
use std::thread::Threads;
use vs_history::TableName;
use vs_outside::{Accepted, Gate, Listener};
use vs_pass::Pass;
use vs_session::serve_connection;
use vs_shared::Shared;
use vs_tickets::{TicketSeat, TicketWord, draw};

/// A worker, and whether its listener failed.
pub(crate) struct Worker<N: TableName, L: Listener> {
    pub(crate) listener: L,
    pub(crate) pass: Pass<N>,
    pub(crate) ticket: TicketSeat,
    pub(crate) has_failed: bool,
}

// Serves one link, and says whether one was given.
#[tactic(auto, using(crate::proofs::Chaining::chained_one, crate::proofs::Chaining::may_close))]
fn serve_one<N: TableName, L: Listener, R: Threads + Wait + Sync, G: Gate>(
    rt: &R,
    alloc: Global,
    shared: &Shared<N>,
    gate: &G,
    listener: &mut L,
    pass: &mut Pass<N>,
) -> bool
    ensures counted { Counted (L.closed listener.old) (L.closed listener.new) (if result then 1 else 0) }
    ensures chained { Chained (λ k s a b t. Serves (λ i. L.Input.left i) (λ i. L.Input.faults i) (λ o. L.Output.written o) (λ o. L.Output.faults o) N.limits k s a b t) pass.old.number pass.new.number (point_of pass.old) (point_of pass.new) (L.given listener.old) (L.closed listener.old) (L.given listener.new) (L.closed listener.new) }
    ensures cause { result ≡ false → Rose (L.faults listener.old) (L.faults listener.new) }
    ensures calm { result ≡ true → L.faults listener.new ≡ L.faults listener.old }
{
    match listener.accept() {
        Accepted::Link(mut input, mut output) => {
            let _end = serve_connection(rt, alloc, shared, pass, &mut input, &mut output, gate);
            listener.close(input, output);
            true
        }
        Accepted::Failed => false,
    }
}

impl<N: TableName, L: Listener> Worker<N, L> {
    /// Serves links while tickets below the limit are left and the listener gives links.
    #[tactic(auto, using(crate::proofs::Counting::counted_none, crate::proofs::Counting::counted_more))]
    pub(crate) fn run<R: Threads + Wait + Sync, G: Gate>(
        &mut self,
        rt: &R,
        alloc: Global,
        shared: &Shared<N>,
        word: &TicketWord,
        limit: u32,
        gate: &G,
    )
        requires table { IsSeatOf word.now.shared.table_id self.old.ticket.table_id × (word.now.shared.key ≡ limit) }
        requires fresh { IsFresh self.old.ticket.me limit }
        ensures table { self.new.ticket.table_id ≡ self.old.ticket.table_id }
        ensures run { HasRun self.new.ticket.me limit self.new.has_failed (L.closed self.old.listener) (L.closed self.new.listener) }
        ensures cause { self.new.has_failed ≡ true → Rose (L.faults self.old.listener) (L.faults self.new.listener) }
        ensures calm { self.new.has_failed ≡ false → L.faults self.new.listener ≡ L.faults self.old.listener }
        ensures chained { Chained (λ k s a b t. Serves (λ i. L.Input.left i) (λ i. L.Input.faults i) (λ o. L.Output.written o) (λ o. L.Output.faults o) N.limits k s a b t) self.old.pass.number self.new.pass.number (point_of self.old.pass) (point_of self.new.pass) (L.given self.old.listener) (L.closed self.old.listener) (L.given self.new.listener) (L.closed self.new.listener) }
    {
        for _ in rt.forever() {
            if !draw(word, &mut self.ticket, limit) {
                self.has_failed = false;
                return;
            }
            if !serve_one(rt, alloc, shared, gate, &mut self.listener, &mut self.pass) {
                self.has_failed = true;
                return;
            }
        }
        unreachable!()
    }
}
