//! The workers: dealt from a vector of listeners, run in threads, and given back in their order. All room was taken before.
ghost use Rattle.std.specs.Prelude.{◌≡◌, ◌<◌, ◌≤◌, ◌++◌, ◌+◌, ◌-◌, [], true, false, All, length, min, sum_by, vec_capacity};
ghost use Rattle.vs_defs.specs.History.{IsPrefix};
ghost use Rattle.vs_thread_defs.specs.Machine.{GraphLegal, IsGoodThroughout};
ghost use Rattle.vs_outside.specs.Links.{Rose};
ghost use Rattle.vs_pass.specs.Knower.{newcomers};
ghost use Rattle.vs_session.specs.Shared.{point_of};
ghost use Rattle.vs_tickets.specs.Rule.{share, IsSeatOf};
ghost use Rattle.vs_server.specs.Chains.{Serves, Chained, start};
ghost use Rattle.vs_server.specs.Counts.{IsFresh, HasRun, AtEach};
ghost use Rattle.vs_server.specs.Ended.{back, seen_by, IsEnded, GoDown};

use crate::worker::Worker;
use std::alloc::Global;
use std::sync::Wait;
use std::thread;
use std::thread::Threads;
use vs_history::TableName;
use vs_outside::{Gate, Listener};
use vs_pass::Pass;
use vs_shared::Shared;
use vs_tickets::{TicketSeat, TicketWord, deal, gather, learn};

// Runs all workers, each in a thread of its own.
fn run_all<
    N: TableName + Send + Sync,
    L: Listener + Send,
    R: Threads + Wait + Sync,
    G: Gate + Sync,
>(
    rt: &R,
    alloc: Global,
    shared: &Shared<N>,
    word: &TicketWord,
    limit: u32,
    gate: &G,
    workers: &mut [Worker<N, L>],
)
    requires word { (word.now.shared.table_id.words ≡ 1) × (word.now.shared.key ≡ limit) }
    requires workers { All (λ h. (h.ticket.table_id ≡ word.now.shared.table_id) × IsFresh h.ticket.me limit) workers.old }
    ensures { AtEach (λ v w. (w.ticket.table_id ≡ v.ticket.table_id) × HasRun w.ticket.me limit w.has_failed (L.closed v.listener) (L.closed w.listener) × (w.has_failed ≡ true → Rose (L.faults v.listener) (L.faults w.listener)) × (w.has_failed ≡ false → L.faults w.listener ≡ L.faults v.listener) × Chained (λ k s a b t. Serves (λ i. L.Input.left i) (λ i. L.Input.faults i) (λ o. L.Output.written o) (λ o. L.Output.faults o) N.limits k s a b t) v.pass.number w.pass.number (point_of v.pass) (point_of w.pass) (L.given v.listener) (L.closed v.listener) (L.given w.listener) (L.closed w.listener)) workers.old workers.new }
{
    let count = workers.len();
    if count == 0 {
        return;
    }
    thread::for_each_mut(
        rt,
        workers,
        count,
        &|_, one: &mut Worker<N, L>|
            requires { (one.old.ticket.table_id ≡ word.now.shared.table_id) × IsFresh one.old.ticket.me limit × (word.now.shared.table_id.words ≡ 1) × (word.now.shared.key ≡ limit) }
            ensures { (one.new.ticket.table_id ≡ one.old.ticket.table_id) × HasRun one.new.ticket.me limit one.new.has_failed (L.closed one.old.listener) (L.closed one.new.listener) × (one.new.has_failed ≡ true → Rose (L.faults one.old.listener) (L.faults one.new.listener)) × (one.new.has_failed ≡ false → L.faults one.new.listener ≡ L.faults one.old.listener) × Chained (λ k s a b t. Serves (λ i. L.Input.left i) (λ i. L.Input.faults i) (λ o. L.Output.written o) (λ o. L.Output.faults o) N.limits k s a b t) one.old.pass.number one.new.pass.number (point_of one.old.pass) (point_of one.new.pass) (L.given one.old.listener) (L.closed one.old.listener) (L.given one.new.listener) (L.closed one.new.listener) }
        { one.run(rt, alloc, shared, word, limit, gate) },
    );
}

// Each listener leaves the vector and goes to a worker with a seat and a pass of its own. The last comes first, as its pass does.
#[tactic(auto, using(crate::proofs::Sums::parted_right))]
fn deal_all<N: TableName, L: Listener>(
    word: &TicketWord,
    all: &mut TicketSeat,
    listeners: &mut Vec<L>,
    passes: &mut Vec<Pass<N>>,
    seed: u64,
    workers: &mut Vec<Worker<N, L>>,
)
    requires word { IsSeatOf word.now.shared.table_id all.old.table_id × (all.old.me ≡ (share 4294967296 0 0 all.old.me.0.limit, [])) }
    requires room { (workers.old.items ≡ []) × (length listeners.old.items ≤ vec_capacity workers.old) × (length listeners.old.items < 4294967296) }
    requires passes { passes.old.items ≡ newcomers seed (length listeners.old.items) }
    ensures all { (all.new.table_id ≡ all.old.table_id) × (all.new.me ≡ (share (4294967296 - length workers.new.items) 0 0 all.old.me.0.limit, [])) }
    ensures listeners { (listeners.new.items ≡ []) × (vec_capacity listeners.new ≡ vec_capacity listeners.old) }
    ensures workers { (back (λ h. h.listener) workers.new.items ≡ listeners.old.items) × All (λ h. (h.ticket.table_id ≡ word.now.shared.table_id) × IsFresh h.ticket.me all.old.me.0.limit) workers.new.items × All (λ h. point_of h.pass ≡ start seed h.pass.number) workers.new.items × GoDown (λ h. h.pass.number) (length listeners.old.items) workers.new.items }
{
    while let Some(listener) = listeners.pop() {
        let Some(pass) = passes.pop() else {
            unreachable!()
        };
        let ticket = deal(word, all);
        workers.push_reserved(Worker {
            listener,
            pass,
            ticket,
            has_failed: false,
        });
    }
}

// Two passes meet, and the one is ended. The one that stays has seen what both had.
fn met<N: TableName, R: Wait>(
    rt: &R,
    shared: &Shared<N>,
    last: Option<Pass<N>>,
    pass: Pass<N>,
) -> Pass<N>
    ensures last { IsPrefix (seen_by last) result.seen }
    ensures pass { IsPrefix pass.seen result.seen }
{
    match last {
        Some(last) => met_two(rt, shared, last, pass),
        None => pass,
    }
}

// The second is ended.
fn met_two<N: TableName, R: Wait>(
    rt: &R,
    shared: &Shared<N>,
    mut one: Pass<N>,
    mut other: Pass<N>,
) -> Pass<N>
    ensures one { IsPrefix one.seen result.seen }
    ensures other { IsPrefix other.seen result.seen }
{
    shared.meet(&mut one, &mut other);
    shared.end(rt, other);
    one
}

// Each listener goes back to the vector, in the order in which it left it. Says how many tickets were drawn, and which pass has seen all.
#[tactic(auto, using(crate::proofs::Sums::parted_left, crate::proofs::Sums::met_all))]
fn give_back<N: TableName, L: Listener, R: Wait>(
    rt: &R,
    shared: &Shared<N>,
    word: &TicketWord,
    limit: u32,
    all: &mut TicketSeat,
    listeners: &mut Vec<L>,
    mut workers: Vec<Worker<N, L>>,
) -> (u64, Option<Pass<N>>)
    requires word { IsSeatOf word.now.shared.table_id all.old.table_id × (word.now.shared.key ≡ limit) }
    requires workers { All (λ h. (h.ticket.table_id ≡ word.now.shared.table_id) × (h.ticket.me ≡ (share 1 h.ticket.me.0.below h.ticket.me.0.past limit, []))) workers.items }
    requires all { (length workers.items < 4294967296) × (all.old.me ≡ (share (4294967296 - length workers.items) 0 0 limit, [])) }
    requires room { (listeners.old.items ≡ []) × (length workers.items ≤ vec_capacity listeners.old) }
    ensures below { sum_by (λ h. h.ticket.me.0.below) workers.items ≡ min result.0 limit }
    ensures past { sum_by (λ h. h.ticket.me.0.past) workers.items ≡ result.0 - limit }
    ensures met { All (λ h. IsPrefix h.pass.seen (seen_by result.1)) workers.items }
    ensures listeners { listeners.new.items ≡ back (λ h. h.listener) workers.items }
{
    let mut last: Option<Pass<N>> = None;
    while let Some(
        Worker {
            listener,
            pass,
            ticket,
            has_failed: _,
        },
    ) = workers.pop()
    {
        listeners.push_reserved(listener);
        gather(word, all, ticket);
        last = Some(met(rt, shared, last, pass));
    }
    workers.destroy_empty();
    (learn(word, all), last)
}

// Ends the last pass. What it had seen is legal and has good stores alone.
fn end_last<N: TableName, R: Wait>(rt: &R, shared: &Shared<N>, last: Option<Pass<N>>)
    ensures legal { GraphLegal N.limits (seen_by last) }
    ensures good { IsGoodThroughout (seen_by last) }
{
    if let Some(last) = last {
        let _known = last.known();
        shared.end(rt, last);
    }
}

/// Deals, runs, and gives the listeners back. Says how many tickets were drawn.
pub(crate) fn work<
    N: TableName + Send + Sync,
    L: Listener + Send,
    R: Threads + Wait + Sync,
    G: Gate + Sync,
>(
    rt: &R,
    alloc: Global,
    shared: &Shared<N>,
    mut passes: Vec<Pass<N>>,
    seed: u64,
    word: &TicketWord,
    limit: u32,
    all: &mut TicketSeat,
    gate: &G,
    listeners: &mut Vec<L>,
    mut workers: Vec<Worker<N, L>>,
) -> u64
    requires word { IsSeatOf word.now.shared.table_id all.old.table_id × (word.now.shared.key ≡ limit) × (all.old.me ≡ (share 4294967296 0 0 limit, [])) }
    requires some { (0 < length listeners.old.items) × (length listeners.old.items < 4294967296) }
    requires passes { passes.items ≡ newcomers seed (length listeners.old.items) }
    requires room { (workers.items ≡ []) × (length listeners.old.items ≤ vec_capacity workers) }
    ensures { IsEnded N.limits seed (λ k s a b t. Serves (λ i. L.Input.left i) (λ i. L.Input.faults i) (λ o. L.Output.written o) (λ o. L.Output.faults o) N.limits k s a b t) (λ v. L.given v) (λ v. L.closed v) (λ v. L.faults v) limit listeners.old.items listeners.new.items result }
{
    deal_all(word, all, listeners, &mut passes, seed, &mut workers);
    run_all(rt, alloc, shared, word, limit, gate, &mut workers);
    let (drawn, last) = give_back(rt, shared, word, limit, all, listeners, workers);
    end_last(rt, shared, last);
    drawn
}
