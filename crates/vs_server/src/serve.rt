//! Serving from the first link to the last: the store, the passes and the tickets are made before the first accept.
ghost use Rattle.std.specs.Prelude.{◌≡◌, ◌<◌, length};
ghost use Rattle.vs_defs.specs.Store.{usual_limits};
ghost use Rattle.vs_server.specs.Chains.{Serves};
ghost use Rattle.vs_server.specs.Ended.{Answers, IsServed};

use crate::workers::work;
use std::alloc::Global;
use std::marker::Brand;
use std::sync::Wait;
use std::thread::Threads;
use vs_history::TableName;
use vs_outside::{Gate, Listener};
use vs_shared::Opened;
use vs_store::Limits;
use vs_tickets::open;

/// How serving ended.
///
/// - `Done`: no accept failed, and so many links as were wanted were served.
/// - `AcceptFault`: an accept failed, and fewer were served.
/// - `NoMemory`: before the first accept.
#[derive(Clone, Copy, Debug, PartialEq, Eq)]
pub enum ServeEnd {
    Done,
    AcceptFault,
    NoMemory,
}

/// Serves `limit` links over one store of the usual limits, by one worker for each listener, in threads. A worker whose accept failed stops,
/// and the others go on. The listeners stay, in their order.
pub fn serve_links<L: Listener + Send, R: Threads + Wait + Sync, G: Gate + Sync>(
    rt: &R,
    alloc: Global,
    seed: u64,
    limit: u32,
    listeners: &mut Vec<L>,
    gate: &G,
) -> ServeEnd
    requires { (0 < length listeners.old.items) × (length listeners.old.items < 4294967296) }
    ensures answer { Answers (λ v. L.closed v) (λ v. L.faults v) limit listeners.old.items listeners.new.items result }
    ensures served { IsServed usual_limits seed (λ k s a b t. Serves (λ i. L.Input.left i) (λ i. L.Input.faults i) (λ o. L.Output.written o) (λ o. L.Output.faults o) usual_limits k s a b t) (λ v. L.given v) (λ v. L.closed v) listeners.old.items listeners.new.items }
{
    match Opened::new(alloc, Limits::usual()) {
        Ok(opened) => serve_named::<Brand, L, R, G>(
            rt, alloc, opened, seed, limit, listeners, gate,
        ),
        Err(_) => ServeEnd::NoMemory,
    }
}

// The same over this store, whose table has a name.
fn serve_named<
    N: TableName + Send + Sync,
    L: Listener + Send,
    R: Threads + Wait + Sync,
    G: Gate + Sync,
>(
    rt: &R,
    alloc: Global,
    opened: Opened,
    seed: u64,
    limit: u32,
    listeners: &mut Vec<L>,
    gate: &G,
) -> ServeEnd
    requires name { opened ≡ record { table = N.table; limits = N.limits } }
    requires some { (0 < length listeners.old.items) × (length listeners.old.items < 4294967296) }
    ensures answer { Answers (λ v. L.closed v) (λ v. L.faults v) limit listeners.old.items listeners.new.items result }
    ensures served { IsServed N.limits seed (λ k s a b t. Serves (λ i. L.Input.left i) (λ i. L.Input.faults i) (λ o. L.Output.written o) (λ o. L.Output.faults o) N.limits k s a b t) (λ v. L.given v) (λ v. L.closed v) listeners.old.items listeners.new.items }
{
    let count = listeners.len() as u32;
    let Ok((shared, passes)) = opened.named::<N>(alloc, seed, count, count) else {
        return ServeEnd::NoMemory;
    };
    let Ok((word, mut all)) = open(alloc, limit) else {
        return ServeEnd::NoMemory;
    };
    let Ok(workers) = Vec::with_capacity(alloc, count as usize) else {
        return ServeEnd::NoMemory;
    };
    let drawn = work(
        rt, alloc, &shared, passes, seed, &word, limit, &mut all, gate, listeners, workers,
    );
    if drawn == u64::from(limit) + u64::from(count) {
        return ServeEnd::Done;
    }
    ServeEnd::AcceptFault
}
