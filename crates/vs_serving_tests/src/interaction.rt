//! A client that waits for each reply before it sends more is served by a pass as by a server of its own, and no read is longer than
//! 16,384 bytes.
ghost use Rattle.std.specs.Prelude.{◌≡◌};

use std::alloc::Global;
use std::marker::Brand;
use std::process::Abort;
use std::sync::Wait;
use std::test::*;
use std::thread::Threads;
use vs_connection::SessionEnd;
use vs_history::TableName;
use vs_outside::{NoGate, Sink, Source};
use vs_pass::Pass;
use vs_session::serve_connection;
use vs_session_tests::conversation::{CONVERSATIONS, Conversation, Pieces, Serve, converses};
use vs_shared::{Opened, Shared};
use vs_store::Limits;

// A pass over a shared store, and what waits for its lock.
#[derive(Drop)]
struct Served<'a, N: TableName, R> {
    rt: &'a R,
    shared: &'a Shared<N>,
    pass: Pass<N>,
}

impl<'a, N: TableName, R: Threads + Wait + Sync> Serve for Served<'a, N, R> {
    ghost use Rattle.std.specs.Thread.{IsSync};

    ghost ready = { λ _. IsSync R.row };

    fn serve<S: Source, K: Sink>(
        &mut self,
        alloc: Global,
        source: &mut S,
        sink: &mut K,
    ) -> SessionEnd {
        serve_connection(
            self.rt,
            alloc,
            self.shared,
            &mut self.pass,
            source,
            sink,
            &NoGate,
        )
    }
}

#[test]
fn a_client_that_waits_for_each_reply_is_served(rt: HostRuntime) -> Result<(), Fail> {
    for conversation in CONVERSATIONS {
        for pieces in [Pieces::Messages(1), Pieces::Messages(2), Pieces::Bytes] {
            let opened = Opened::new(rt.alloc(), Limits::usual())?;
            conversed::<Brand, _>(&rt, rt.alloc(), opened, conversation, pieces)?;
        }
    }
    Ok(())
}

fn conversed<N: TableName, R: Threads + Wait + Abort + Sync>(
    rt: &R,
    alloc: Global,
    opened: Opened,
    conversation: Conversation,
    pieces: Pieces,
) -> Result<(), Fail>
    requires { opened ≡ record { table = N.table; limits = N.limits } }
{
    let (shared, mut passes) = opened.named::<N>(alloc, 7, 1, 1)?;
    let mut served = Served {
        rt,
        shared: &shared,
        pass: passes.pop().ok_or("a pass")?,
    };
    assert!(rt; converses(alloc, &mut served, conversation, pieces)?);
    Ok(())
}
