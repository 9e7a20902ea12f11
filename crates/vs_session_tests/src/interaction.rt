//! A client that waits for each reply before it sends more is served, and no read is longer than 16,384 bytes.
use crate::conversation::{CONVERSATIONS, Pieces, Serve, converses};
use std::alloc::Global;
use std::test::Fail;
use vs_connection::SessionEnd;
use vs_outside::{Sink, Source};
use vs_session::serve_alone;

#[derive(Drop)]
struct Alone;

impl Serve for Alone {
    ghost ready = { λ _. Unit {0} };

    fn serve<S: Source, K: Sink>(
        &mut self,
        alloc: Global,
        source: &mut S,
        sink: &mut K,
    ) -> SessionEnd {
        serve_alone(alloc, 7, source, sink)
    }
}

#[test]
fn a_client_that_waits_for_each_reply_is_served(rt: HostRuntime) -> Result<(), Fail> {
    for conversation in CONVERSATIONS {
        for pieces in [Pieces::Messages(1), Pieces::Messages(2), Pieces::Bytes] {
            assert!(rt; converses(rt.alloc(), &mut Alone, conversation, pieces)?);
        }
    }
    Ok(())
}
