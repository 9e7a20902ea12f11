//! A connection alone, over a store of its own: each change of the store is one of the connection's own requests, and leaves a good store.
ghost use Rattle.std.specs.Prelude.{◌≡◌, ◌<◌, ◌⊎◌, ◌↔◌, List};
ghost use Rattle.vs_defs.specs.Bytes.{Bytes};
ghost use Rattle.vs_defs.specs.Stream.{Message};
ghost use Rattle.vs_session_defs.specs.Words.{generator as generator_of};
ghost use Rattle.vs_outside.specs.Known.{Adds, in_front, NothingLeft};
ghost use Rattle.vs_thread_defs.specs.Machine.{GraphHistory};
ghost use Rattle.vs_connection.specs.Complete.{HasWhole};
ghost use Rattle.vs_session.specs.Alone.{Call, Stored, EndsWith, CompletesAlone};

use crate::{Machine, Server};
use std::alloc::Global;
use vs_command::{Answer, Refusal, Request};
use vs_connection::{SessionEnd, generator, serve_by};
use vs_outside::{Sink, Source};
use vs_slot::Slot;
use vs_store::{Limits, Store};

// A store that nobody else changes, with the one slot in which all its searches run.
#[derive(Drop)]
struct OwnStore {
    store: Store,
    slot: Slot,
}

impl Machine for OwnStore {
    ghost Known = { GraphHistory };

    ghost call = { Call };

    ghost knows = { λ s k h. Stored s.store k h };

    fn do_now(&mut self, request: Request, words: &[u32]) -> Result<Answer, Refusal> {
        self.store.do_now(0, &request, words, &mut self.slot)
    }
}

/// Serves one connection by a fresh store of the usual limits. The drawn words are those of the stream 0 of the seed.
/// The first failed read or write ends the connection.
///
/// As of `serve_by`, no clause says when it reads: each message is answered, and its reply written whole, before it reads or answers more.
pub fn serve_alone<S: Source, K: Sink>(
    alloc: Global,
    seed: u64,
    source: &mut S,
    sink: &mut K,
) -> SessionEnd
    ensures session { (input : Bytes) × (output : Bytes) × (S.left source.old ≡ in_front input (S.left source.new))
        × Adds (K.written sink.old) output (K.written sink.new) × EndsWith result (generator_of seed 0) input output }
    ensures end { (result ≡ SessionEnd.Ended) ⊎ (result ≡ SessionEnd.CutShort) → NothingLeft (S.left source.new) }
    ensures read_fault { (result ≡ SessionEnd.ReadFault) ↔ (S.faults source.old < S.faults source.new) }
    ensures write_fault { (result ≡ SessionEnd.WriteFault) ↔ (K.faults sink.old < K.faults sink.new) }
    ensures complete { (messages : List Message) → HasWhole (S.left source.old) messages → S.faults source.new ≡ S.faults source.old → K.faults sink.new ≡ K.faults sink.old
        → CompletesAlone result (generator_of seed 0) messages (S.left source.new) (K.written sink.old) (K.written sink.new) }
{
    let machine = OwnStore {
        store: Store::new(alloc, Limits::usual()),
        slot: Slot::new(alloc),
    };
    let mut server = Server::new(alloc, machine, generator(seed, 0));
    serve_by(alloc, &mut server, source, sink)
}
