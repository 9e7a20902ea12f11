//! A store that another author changes between two messages: a connection over it is a session of its own author.
ghost use Rattle.std.specs.Prelude.{◌≡◌, ◌≤◌, IfOk, codes};
ghost use Rattle.vs_defs.specs.Bytes.{Bytes};
ghost use Rattle.vs_defs.specs.Request as request;
ghost use Rattle.vs_command.specs.Requests.{request_of};
ghost use Rattle.vs_outside.specs.Known.{Adds, in_front};
ghost use Rattle.vs_session_defs.specs.Words.{generator as generator_of};
ghost use Rattle.vs_thread_defs.specs.Machine.{GraphHistory, IsGoodThroughout};
ghost use Rattle.vs_connection.specs.Connection.{EndsAt};
ghost use Rattle.vs_session.specs.Alone.{Call, Legal, fresh};
ghost use Rattle.vs_session_tests.specs.Shared.{IsAfter, OthersChange};

use std::alloc::Global;
use std::test::Fail;
use vs_command::{Answer, Refusal, Request};
use vs_connection::{SessionEnd, generator, serve_by};
use vs_outside::{List, MemSink, MemSource, NoMemory, Sink, Source, Text};
use vs_session::{Machine, Server};
use vs_slot::Slot;
use vs_store::{Limits, Store};

// The author 0 carries its requests out here. Before each of them the author 1 removes the member `a` of the set `s`.
#[derive(Drop)]
struct Shared {
    alloc: Global,
    store: Store,
    slot: Slot,
}

fn removal(alloc: Global) -> Result<Request, NoMemory>
    ensures { IfOk result (λ r. request_of r ≡ request.Vrem (codes "s") (codes "a")) }
{
    let key = Text::from_slice(alloc, b"s")?;
    let name = Text::from_slice(alloc, b"a")?;
    Ok(Request::Vrem { key, name })
}

// The author 1 makes its change, where there is memory for the request.
fn let_other_remove(alloc: Global, store: &mut Store, slot: &mut Slot)
    ensures { (h : GraphHistory) → IsAfter store.old h → OthersChange store.new h }
{
    if let Ok(request) = removal(alloc) {
        let _answer = store.do_now(1, &request, &[], slot);
    }
}

impl Machine for Shared {
    ghost Known = { GraphHistory };

    ghost call = { Call };

    ghost knows = { λ s k h. (k ≡ 0) × IsAfter s.store h };

    fn do_now(&mut self, request: Request, words: &[u32]) -> Result<Answer, Refusal> {
        let_other_remove(self.alloc, &mut self.store, &mut self.slot);
        self.store.do_now(0, &request, words, &mut self.slot)
    }
}

// One connection of the author 0.
fn serve_shared<S: Source, K: Sink>(alloc: Global, source: &mut S, sink: &mut K) -> SessionEnd
    ensures { (input : Bytes) × (output : Bytes) × (S.left source.old ≡ in_front input (S.left source.new))
        × Adds (K.written sink.old) output (K.written sink.new) × EndsAt Call 0 (λ h g. Legal h × IsGoodThroughout h) result (fresh (generator_of 7 0)) input output }
{
    let shared = Shared {
        alloc,
        store: Store::new(alloc, Limits::usual()),
        slot: Slot::new(alloc),
    };
    let mut server = Server::new(alloc, shared, generator(7, 0));
    serve_by(alloc, &mut server, source, sink)
}

#[test]
fn another_author_changes_the_store_between_messages(rt: HostRuntime) -> Result<(), Fail> {
    let alloc = rt.alloc();
    let input = b"VADD s VALUES 1 1 a\r\nVADD s VALUES 1 1 a\r\nVCARD s\r\n";
    let mut source = MemSource::new(Text::from_slice(alloc, input)?, 16_384, List::new(alloc));
    let mut sink = MemSink::new(alloc, 16_384, List::new(alloc));
    let end = serve_shared(alloc, &mut source, &mut sink);
    assert_eq!(rt; end, SessionEnd::Ended);
    assert_eq!(rt; sink.written(), b":1\r\n:1\r\n:0\r\n".as_slice());
    Ok(())
}
