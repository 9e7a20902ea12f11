//! A connection over a shared store, by a pass: each message is one call of the pass, and its reply is written before the next.
ghost use Rattle.std.specs.Prelude.{◌≡◌, ◌<◌, ◌≤◌, ◌⊎◌, ◌↔◌, None, All, ℕ, List, length, IfOk};
ghost use mathlib.Core.HProp.{IsProp-prop};
ghost use Rattle.rand_pcg.specs.Lcg.{Lcg};
ghost use Rattle.vs_defs.specs.Bytes.{Bytes};
ghost use Rattle.vs_defs.specs.Stream.{Message};
ghost use Rattle.vs_defs.specs.Reply as outcome;
ghost use Rattle.vs_command.specs.Outcomes.{outcome_of};
ghost use Rattle.vs_command.specs.Scores.{HasScores};
ghost use Rattle.vs_reply.specs.Replies.{short_of};
ghost use Rattle.vs_thread_defs.specs.Machine.{GraphCall, IsGoodThroughout};
ghost use Rattle.vs_connection.specs.Served.{IsServed};
ghost use Rattle.vs_connection.specs.Complete.{HasWhole, IsComplete};
ghost use Rattle.vs_outside.specs.Known.{Adds, in_front, NothingLeft};
ghost use Rattle.vs_session.specs.Shared.{Lent, lent_call, IsAt, point_of, ServesPass};

use crate::call::call_by;
use crate::finishing::Finishing;
use crate::replies::Replies;
use std::alloc::Global;
use std::sync::Wait;
use std::thread::Threads;
use vs_command::{Answer, Refusal, read_request};
use vs_connection::{Handler, Replied, SessionEnd, serve_by};
use vs_history::TableName;
use vs_outside::{Gate, Sink, Source, Text};
use vs_pass::Pass;
use vs_shared::Shared;

// What a connection's messages are carried out with. It owns no memory, so that its caller knows what it leaves behind each reference.
#[derive(Drop)]
struct SharedServer<'a, N: TableName, R: Finishing, G> {
    rt: &'a R,
    alloc: Global,
    shared: &'a Shared<N>,
    pass: &'a mut Pass<N>,
    gate: &'a G,
    replies: &'a mut Replies,
    ghost single: { IsProp (R.ready rt.now) } by { IsProp-prop },
    ghost ready: { R.ready rt.now } by { single },
}

impl<'a, N: TableName, R: Wait + Finishing, G: Gate> SharedServer<'a, N, R, G> {
    // Reads a request and carries it out.
    fn carry_out(&mut self, message: &[Text]) -> Result<Answer, Refusal>
        requires some { 0 < length message.now }
        requires few { length message.now ≤ 65536 }
        requires short { All (λ word. length word ≤ 65536) message.now }
        ensures served { (author : ℕ) (h : Lent) (g : Lcg) → IsAt self.old.pass.now self.old.pass.ghost_name author h g
            → IsServed (lent_call N.limits) author (IsAt self.new.pass.now self.new.pass.ghost_name author) (λ o. o ≡ outcome_of result) g h message.now }
        ensures long { short_of result ≡ None → (author : ℕ) (h : Lent) (g : Lcg) → IsAt self.old.pass.now self.old.pass.ghost_name author h g
            → IsServed (lent_call N.limits) author (IsAt self.new.pass.now self.new.pass.ghost_name author) (λ o. o ≡ outcome.OutOfMemory) g h message.now }
        ensures scores { IfOk result HasScores }
    {
        let request = read_request(self.alloc, message)?;
        call_by(
            self.rt,
            self.alloc,
            self.shared,
            self.pass,
            &request,
            self.gate,
        )
    }
}

impl<'a, N: TableName, R: Wait + Finishing, G: Gate> Handler for SharedServer<'a, N, R, G> {
    ghost use Rattle.vs_session.specs.Shared.{Lent, lent_call, IsAt};

    ghost Known = { Lent };

    ghost call = { lent_call N.limits };

    ghost after = { λ s k h g. IsAt s.pass.now s.pass.ghost_name k h g };

    fn handle<K: Sink>(&mut self, message: &[Text], sink: &mut K) -> Replied {
        let outcome = self.carry_out(message);
        self.replies.write(&outcome, sink)
    }
}

/// Serves one connection by a pass over a shared store. Its changes are those of the pass's number, and its random words are the next of
/// the pass's stream. The first failed read or write ends the connection. Every store of the history that the pass knows has reciprocal and
/// bounded links between members that are there.
///
/// As of `serve_by`, no clause says when it reads: each message is answered, and its reply written whole, before it reads or answers more.
pub fn serve_connection<N: TableName, R: Threads + Wait + Sync, S: Source, K: Sink, G: Gate>(
    rt: &R,
    alloc: Global,
    shared: &Shared<N>,
    pass: &mut Pass<N>,
    source: &mut S,
    sink: &mut K,
    gate: &G,
) -> SessionEnd
    ensures session { (input : Bytes) × (output : Bytes) × (S.left source.old ≡ in_front input (S.left source.new))
        × Adds (K.written sink.old) output (K.written sink.new) × ServesPass N.limits result pass.old input output pass.new }
    ensures good { IsGoodThroughout pass.new.seen }
    ensures end { (result ≡ SessionEnd.Ended) ⊎ (result ≡ SessionEnd.CutShort) → NothingLeft (S.left source.new) }
    ensures read_fault { (result ≡ SessionEnd.ReadFault) ↔ (S.faults source.old < S.faults source.new) }
    ensures write_fault { (result ≡ SessionEnd.WriteFault) ↔ (K.faults sink.old < K.faults sink.new) }
    ensures complete { (messages : List Message) → HasWhole (S.left source.old) messages → S.faults source.new ≡ S.faults source.old → K.faults sink.new ≡ K.faults sink.old
        → IsComplete (GraphCall N.limits) pass.old.number (point_of pass.old) result messages (S.left source.new) (K.written sink.old) (K.written sink.new) (point_of pass.new) }
{
    let mut replies = Replies::new(alloc);
    let mut server = SharedServer {
        rt,
        alloc,
        shared,
        pass,
        gate,
        replies: &mut replies,
    };
    let end = serve_by(alloc, &mut server, source, sink);
    // What a pass knows has good stores alone.
    let _known = server.pass.known();
    end
}
