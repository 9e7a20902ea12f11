//! A connection, from its first byte to its end.
ghost use Rattle.std.specs.Prelude.{◌≡◌, ◌≢◌, ◌<◌, ◌++◌, true, false, ◌⊎◌, ◌↔◌, ℕ, List, Some, IfSome, IfOk, length, vec_len};
ghost use Rattle.rand_pcg.specs.Lcg.{Lcg};
ghost use Rattle.vs_defs.specs.Bytes.{Bytes};
ghost use Rattle.vs_defs.specs.Stream.{Message};
ghost use Rattle.vs_defs.specs.Reply.{Outcome, fault_line as fault_line_of};
ghost use Rattle.vs_outside.specs.Known.{Adds, in_front, NothingLeft};
ghost use Rattle.vs_resp.specs.Stands.{Stands, failure, bytes_taken, fault_of};
ghost use Rattle.vs_connection.specs.Written.{WrittenOf};
ghost use Rattle.vs_connection.specs.Point.{Point};
ghost use Rattle.vs_connection.specs.Connection.{EndsAt};
ghost use Rattle.vs_connection.specs.SoFar.{SoFar, AllAnswered, HasGiven};

use crate::SessionEnd;
use crate::handler::{Handler, Replied};
use crate::write::write_all;
use std::alloc::Global;
use vs_outside::{NoMemory, Sink, Source, Took};
use vs_reply::fault_line;
use vs_resp::{Decoder, Fault, FeedError};

// Answers each message that is ready, until a QUIT or a failed write. The decoder uses the memory of an answered message again.
fn answer_all<H: Handler, K: Sink>(
    decoder: &mut Decoder,
    handler: &mut H,
    sink: &mut K,
) -> Option<SessionEnd>
    requires given { HasGiven decoder.old }
    ensures given { HasGiven decoder.new }
    ensures session { (author : ℕ) (start : Point H.Known) (input : Bytes) (given : List Message) (outcomes : List Outcome) (output : Bytes) (h : H.Known) (g : Lcg) →
        SoFar H.call author decoder.old (H.after handler.old author) start input given outcomes output h g →
        (more : Bytes) × Adds (K.written sink.old) more (K.written sink.new)
        × AllAnswered H.call author result decoder.new (H.after handler.new author) start input (output ++ more) }
    ensures failure { failure decoder.new ≡ failure decoder.old }
    ensures taken { bytes_taken decoder.new ≡ bytes_taken decoder.old }
    ensures ends { IfSome result (λ end. (end ≡ SessionEnd.Quit) ⊎ (end ≡ SessionEnd.WriteFault)) }
    ensures failed { result ≡ Some SessionEnd.WriteFault → K.faults sink.old < K.faults sink.new }
    ensures unfailed { result ≢ Some SessionEnd.WriteFault → K.faults sink.new ≡ K.faults sink.old }
{
    while let Some(message) = decoder.next() {
        match handler.handle(message.as_slice(), sink) {
            Replied::Whole => decoder.take_back(message),
            Replied::Bye => return Some(SessionEnd::Quit),
            Replied::Failed => return Some(SessionEnd::WriteFault),
        }
    }
    None
}

const SPENT: u64 = 1 << 62;

// Whether a protocol fault's line was written whole.
fn write_fault<K: Sink>(fault: Fault, at: u64, sink: &mut K) -> bool
    ensures written { WrittenOf (K.written sink.old) (fault_line_of (fault_of fault) at) result (K.written sink.new) }
    ensures failed { result ≡ false → K.faults sink.old < K.faults sink.new }
    ensures unfailed { result ≡ true → K.faults sink.new ≡ K.faults sink.old }
{
    let line = fault_line(fault, at);
    write_all(sink, line.as_slice())
}

// Serves a connection through this buffer.
fn serve_with<H: Handler, S: Source, K: Sink>(
    alloc: Global,
    handler: &mut H,
    buffer: &mut [u8],
    source: &mut S,
    sink: &mut K,
) -> SessionEnd
    requires some { 0 < length buffer.old }
    requires few { length buffer.old < 65536 }
    ensures session { (author : ℕ) (start : Point H.Known) → H.after handler.old author start.history start.generator
        → (input : Bytes) × (output : Bytes) × (S.left source.old ≡ in_front input (S.left source.new))
        × Adds (K.written sink.old) output (K.written sink.new) × EndsAt H.call author (H.after handler.new author) result start input output }
    ensures end { (result ≡ SessionEnd.Ended) ⊎ (result ≡ SessionEnd.CutShort) → NothingLeft (S.left source.new) }
    ensures read_fault { result ≡ SessionEnd.ReadFault → S.faults source.old < S.faults source.new }
    ensures write_fault { result ≡ SessionEnd.WriteFault → K.faults sink.old < K.faults sink.new }
    ensures unfailed_read { result ≢ SessionEnd.ReadFault → S.faults source.new ≡ S.faults source.old }
    ensures unfailed_write { result ≢ SessionEnd.WriteFault → K.faults sink.new ≡ K.faults sink.old }
{
    let mut decoder = Decoder::new(alloc);
    let mut taken: u64 = 0;
    while taken < SPENT {
        let n = match source.read(buffer) {
            Took::Bytes(n) => n,
            Took::Failed => return SessionEnd::ReadFault,
            Took::End => {
                if decoder.at_border() {
                    return SessionEnd::Ended;
                }
                return SessionEnd::CutShort;
            }
        };
        taken += n as u64;
        let fed = decoder.feed(&buffer[..n]);
        if let Some(end) = answer_all(&mut decoder, handler, sink) {
            return end;
        }
        match fed {
            Ok(()) => {}
            Err(error) => match error {
                FeedError::NoMemory => return SessionEnd::NoMemory,
                FeedError::Protocol { fault, at } => {
                    if write_fault(fault, at, sink) {
                        return SessionEnd::Protocol { fault, at };
                    }
                    return SessionEnd::WriteFault;
                }
            },
        }
    }
    SessionEnd::Spent
}

fn make_room(alloc: Global, size: usize) -> Result<Vec<u8>, NoMemory>
    ensures { IfOk result (λ room. vec_len room ≡ size) }
{
    vec![in alloc; 0u8; size]
}

/// Serves one connection by this handler, from wherever it is in the history to where the connection leaves it. The changes are those of
/// the author that it serves; others may lengthen the history between two messages. The first failed read or write ends the connection.
///
/// No clause says when it reads: it reads no more before each message that it has whole is answered, the replies written whole and in
/// order, and at most 16,384 bytes at once.
pub fn serve_by<H: Handler, S: Source, K: Sink>(
    alloc: Global,
    handler: &mut H,
    source: &mut S,
    sink: &mut K,
) -> SessionEnd
    ensures session { (author : ℕ) (start : Point H.Known) → H.after handler.old author start.history start.generator
        → (input : Bytes) × (output : Bytes) × (S.left source.old ≡ in_front input (S.left source.new))
        × Adds (K.written sink.old) output (K.written sink.new) × EndsAt H.call author (H.after handler.new author) result start input output }
    ensures end { (result ≡ SessionEnd.Ended) ⊎ (result ≡ SessionEnd.CutShort) → NothingLeft (S.left source.new) }
    ensures read_fault { (result ≡ SessionEnd.ReadFault) ↔ (S.faults source.old < S.faults source.new) }
    ensures write_fault { (result ≡ SessionEnd.WriteFault) ↔ (K.faults sink.old < K.faults sink.new) }
{
    match make_room(alloc, 16_384) {
        Ok(mut room) => serve_with(alloc, handler, &mut room, source, sink),
        Err(_) => SessionEnd::NoMemory,
    }
}
