//! The replies of a connection. A short one takes no memory; a longer one is composed in a buffer that is kept from one to the next. An answer
//! for whose reply there is no memory is replied as out of memory.
ghost use Rattle.std.specs.Prelude.{◌≡◌, ◌≢◌, ◌<◌, ◌⊎◌, None, Ok, IfOk};
ghost use Rattle.vs_defs.specs.Reply.{Outcome, Answered, OutOfMemory, reply};
ghost use Rattle.vs_session_defs.specs.Session.{is_bye};
ghost use Rattle.vs_command.specs.Answers.{answer_of};
ghost use Rattle.vs_command.specs.Outcomes.{outcome_of};
ghost use Rattle.vs_command.specs.Scores.{HasScores};
ghost use Rattle.vs_reply.specs.Replies.{short_of};
ghost use Rattle.vs_connection.specs.Served.{IsReplied};

use std::alloc::Global;
use std::mem;
use vs_command::{Answer, Refusal};
use vs_connection::{Replied, write_all};
use vs_outside::{Sink, Text};
use vs_reply::{Proto, reply_into, short_reply};

/// The buffer in which long replies are composed.
#[derive(Drop)]
pub(crate) struct Replies {
    alloc: Global,
    buffer: Text,
}

/// The most bytes of memory that the buffer keeps from one reply to the next.
const KEPT_BYTES: usize = 65_536;

impl Replies {
    /// An empty buffer. It takes no memory.
    pub(crate) fn new(alloc: Global) -> Replies {
        Replies {
            alloc,
            buffer: Text::new(alloc),
        }
    }

    /// Writes the reply to an outcome whole, unless the sink fails.
    pub(crate) fn write<K: Sink>(
        &mut self,
        outcome: &Result<Answer, Refusal>,
        sink: &mut K,
    ) -> Replied
        requires scores { IfOk outcome.now HasScores }
        ensures replied { IsReplied result (K.written sink.old) (K.written sink.new) (outcome_of outcome.now)
            ⊎ ((short_of outcome.now ≡ None) × IsReplied result (K.written sink.old) (K.written sink.new) OutOfMemory) }
        ensures failed { result ≡ Replied.Failed → K.faults sink.old < K.faults sink.new }
        ensures unfailed { result ≢ Replied.Failed → K.faults sink.new ≡ K.faults sink.old }
    {
        if let Some(short) = short_reply(outcome) {
            return write_line(short.as_slice(), is_quit(outcome), sink);
        }
        match outcome {
            Ok(answer) => {
                let replied = write_answer(&mut self.buffer, answer, sink);
                let buffer = mem::replace(&mut self.buffer, Text::new(self.alloc));
                self.buffer = kept(self.alloc, buffer);
                replied
            }
            Err(_) => unreachable!(),
        }
    }
}

// A buffer for the next reply: this one, unless a long reply has made it large.
fn kept(alloc: Global, buffer: Text) -> Text {
    let bytes = buffer.into_vec();
    if bytes.capacity() > KEPT_BYTES {
        return Text::new(alloc);
    }
    Text::from_vec(bytes)
}

// Whether it is the answer of QUIT.
fn is_quit(outcome: &Result<Answer, Refusal>) -> bool
    ensures { result ≡ is_bye (outcome_of outcome.now) }
{
    matches!(outcome, Ok(Answer::Bye))
}

// Writes a reply whole, unless the sink fails.
fn write_line<K: Sink>(line: &[u8], bye: bool, sink: &mut K) -> Replied
    ensures replied { (o : Outcome) → reply o ≡ line.now → is_bye o ≡ bye → IsReplied result (K.written sink.old) (K.written sink.new) o }
    ensures failed { result ≡ Replied.Failed → K.faults sink.old < K.faults sink.new }
    ensures unfailed { result ≢ Replied.Failed → K.faults sink.new ≡ K.faults sink.old }
{
    if !write_all(sink, line) {
        return Replied::Failed;
    }
    if bye { Replied::Bye } else { Replied::Whole }
}

// Tells that there is no memory for a reply.
fn write_want_of_memory<K: Sink>(sink: &mut K) -> Replied
    ensures replied { IsReplied result (K.written sink.old) (K.written sink.new) OutOfMemory }
    ensures failed { result ≡ Replied.Failed → K.faults sink.old < K.faults sink.new }
    ensures unfailed { result ≢ Replied.Failed → K.faults sink.new ≡ K.faults sink.old }
{
    match short_reply(&Err(Refusal::NoMemory)) {
        Some(line) => write_line(line.as_slice(), false, sink),
        None => unreachable!(),
    }
}

// Writes the reply of an answer through a buffer, or tells that there is no memory for it.
fn write_answer<K: Sink>(buffer: &mut Text, answer: &Answer, sink: &mut K) -> Replied
    requires scores { HasScores answer.now }
    requires long { short_of (Ok answer.now) ≡ None }
    ensures replied { IsReplied result (K.written sink.old) (K.written sink.new) (Answered (answer_of answer.now))
        ⊎ IsReplied result (K.written sink.old) (K.written sink.new) OutOfMemory }
    ensures failed { result ≡ Replied.Failed → K.faults sink.old < K.faults sink.new }
    ensures unfailed { result ≢ Replied.Failed → K.faults sink.new ≡ K.faults sink.old }
{
    buffer.clear();
    match reply_into(buffer, answer, Proto::Two) {
        Ok(()) => write_line(buffer.as_slice(), false, sink),
        Err(_) => write_want_of_memory(sink),
    }
}
