//! One line after another: what it prints is written whole before the next is looked at.
ghost use Rattle.std.specs.Prelude.{◌≡◌, ◌≢◌, ◌<◌, ◌≤◌, ◌+◌, ◌++◌, ◌^◌, length, [], Some, None, IfOk};
ghost use Rattle.vs_defs.specs.Bytes.{Bytes};
ghost use Rattle.vs_defs.specs.Request as request;
ghost use Rattle.vs_command.specs.Refusals.{refusal_of};
ghost use Rattle.vs_core.specs.Actors.{seen_at, busy_of};
ghost use Rattle.vs_core.specs.Events.{step_outcome_of, StepHasScores};
ghost use Rattle.vs_schedule.specs.Lines.{unread_by};
ghost use Rattle.vs_outside.specs.Known.{Adds};
ghost use Rattle.vs_schedule.specs.Ends.{EndsWith};
ghost use Rattle.vs_schedule.specs.Stage.{Stage, StandsAt};
ghost use Rattle.vs_schedule.specs.Answered.{Answers, Carries, Refuses, Going, Took};

use crate::ScheduleEnd;
use crate::begins::{Beginning, read_beginning};
use crate::line::{Line, read_line};
use crate::print::push_event;
use std::alloc::Global;
use vs_command::Refusal;
use vs_connection::write_all;
use vs_core::{Core, StepError, StepOutcome};
use vs_outside::{NoMemory, Sink, Text};
use vs_schedule_words::{is_too_long, push_bad_line, take_line};

/// A schedule that is being run: the core, once the actors are named; the bytes of the line that isn't whole yet, and its number.
#[derive(Drop)]
pub(crate) struct Runner {
    alloc: Global,
    core: Option<Core>,
    line: Text,
    number: u64,
    printed: Text,
}

// A line without a core: whether it names the actors, or is blank.
fn open(alloc: Global, core: &mut Option<Core>, line: &[u8]) -> Result<bool, NoMemory>
    requires { core.old ≡ None }
    ensures carries { IfOk result (Carries None line.now [] core.new) }
{
    match read_beginning(alloc, line)? {
        Beginning::Blank => Ok(true),
        Beginning::Bad => Ok(false),
        Beginning::Begins { actors, limits } => {
            *core = Some(Core::new(alloc, actors, limits)?);
            Ok(true)
        }
    }
}

// What comes of words that aren't read: the errors of the actor come first.
fn unread_outcome(core: &Core, actor: u32, refusal: Refusal) -> Result<StepOutcome, StepError>
    ensures outcome { (cause : request.Refusal) → refusal_of refusal ≡ Some cause → step_outcome_of result ≡ unread_by (busy_of (seen_at core.now actor)) cause }
    ensures scores { IfOk result StepHasScores }
{
    match core.busy(actor) {
        Some(error) => Err(error),
        None => Ok(StepOutcome::Refused(refusal)),
    }
}

// A line for the core: what it prints is put into `printed`. Whether it is no bad line.
fn happen(alloc: Global, core: &mut Core, line: &[u8], printed: &mut Text) -> Result<bool, NoMemory>
    requires { printed.old ≡ [] }
    ensures carries { IfOk result (Carries (Some core.old) line.now printed.new (Some core.new)) }
{
    match read_line(alloc, line)? {
        Line::Blank => Ok(true),
        Line::Bad => Ok(false),
        Line::Happening { verb, event } => {
            let actor = event.actor();
            let outcome = core.step(event);
            push_event(alloc, printed, actor, verb, outcome)?;
            Ok(true)
        }
        Line::Unread {
            actor,
            verb,
            refusal,
        } => {
            let outcome = unread_outcome(core, actor, refusal);
            push_event(alloc, printed, actor, verb, outcome)?;
            Ok(true)
        }
    }
}

impl Runner {
    /// A run in which no line was answered.
    pub(crate) fn new(alloc: Global) -> Runner
        ensures core { result.core ≡ None }
        ensures line { result.line ≡ [] }
        ensures number { result.number ≡ 1 }
    {
        Runner {
            alloc,
            core: None,
            line: Text::new(alloc),
            number: 1,
            printed: Text::new(alloc),
        }
    }

    // Carries the line out, and puts what it prints into `printed`. Whether it is no bad line.
    fn carry_out(&mut self) -> Result<bool, NoMemory>
        ensures carries { IfOk result (Carries self.old.core self.old.line self.new.printed self.new.core) }
        ensures kept { (self.new.line ≡ self.old.line) × (self.new.number ≡ self.old.number) }
    {
        self.printed.clear();
        let line = self.line.as_slice();
        match &mut self.core {
            Some(core) => happen(self.alloc, core, line, &mut self.printed),
            None => open(self.alloc, &mut self.core, line),
        }
    }

    // Tells that the line is bad.
    fn refuse<K: Sink>(&mut self, sink: &mut K) -> ScheduleEnd
        ensures refuses { (out : Bytes) × Adds (K.written sink.old) out (K.written sink.new) × Refuses self.old.number result out }
        ensures failed { result ≡ ScheduleEnd.WriteFault → K.faults sink.old < K.faults sink.new }
        ensures unfailed { result ≢ ScheduleEnd.WriteFault → K.faults sink.new ≡ K.faults sink.old }
    {
        self.printed.clear();
        if push_bad_line(&mut self.printed, self.number).is_err() {
            return ScheduleEnd::NoMemory;
        }
        if write_all(sink, self.printed.as_slice()) {
            ScheduleEnd::BadLine { line: self.number }
        } else {
            ScheduleEnd::WriteFault
        }
    }

    /// Answers the line, whose bytes are all there, and writes what it prints. The next line is then empty.
    pub(crate) fn answer<K: Sink>(&mut self, sink: &mut K) -> Option<ScheduleEnd>
        requires { self.old.number < 2 ^ 63 }
        ensures answers { (stage : Stage) → StandsAt self.old.core stage → (out : Bytes) × (next : Stage) × Adds (K.written sink.old) out (K.written sink.new)
            × Answers self.old.number stage self.old.line result out next × (result ≡ None → StandsAt self.new.core next) }
        ensures next { result ≡ None → (self.new.line ≡ []) × (self.new.number ≡ self.old.number + 1) }
        ensures ends { (result ≢ Some ScheduleEnd.Ended) × (result ≢ Some ScheduleEnd.ReadFault) }
        ensures failed { result ≡ Some ScheduleEnd.WriteFault → K.faults sink.old < K.faults sink.new }
        ensures unfailed { result ≢ Some ScheduleEnd.WriteFault → K.faults sink.new ≡ K.faults sink.old }
    {
        match self.carry_out() {
            Ok(true) => {
                if !write_all(sink, self.printed.as_slice()) {
                    return Some(ScheduleEnd::WriteFault);
                }
                self.number += 1;
                self.line.clear();
                None
            }
            Ok(false) => Some(self.refuse(sink)),
            Err(_) => Some(ScheduleEnd::NoMemory),
        }
    }

    /// Takes a piece of the input, and answers each line that is then whole. A line that is too long is bad before its end is seen.
    pub(crate) fn take<K: Sink>(&mut self, piece: &[u8], sink: &mut K) -> Option<ScheduleEnd>
        requires { self.old.number + length piece.now < 2 ^ 63 }
        ensures takes { (input : Bytes) (out : Bytes) → Going self.old.core self.old.line piece.now self.old.number input out → (more : Bytes)
            × Adds (K.written sink.old) more (K.written sink.new) × Took result self.new.core self.new.line self.new.number input (out ++ more) }
        ensures number { result ≡ None → self.new.number ≤ self.old.number + length piece.now }
        ensures ends { (result ≢ Some ScheduleEnd.Ended) × (result ≢ Some ScheduleEnd.ReadFault) }
        ensures failed { result ≡ Some ScheduleEnd.WriteFault → K.faults sink.old < K.faults sink.new }
        ensures unfailed { result ≢ Some ScheduleEnd.WriteFault → K.faults sink.new ≡ K.faults sink.old }
    {
        let mut rest = piece;
        loop {
            match take_line(&mut self.line, rest) {
                Err(_) => return Some(ScheduleEnd::NoMemory),
                Ok(None) => break,
                Ok(Some(behind)) => {
                    if let Some(end) = self.answer(sink) {
                        return Some(end);
                    }
                    rest = behind;
                }
            }
        }
        if is_too_long(self.line.as_slice()) {
            return Some(self.refuse(sink));
        }
        None
    }

    /// Answers the last line, which has no line feed, where there is one.
    pub(crate) fn finish<K: Sink>(mut self, sink: &mut K) -> ScheduleEnd
        requires { self.number < 2 ^ 63 }
        ensures ends { (input : Bytes) (out : Bytes) → Going self.core self.line [] self.number input out → (more : Bytes)
            × Adds (K.written sink.old) more (K.written sink.new) × EndsWith result input (out ++ more) }
        ensures unread { result ≢ ScheduleEnd.ReadFault }
        ensures failed { result ≡ ScheduleEnd.WriteFault → K.faults sink.old < K.faults sink.new }
        ensures unfailed { result ≢ ScheduleEnd.WriteFault → K.faults sink.new ≡ K.faults sink.old }
    {
        if self.line.len() == 0 {
            return ScheduleEnd::Ended;
        }
        match self.answer(sink) {
            Some(end) => end,
            None => ScheduleEnd::Ended,
        }
    }
}
