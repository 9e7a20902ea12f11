//! The jobs of one thread.
ghost use Rattle.std.specs.Prelude.{◌≡◌, ◌≢◌, ◌<◌, ◌⊎◌, ◌↔◌, ℕ, List, Some};
ghost use Rattle.vs_defs.specs.Bounds.{IsFrom};
ghost use Rattle.vs_defs.specs.ProgramWords as defs;
ghost use Rattle.vs_defs.specs.Stream.{Message};
ghost use Rattle.vs_outside.specs.Known.{Adds};
ghost use Rattle.vs_args.specs.Words.{job_named};
ghost use Rattle.vs_connection.specs.Complete.{HasWhole};
ghost use Rattle.vs_program.specs.Jobs.{Does, Prints, Refuses, IsDoneHere, CompletesScript, bad_words};

use crate::status::{Status, status_at, status_scheduled};
use std::alloc::Global;
use vs_args::{Job, WordsError, read_words};
use vs_connection::write_all;
use vs_generate::summary;
use vs_outside::{Sink, Source, Text};
use vs_schedule::run_schedule;
use vs_session::serve_alone;

/// What is written where the words name no job.
const BAD_WORDS: &[u8] = b"vectord: bad words\n";

// Refuses the words.
fn refuse<K: Sink>(sink: &mut K) -> Status
    ensures status { result ≡ Status.BadWords }
    ensures written { Refuses (K.written sink.old) (K.written sink.new) }
    ensures whole { (K.faults sink.old < K.faults sink.new) ⊎ Adds (K.written sink.old) bad_words (K.written sink.new) }
{
    // Where the sink fails, the status is the same.
    let _is_whole = write_all(sink, BAD_WORDS);
    Status::BadWords
}

// Writes the summary of a generated set, which is made whole before the first byte of it is written.
fn generate<K: Sink>(alloc: Global, seed: u64, members: u32, dim: u32, sink: &mut K) -> Status
    requires members { IsFrom 1 1048576 members }
    requires dim { IsFrom 1 4096 dim }
    ensures prints { Prints seed members dim result (K.written sink.old) (K.written sink.new) }
    ensures write_fault { (result ≡ Status.WriteFault) ↔ (K.faults sink.old < K.faults sink.new) }
    ensures no_other { (result ≢ Status.BadWords) × (result ≢ Status.ReadFault) }
{
    let Ok(text) = summary(alloc, seed, members, dim) else {
        return Status::NoMemory;
    };
    if write_all(sink, text.as_slice()) {
        Status::Done
    } else {
        Status::WriteFault
    }
}

/// Does the job that the words name. Where they name none, `vectord: bad words` and a line feed are written, or what the sink takes of it.
pub fn run_alone<S: Source, K: Sink>(
    alloc: Global,
    words: &[Text],
    source: &mut S,
    sink: &mut K,
) -> Status
    ensures job { Does (job_named words.now) result (S.left source.old) (S.left source.new) (K.written sink.old) (K.written sink.new) }
    ensures bad_words { result ≡ Status.BadWords → (K.faults sink.old < K.faults sink.new) ⊎ Adds (K.written sink.old) bad_words (K.written sink.new) }
    ensures read_fault { (result ≡ Status.ReadFault) ↔ (S.faults source.old < S.faults source.new) }
    ensures write_fault { result ≢ Status.BadWords → ((result ≡ Status.WriteFault) ↔ (K.faults sink.old < K.faults sink.new)) }
    ensures plain { IsDoneHere (job_named words.now) → result ≢ Status.BadWords }
    ensures complete { (seed : ℕ) (messages : List Message) → job_named words.now ≡ Some (defs.Script seed) → HasWhole (S.left source.old) messages → S.faults source.new ≡ S.faults source.old → K.faults sink.new ≡ K.faults sink.old
        → CompletesScript seed result messages (S.left source.new) (K.written sink.old) (K.written sink.new) }
{
    match read_words(alloc, words) {
        Ok(job) => match job {
            Job::Script { seed } => status_at(serve_alone(alloc, seed, source, sink)),
            Job::Schedule => status_scheduled(run_schedule(alloc, source, sink)),
            Job::Generate { seed, members, dim } => generate(alloc, seed, members, dim, sink),
            // `run_server` does it.
            Job::Serve { .. } => refuse(sink),
        },
        Err(error) => match error {
            WordsError::NoMemory => Status::NoMemory,
            WordsError::BadWords => refuse(sink),
        },
    }
}
