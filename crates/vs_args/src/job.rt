//! The job that the program's words name.
ghost use Rattle.std.specs.Prelude.{◌≡◌, Some, IfOk, IfErr, map, All};
ghost use Rattle.std.specs.Str.{IsUtf8};
ghost use Rattle.vs_defs.specs.ProgramWords.Job.{Script as ScriptOf};
ghost use Rattle.vs_args.specs.Readings.{IsReading, IsWithin};
ghost use Rattle.vs_args.specs.Words.{job_named, IsScript};

use crate::arguments::seed_text;
use crate::command::Choice;
use crate::plain::plain_job;
use std::alloc::Global;
use std::str;
use thiserror::Error;
use vs_outside::{NoMemory, Text};

/// What the program is asked to do.
#[derive(Clone, Copy, Debug, PartialEq, Eq)]
pub enum Job {
    /// Serve standard input, with random words of this seed.
    Script {
        seed: u64,
    },
    /// Run the schedule that is standard input.
    Schedule,
    /// Build a set of so many generated members, of so many components, and print its summary.
    Generate {
        seed: u64,
        members: u32,
        dim: u32,
    },
    /// Serve this port by so many workers, with random words of this seed, until so many connections were served.
    Serve {
        port: u16,
        workers: u32,
        seed: u64,
        connections: u32,
    },
}

/// Why words name no job.
#[derive(Clone, Copy, Debug, PartialEq, Eq, Error)]
pub enum WordsError {
    #[error("not enough memory")]
    NoMemory,
    #[error("bad words")]
    BadWords,
}

// The words as texts of `clap`.
fn texts_of<'a>(alloc: Global, words: &'a [Text]) -> Result<Vec<&'a str>, WordsError>
    requires { All IsUtf8 words.now }
    ensures ok { IfOk result (λ texts. map (λ w. w.now) texts.items ≡ words.now) }
    ensures err { IfErr result (λ e. e ≡ WordsError.NoMemory) }
{
    let mut texts = Vec::new(alloc);
    for word in words {
        match str::from_utf8(word.as_slice()) {
            Ok(text) => texts.push(text).map_err(|_| WordsError::NoMemory)?,
            Err(_) => unreachable!(),
        }
    }
    Ok(texts)
}

// The seed that plain words of `script` name, as `clap` reads them.
fn read_seed(alloc: Global, words: &[Text]) -> Result<u64, WordsError>
    requires { IsScript words.now }
    ensures ok { IfOk result (λ seed. job_named words.now ≡ Some (ScriptOf seed)) }
    ensures err { IfErr result (λ e. e ≡ WordsError.NoMemory) }
{
    let texts = texts_of(alloc, words)?;
    let Ok(text) = seed_text(alloc, &texts) else {
        return Err(WordsError::NoMemory);
    };
    match Choice::Seed.value(text.as_bytes()) {
        Some(seed) => Ok(seed),
        None => unreachable!(),
    }
}

/// Reads the program's words: first a command that is built, then options of it with their values, as two words or as one word
/// `--option=value`, each at most once and in any order. A value is decimal digits without a leading zero, in the option's range; an option
/// that isn't named has its default.
pub fn read_words(alloc: Global, words: &[Text]) -> Result<Job, WordsError>
    ensures reading { IsReading words.now result }
    ensures within { IfOk result IsWithin }
{
    let Some(job) = plain_job(words) else {
        return Err(WordsError::BadWords);
    };
    match job {
        Job::Script { .. } => Ok(Job::Script {
            seed: read_seed(alloc, words)?,
        }),
        Job::Schedule | Job::Generate { .. } | Job::Serve { .. } => Ok(job),
    }
}
