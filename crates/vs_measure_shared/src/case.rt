//! What is to be measured, as the program's words say it.
ghost use Rattle.std.specs.Prelude.{◌≤◌, IfOk};

use crate::error::MeasureError;
use std::alloc::Global;
use vs_outside::List;

/// The most threads.
pub const THREADS: u32 = 4;

/// How a member is added.
#[derive(Clone, Copy, Debug, PartialEq, Eq)]
pub enum Way {
    /// In one hold.
    Now,
    /// By a draft, a preparation without the lock, and a commit.
    Draft,
}

/// So many members that are added one way: of this level, or of drawn ones.
#[derive(Clone, Copy, Debug, PartialEq, Eq)]
pub struct Additions {
    pub way: Way,
    pub members: u32,
    pub level: Option<u8>,
}

/// One measurement.
#[derive(Clone, Copy, Debug, PartialEq, Eq)]
pub enum Step {
    /// Each of the threads asks so many times how many members there are.
    Count { calls: u32, threads: u32 },
    Add(Additions),
}

/// The members to be added, and the measurements in their order.
#[derive(Drop)]
pub struct Case {
    /// 1 to 32,768.
    pub dim: u32,
    /// 4 to 256.
    pub m: u32,
    /// 1 to 65,536: the width of an addition's beams.
    pub ef: u32,
    pub seed: u64,
    pub steps: List<Step>,
}

fn number_of(word: &str, least: u32, most: u32) -> Result<u32, MeasureError>
    ensures least { IfOk result (λ number. least ≤ number) }
    ensures most { IfOk result (λ number. number ≤ most) }
{
    match word.parse::<u32>() {
        Ok(number) if least <= number && number <= most => Ok(number),
        _ => Err(MeasureError::BadNumber),
    }
}

/// A level, or none where it is drawn.
fn level_of(word: &str) -> Result<Option<u8>, MeasureError> {
    match word {
        "drawn" => Ok(None),
        _ => Ok(Some(number_of(word, 0, 15)? as u8)),
    }
}

fn additions_of(way: Way, members: &str, level: &str) -> Result<Step, MeasureError> {
    Ok(Step::Add(Additions {
        way,
        members: number_of(members, 0, 1_048_576)?,
        level: level_of(level)?,
    }))
}

fn step_of(what: &str, count: &str, how: &str) -> Result<Step, MeasureError> {
    match what {
        "count" => Ok(Step::Count {
            calls: number_of(count, 0, u32::MAX)?,
            threads: number_of(how, 1, THREADS)?,
        }),
        "now" => additions_of(Way::Now, count, how),
        "draft" => additions_of(Way::Draft, count, how),
        _ => Err(MeasureError::BadWords),
    }
}

fn steps_of(alloc: Global, words: &[String]) -> Result<List<Step>, MeasureError> {
    let mut steps = List::new(alloc);
    for words in words.chunks(3) {
        match words {
            [what, count, how] => {
                steps.push(step_of(what.as_str(), count.as_str(), how.as_str())?)?;
            }
            _ => return Err(MeasureError::BadWords),
        }
    }
    Ok(steps)
}

/// Reads the words in their order: the dimension, M, the width of an addition's beams, the seed, and three words for each step.
pub fn case_of(alloc: Global, words: &[String]) -> Result<Case, MeasureError> {
    match words {
        [dim, m, ef, seed, steps @ ..] => Ok(Case {
            dim: number_of(dim.as_str(), 1, 32_768)?,
            m: number_of(m.as_str(), 4, 256)?,
            ef: number_of(ef.as_str(), 1, 65_536)?,
            seed: u64::from(number_of(seed.as_str(), 0, u32::MAX)?),
            steps: steps_of(alloc, steps)?,
        }),
        _ => Err(MeasureError::BadWords),
    }
}
