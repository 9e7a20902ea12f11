//! What ends the program early.
use thiserror::Error;
use vs_outside::NoMemory;

/// Why nothing more is measured.
#[derive(Clone, Copy, Debug, PartialEq, Eq, Error)]
pub enum MeasureError {
    #[error("not enough memory")]
    NoMemory,
    #[error("the words are: DIMENSION M EF SEED, then count CALLS THREADS, now MEMBERS LEVEL or draft MEMBERS LEVEL in turn")]
    BadWords,
    #[error("a number is none, or out of its bounds")]
    BadNumber,
    #[error("a request is refused, or answered otherwise than it has to be")]
    Refused,
}

impl From<NoMemory> for MeasureError {
    fn from(_error: NoMemory) -> MeasureError {
        MeasureError::NoMemory
    }
}
