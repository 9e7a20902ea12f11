//! What ends the program early.
use thiserror::Error;
use vs_outside::NoMemory;

/// Why nothing is measured.
#[derive(Clone, Copy, Debug, PartialEq, Eq, Error)]
pub enum MeasureError {
    #[error("not enough memory")]
    NoMemory,
    #[error("the words are: uniform|clustered MEMBERS DIMENSION M EF_CONSTRUCTION SEED SEARCHES EF..")]
    BadWords,
    #[error("a number is none, or out of its bounds")]
    BadNumber,
    #[error("more than 1,048,576 members")]
    TooMany,
    #[error("two members of one name")]
    NameTaken,
}

impl From<NoMemory> for MeasureError {
    fn from(_error: NoMemory) -> MeasureError {
        MeasureError::NoMemory
    }
}
