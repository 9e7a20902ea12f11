//! Why a draft was not committed.
use thiserror::Error;

/// A stale draft is told the set's cut as it is now, and whether the name is a member.
#[derive(Clone, Copy, Debug, PartialEq, Eq, Error)]
pub enum SetCommitError {
    #[error("not enough memory")]
    NoMemory,
    #[error("stale draft: the set's cut is {cut_now}")]
    Stale { cut_now: u64, taken: bool },
}
