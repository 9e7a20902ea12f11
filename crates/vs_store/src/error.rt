//! Why a ready addition was not committed.
use vs_command::Refusal;

/// A stale one is told the cut of the set as it is now, 0 where the key is gone, and whether the name is a member.
#[derive(Drop)]
pub enum CommitError {
    NoMemory,
    Stale { cut_now: u64, taken: bool },
    Refused(Refusal),
}
