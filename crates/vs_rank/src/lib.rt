//! The least few of the keys that are offered, keys of which the least comes first, and a test of
//! attributes that is kept beside the fact that it answers one predicate.
#![tactic(auto)]

mod best;
mod frontier;
mod packed;
mod testing;
#[cfg(test)]
mod tests;
mod wanted;

pub use best::Best;
pub use frontier::Frontier;
pub use testing::{Everyone, Testing};
pub use wanted::Wanted;

/// A distance and an id, ordered by distance, then id.
#[derive(Clone, Copy, Debug, PartialEq, Eq, PartialOrd, Ord)]
pub struct Key {
    pub dist: u32,
    pub id: u32,
}
