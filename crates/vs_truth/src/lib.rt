//! The exact nearest members.
#![tactic(auto)]

mod candidate;
mod members;
mod nearest_heap;
mod pieces;
mod rows;
mod run;
mod scan;
#[cfg(test)]
mod tests;

pub use candidate::{Candidate, Hit};
pub use members::Members;
pub use nearest_heap::NearestHeap;
pub use pieces::{LEAST_IN_PIECES, nearest_in_pieces};
pub use rows::{Row, nearest_wide};
pub use run::Run;
pub use scan::{hits_of, nearest};
