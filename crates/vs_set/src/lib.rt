//! One set: members by their names, over the graph of their links; and the snapshot of it, on which searches and drafts run without it.
#![tactic(auto)]

mod adding;
mod attr;
mod attributes;
mod committing;
mod drafting;
mod error;
mod finding;
mod growing;
mod listing;
mod placing;
mod reading;
mod removing;
mod replacing;
mod set;
mod snap;

pub use error::SetCommitError;
pub use set::Set;
pub use snap::Snap;
use vs_page::PageNodes;

/// The nodes of the sets that the store keeps.
pub type Kept = PageNodes;
