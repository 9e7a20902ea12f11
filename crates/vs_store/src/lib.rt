//! The store of sets with links, for one thread: each request carried out at once, and the steps into which searches and additions are
//! split so that their work is done without the store.
#![tactic(auto)]

mod adding;
mod attributes;
#[cfg(test)]
mod change_tests;
mod committing;
mod counting;
mod drafting;
mod error;
#[cfg(test)]
mod event_tests;
mod keys;
mod limits;
mod looked;
mod looking;
mod querying;
mod ready;
mod removing;
mod room;
mod store;
#[cfg(test)]
mod tests;

pub use drafting::Drafting;
pub use error::CommitError;
pub use limits::Limits;
pub use looked::Looked;
pub use ready::Ready;
pub use store::Store;
