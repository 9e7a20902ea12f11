//! The store behind its lock: each call is one hold of the lock and one event of the history that all passes know a beginning of. No call
//! hands out the lock, what it guards, or the store.
#![tactic(auto)]

mod begun;
mod commit;
mod counted;
mod draft;
mod look;
mod now;
mod opened;
mod shared;

pub use begun::Begun;
pub use opened::Opened;
pub use shared::Shared;

#[cfg(test)]
mod tests;
