//! What one set answers: each query of its members, their links and its facts, over the set or its snapshot. Nothing is changed, and no
//! query goes through the members but a search with TRUTH.
#![tactic(auto)]

mod facts;
mod hits;
mod layers;
mod member;
mod picking;
mod search;
#[cfg(test)]
mod tests;
mod vector;
mod wide;

pub use facts::info;
pub use layers::links;
pub use member::{attribute, embedding};
pub use picking::random;
pub use search::find;
pub use wide::find_wide;
