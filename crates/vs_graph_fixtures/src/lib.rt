//! Tests that go across the crates of the graph. The functions here build small graphs, member by member, all at layer 0, and compute
//! plainly what a search is to find.
#![tactic(auto)]

mod building;
mod counted;
mod picking;
mod plain;
mod searching;
#[cfg(test)]
mod tests;

pub use building::{add_member, add_word, attr_of, member};
pub use counted::Counted;
pub use picking::{is_new_name, pick};
pub use plain::{allowed, is_closed, is_in_order, plain_distance, recalled};
pub use searching::{grown, is_second, search, search_all, search_second, word_at};
