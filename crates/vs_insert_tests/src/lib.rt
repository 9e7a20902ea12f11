//! Tests of drafts, commits and removals: graphs of members with one word each, grown by drafts, and a plain test of the good graph.
#![tactic(auto)]

#[cfg(test)]
mod counting_tests;
mod goodness;
#[cfg(test)]
mod goodness_tests;
mod growing;
#[cfg(test)]
mod hub_tests;
#[cfg(test)]
mod looking;
#[cfg(test)]
mod removal_tests;
mod removing;
#[cfg(test)]
mod tests;

pub use goodness::{Bounds, Fault, attr_text, check_graph, check_nodes, check_others};
pub use growing::{NewMember, add, add_unseen, bits_of, draft_of, grown, member, settle};
pub use removing::{orphans_of, remove};
