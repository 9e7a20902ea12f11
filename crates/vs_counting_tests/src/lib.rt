//! Tests of one set and its snapshots over nodes that tell how often they were looked at, and of beams whose marks begin anew.
#![tactic(auto)]

#[cfg(test)]
mod counting_tests;
#[cfg(test)]
mod epoch_tests;
mod growing;
mod searching;
mod telling;

pub use growing::{add_to, numbered};
pub use searching::{search_graph, search_snap};
pub use telling::{MOST, Telling, told};
