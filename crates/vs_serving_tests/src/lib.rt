//! Connections over one shared store, in threads: what a gate holds and lets go, many at once, and a client that waits for its replies.
#![tactic(auto)]

#[cfg(test)]
mod calls;
#[cfg(test)]
mod gates;
#[cfg(test)]
mod graph;
pub mod holding;
#[cfg(test)]
mod interaction;
#[cfg(test)]
mod many;
#[cfg(test)]
mod meeting;
#[cfg(test)]
mod mixed;
#[cfg(test)]
mod serving;
#[cfg(test)]
mod sorted;
#[cfg(test)]
mod wide;
