//! A store with actors, for one thread: searches and additions split into their events, in whatever order they come. What it does is the
//! machine of interleavings: it always stands for a state of that machine.
#![tactic(auto)]

mod actor;
mod adding;
mod committing;
mod doing;
mod event;
mod searching;
mod stepping;
#[cfg(test)]
mod tests;
mod turn;

pub use event::{Event, StepError, StepOutcome};
pub use stepping::Core;
