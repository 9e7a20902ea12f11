//! Passes and the desk behind the lock: whatever is done on a store in one hold of the lock is one event of the history that all passes
//! know a beginning of.
#![tactic(auto)]

mod desk;
mod pass;
mod task;

pub use desk::{Desk, open};
pub use pass::Pass;
pub use task::{Stored, Task};
