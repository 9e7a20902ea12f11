//! One history for all threads: the list of accepted changes exists in proofs alone, the one word of a table counts them, and each pass
//! has seen a beginning of it.
#![tactic(auto)]

mod hold;
mod name;
mod seat;
mod steps;
mod view;

pub use hold::{Working, close, enter, leave, meet};
pub use name::{HistoryLimits, TableName};
pub use seat::{Opened, Seat, Word};
pub use steps::{end, make};
