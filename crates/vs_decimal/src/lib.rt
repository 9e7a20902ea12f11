//! Decimal texts: numbers that are read from bytes, and the printed score.
#![tactic(auto)]

pub mod digits;
mod fixed;
mod score;
mod whole;

pub use fixed::read_fixed;
pub use score::{ScoreText, score_text};
pub use whole::read_int;

#[cfg(test)]
mod tests;
