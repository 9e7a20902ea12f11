//! Requests, what they are answered, and why they are refused.
#![tactic(auto)]

mod answer;
mod command;
mod drawn;
mod limits;
mod read;
mod refusal;
mod request;
mod vadd;
mod vector;
mod vsim;
mod word;

pub use answer::{Answer, Info, NamedHit};
pub use drawn::{draws, level_of_word, picks, place_of_word};
pub use read::read_request;
pub use refusal::Refusal;
pub use request::{Request, Search, What};
pub use vs_bits::Add;

#[cfg(test)]
mod tests;
