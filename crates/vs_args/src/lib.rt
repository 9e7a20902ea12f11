//! The words of the program's command line, and the job that they name.
#![tactic(auto)]

mod arguments;
mod command;
mod job;
mod number;
mod plain;
mod settings;

pub use job::{Job, WordsError, read_words};

#[cfg(test)]
mod tests;
