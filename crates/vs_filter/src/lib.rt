//! The filter language: a filter's text, read into an expression, and which attributes pass it.
#![tactic(auto)]

mod chars;
mod code;
mod error;
mod evaluate;
mod filter;
mod front;
mod items;
mod law;
mod literal;
mod number;
mod operator;
mod parse;
mod rule;
mod scan;
mod token;
mod value;

pub use error::FilterError;
pub use filter::Filter;
pub use law::filter_is_what_is_derived;

#[cfg(test)]
mod tests;
