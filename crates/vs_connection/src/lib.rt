//! One connection: requests in, replies out, by whatever handles its messages.
#![tactic(auto)]

mod end;
mod handler;
mod serve;
#[cfg(test)]
mod tests;
mod write;

pub use end::SessionEnd;
pub use handler::{Handler, Replied};
pub use serve::serve_by;
pub use vs_random_words::{draw, generator};
pub use write::write_all;
