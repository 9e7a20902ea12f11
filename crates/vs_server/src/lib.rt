//! The server over listeners: one worker for each, which draws tickets from one word and serves a link for each ticket below the limit.
#![tactic(auto)]

mod serve;
mod worker;
mod workers;

pub use serve::{ServeEnd, serve_links};
