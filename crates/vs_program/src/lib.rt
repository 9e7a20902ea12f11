//! What the program does, over any source and sink.
#![tactic(auto)]

mod port;
mod program;
mod run;
mod server;
mod status;

pub use program::run_program;
pub use run::run_alone;
pub use server::run_server;
pub use status::Status;

#[cfg(test)]
mod tests;
