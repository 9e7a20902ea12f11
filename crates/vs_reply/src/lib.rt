//! Replies: the bytes that an answer, a refusal or a fault of the protocol is written as. The framing is RESP's; the texts are
//! this project's own.
#![tactic(auto)]

mod parts;
mod reply;
mod short;
#[cfg(test)]
mod tests;

pub use reply::{Proto, reply_into};
pub use short::{Short, fault_line, short_reply};
