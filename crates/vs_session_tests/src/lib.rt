//! Whole connections of the server, byte for byte: what they write, and how they end.
#![tactic(auto)]

pub mod conversation;
#[cfg(test)]
mod faults;
#[cfg(test)]
mod interaction;
#[cfg(test)]
mod limits;
#[cfg(test)]
mod links;
#[cfg(test)]
mod pipeline;
#[cfg(test)]
mod requests;
#[cfg(test)]
mod served;
#[cfg(test)]
mod shared;
#[cfg(test)]
mod tests;
