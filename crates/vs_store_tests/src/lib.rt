//! Tests of the whole store: many requests beside a plain list, requests that were worked out by hand, and a run in which memory is refused.
#![tactic(auto)]

#[cfg(test)]
mod asking;
#[cfg(test)]
mod keeping;
#[cfg(test)]
mod links;
#[cfg(test)]
mod memory;
#[cfg(test)]
mod requests;
#[cfg(test)]
mod tests;
#[cfg(test)]
mod worked;
