//! The server over listeners in memory, by the words of its command: which links are served, what they hold at the end, and how it ends.
#![tactic(auto)]

#[cfg(test)]
mod links;
#[cfg(test)]
mod tests;
