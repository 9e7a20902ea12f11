//! Whole schedules, byte for byte: what they print, and how they end; and the words of their lines.
#![tactic(auto)]

#[cfg(test)]
mod at_once;
#[cfg(test)]
mod ends;
#[cfg(test)]
mod limits;
#[cfg(test)]
mod ran;
#[cfg(test)]
mod split;
#[cfg(test)]
mod words;
