//! Random lists of events of four actors, run by a core and read a second time over plain lists.
#![tactic(auto)]

#[cfg(test)]
mod acts;
#[cfg(test)]
mod answers;
#[cfg(test)]
mod drawing;
#[cfg(test)]
mod events;
#[cfg(test)]
mod judging;
#[cfg(test)]
mod reading;
#[cfg(test)]
mod tests;
