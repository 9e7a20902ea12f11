//! The order of a set's members: names looked up by hash, ids that are free, and for snapshots the id, the name and the place of each.
#![tactic(auto)]

mod name;
mod names;
mod order;

pub use name::Name;
pub use names::Names;
pub use order::Order;
