//! How a member is taken out of the graph: its links go, its former neighbours are paired, and those left without a link are listed.
#![tactic(auto)]

mod layer;
mod named;
mod orphans;
mod pairs;
mod removal;

pub use removal::unlink;

/// Two members, the one of lesser name first.
#[derive(Clone, Copy)]
pub struct Pair {
    pub one: u32,
    pub other: u32,
}

/// A member that a removal left without a link at a layer.
#[derive(Clone, Copy)]
pub struct Orphan {
    pub layer: u8,
    pub id: u32,
}
