//! What is prepared without the graph's owner: the chosen lists by layer, each member with its name and words.
use vs_graph::InlineBody;
use vs_outside::List;

/// A member that a new one is to be linked to, with the body that it had.
#[derive(Drop)]
pub struct Chosen {
    pub id: u32,
    pub body: InlineBody,
}

/// A new member, and whom it is to be linked to: one list for each of its layers, from 0 on.
#[derive(Drop)]
pub struct Draft {
    pub cut: u64,
    pub level: u8,
    pub chosen: List<List<Chosen>>,
    pub body: InlineBody,
}
