//! What a search of one layer answers: the record of the lists that its contract speaks of.
use vs_outside::List;
use vs_rank::Key;

/// What a search of one layer found, and how.
#[derive(Drop)]
pub struct Beam {
    /// The nearest of the tried members that pass, by distance to the query, then id.
    pub found: List<Key>,
    /// The members whose distance to the query was computed, in the order of their discovery.
    pub tried: List<u32>,
    /// The members whose links were looked at, in that order.
    pub expanded: List<u32>,
    /// Whether the search ended because as many members were tried as the effort allows.
    pub spent: bool,
}
