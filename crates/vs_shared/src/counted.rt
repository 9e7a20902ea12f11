//! The store as the desk keeps it: with its count of changes.
use vs_pass::Stored;
use vs_store::Store;

/// A store whose changes the desk counts.
#[derive(Drop)]
pub(crate) struct Counted {
    pub(crate) store: Store,
}

impl Stored for Counted {
    ghost store = { λ c. c.store };

    fn changes(&self) -> u64 {
        self.store.changes()
    }
}
