//! How much a store keeps.
ghost use Rattle.std.specs.Prelude.{◌≡◌};
ghost use Rattle.vs_defs.specs.Store.{usual_limits};
ghost use Rattle.vs_store.specs.Seen.{limits_seen};

/// The most members of a set, keys, members in all, and accepted changes that a store takes.
#[derive(Clone, Copy, Debug, PartialEq, Eq)]
pub struct Limits {
    pub set: u32,
    pub keys: u32,
    pub all: u32,
    pub changes: u64,
}

impl Limits {
    /// 2^20 members of a set, 65,536 keys, 2^21 members in all, 2^62 changes.
    pub fn usual() -> Limits
        ensures { limits_seen result ≡ usual_limits }
    {
        Limits {
            set: 1 << 20,
            keys: 65_536,
            all: 1 << 21,
            changes: 1 << 62,
        }
    }
}
