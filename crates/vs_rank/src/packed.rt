//! A key in one number, whose order is that of the keys: a heap compares such numbers in one step.
ghost use Rattle.std.specs.Prelude.{◌≡◌};
ghost use Rattle.vs_rank.specs.Ranked.{unpacked};

use crate::Key;

/// The distance in the upper 32 bits, the id in the lower.
pub fn packed(key: Key) -> u64
    ensures { unpacked result ≡ key }
{
    u64::from(key.dist) * 4294967296 + u64::from(key.id)
}

/// The key of a number that `packed` made.
pub fn key_of(packed: u64) -> Key
    ensures { result ≡ unpacked packed }
{
    Key {
        dist: (packed / 4294967296) as u32,
        id: (packed % 4294967296) as u32,
    }
}
