//! The sets by their keys.
ghost use Rattle.std.specs.Prelude.{◌≡◌, None, true, false, is_some, IfSome};
ghost use Rattle.std.specs.Option.{option_copied};
ghost use Rattle.vs_defs.specs.Refuse.{has_member};
ghost use Rattle.vs_defs.specs.Store.{Set as Kind, is_member, plain, set_of};
ghost use Rattle.vs_store.specs.Places.{IsSetAt};

use crate::Store;
use vs_set::{Kept, Set};

impl Store {
    /// The set of a key.
    pub(crate) fn set_at(&self, key: &[u8]) -> Option<&Set<Kept>>
        ensures { option_copied result ≡ set_of key.now self.now }
    {
        self.sets.get(key)
    }

    /// Whether a key has a set.
    pub(crate) fn has_key(&self, key: &[u8]) -> bool
        ensures { result ≡ is_some (set_of key.now self.now) }
    {
        self.set_at(key).is_some()
    }

    /// The place of a key's set.
    pub(crate) fn place_of(&self, key: &[u8]) -> Option<usize>
        ensures absent { result ≡ None → set_of key.now self.now ≡ None }
        ensures present { IfSome result (λ place. (x : Kind) × IsSetAt key.now place self.now x) }
    {
        self.sets.get_index_of(key)
    }

    /// The place of a key's set, where the name is a member of it.
    pub(crate) fn place_with(&self, key: &[u8], name: &[u8]) -> Option<usize>
        ensures absent { result ≡ None → has_member (plain self.now) key.now name.now ≡ false }
        ensures present { IfSome result (λ place. (x : Kind) × IsSetAt key.now place self.now x × (is_member name.now x.contents.members ≡ true)) }
    {
        let place = self.place_of(key)?;
        if self.sets[place].has(name) {
            Some(place)
        } else {
            None
        }
    }
}
