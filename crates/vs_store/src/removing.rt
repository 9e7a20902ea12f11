//! VREM and DEL. A set without members isn't kept: its key goes with its only member, and that takes no memory.
ghost use Rattle.std.specs.Prelude.{◌≡◌, ◌<◌, ◌≤◌, ◌^◌, [], Some, true, is_some, length, slice_get, IfErr, IfOk, OnOk, OnErr};
ghost use Rattle.std.specs.List.{list_any};
ghost use Rattle.vs_defs.specs.Bytes.{Bytes};
ghost use Rattle.vs_defs.specs.Request as request;
ghost use Rattle.vs_defs.specs.Store.{HasKeysOnce, Set as Kind, is_member, set_of};
ghost use Rattle.vs_thread_defs.specs.Machine.{StoreDoes};
ghost use Rattle.vs_command.specs.Outcomes.{outcome_of};
ghost use Rattle.vs_command.specs.Scores.{HasScores};
ghost use Rattle.vs_set.specs.Changed.{RemovesMember};
ghost use Rattle.vs_set.specs.Kept.{IsSound};
ghost use Rattle.vs_store.specs.Gone.{AreGone, count_in, seen};
ghost use Rattle.vs_store.specs.Leaving.{Leaves};

use crate::Store;
use indexmap::IndexMap;
use vs_command::{Answer, Refusal};
use vs_outside::{NoMemory, Text};
use vs_set::{Kept, Set};
use vs_slot::Slot;

/// Removes one of a set's members.
fn remove_from(
    set: &mut Set<Kept>,
    name: &[u8],
    number: u64,
    slot: &mut Slot,
) -> Result<(), NoMemory>
    requires there { is_member name.now set.old.contents.members ≡ true }
    ensures removed { OnOk result (RemovesMember name.now number set.old set.new) }
    ensures sound { OnOk result (IsSound set.new) }
    ensures err { OnErr result (set.new ≡ set.old) }
{
    set.remove(name, number, slot)?;
    let _count = set.count();
    Ok(())
}

/// Removes a member of the set at a place. The only member goes with its set, by no search.
fn take_member(
    sets: &mut IndexMap<Vec<u8>, Set<Kept>>,
    place: usize,
    name: &[u8],
    number: u64,
    slot: &mut Slot,
) -> Result<(), NoMemory>
    requires there { (key : Bytes) × (x : Kind) × (slice_get (seen sets.old.entries) place ≡ Some (key, x)) × (is_member name.now x.contents.members ≡ true) }
    ensures taken { OnOk result ((key : Bytes) (x : Kind) → slice_get (seen sets.old.entries) place ≡ Some (key, x) → Leaves place name.now number key x (seen sets.old.entries) (seen sets.new.entries)) }
    ensures err { OnErr result (seen sets.new.entries ≡ seen sets.old.entries) }
{
    if sets[place].count() == 1 {
        sets.swap_remove_index(place);
        return Ok(());
    }
    remove_from(&mut sets[place], name, number, slot)
}

/// Takes the sets of these keys out: how many they are, and how many members they have together.
fn take_sets(sets: &mut IndexMap<Vec<u8>, Set<Kept>>, keys: &Vec<Text>) -> (u32, u32)
    requires once { HasKeysOnce (seen sets.old.entries) }
    requires few { length (seen sets.old.entries) < 2 ^ 32 }
    requires members { count_in (seen sets.old.entries) < 2 ^ 32 }
    ensures { AreGone keys.now.items (seen sets.old.entries) (seen sets.new.entries) result.0 result.1 }
{
    let mut gone = 0;
    let mut members = 0;
    for key in keys {
        if let Some(set) = sets.swap_remove(key.as_slice()) {
            gone += 1;
            members += set.count();
        }
    }
    (gone, members)
}

impl Store {
    /// VREM. A set without members loses its key.
    pub(crate) fn remove(
        &mut self,
        key: &[u8],
        name: &[u8],
        slot: &mut Slot,
    ) -> Result<Answer, Refusal>
        ensures does { StoreDoes self.old (request.Vrem key.now name.now) [] (outcome_of result) self.new }
        ensures scores { IfOk result HasScores }
    {
        let Some(place) = self.place_with(key, name) else {
            return Ok(Answer::Int(0));
        };
        let number = self.next_number()?;
        take_member(&mut self.sets, place, name, number, slot)?;
        self.members -= 1;
        self.changes = number;
        Ok(Answer::Int(1))
    }

    /// Whether one of the keys has a set.
    fn has_any(&self, keys: &Vec<Text>) -> bool
        ensures { result ≡ list_any (λ key. is_some (set_of key self.now)) keys.now.items }
    {
        keys.iter().any(|key| self.has_key(key.as_slice()))
    }

    /// Where no further change is accepted, none of the keys of a DEL may be there.
    fn check_delete(&self, keys: &Vec<Text>) -> Result<(), Refusal>
        ensures ok { OnOk result (list_any (λ key. is_some (set_of key self.now)) keys.now.items ≡ true → self.now.changes < self.now.limits.changes) }
        ensures err { IfErr result (λ e. (e ≡ Refusal.ChangeLimit self.now.changes) × (self.now.limits.changes ≤ self.now.changes) × (list_any (λ key. is_some (set_of key self.now)) keys.now.items ≡ true)) }
    {
        if self.changes < self.limits.changes || !self.has_any(keys) {
            return Ok(());
        }
        Err(Refusal::ChangeLimit {
            changes: self.changes,
        })
    }

    /// DEL: one pass over the keys, each of which counts once. It takes no memory.
    pub(crate) fn delete(&mut self, keys: &Vec<Text>) -> Result<Answer, Refusal>
        ensures does { StoreDoes self.old (request.Del keys.now.items) [] (outcome_of result) self.new }
        ensures scores { IfOk result HasScores }
    {
        self.check_delete(keys)?;
        let (gone, members) = take_sets(&mut self.sets, keys);
        if gone > 0 {
            self.members -= members;
            self.changes += 1;
        }
        Ok(Answer::Int(i64::from(gone)))
    }
}
