//! What the limits leave: the number of the next change, and whether there is room for a member or a key more. The causes come in the order in
//! which a VADD is refused for them.
ghost use Rattle.std.specs.Prelude.{◌≡◌, ◌+◌, ◌<◌, ◌≤◌, IfOk, IfErr, OnOk};
ghost use Rattle.std.specs.Option.{option_or};
ghost use Rattle.vs_defs.specs.Refuse.{add_key};
ghost use Rattle.vs_defs.specs.Store.{plain};
ghost use Rattle.vs_store.specs.Causes.{IsCause, no_room, limited, HasRoom, HasRoomForKey};

use crate::Store;
use vs_command::Refusal;

impl Store {
    /// The number of the next change.
    pub(crate) fn next_number(&self) -> Result<u64, Refusal>
        ensures ok { IfOk result (λ number. (number ≡ self.now.changes + 1) × (self.now.changes < self.now.limits.changes)) }
        ensures err { IfErr result (λ e. (e ≡ Refusal.ChangeLimit self.now.changes) × (self.now.limits.changes ≤ self.now.changes)) }
    {
        if self.changes >= self.limits.changes {
            return Err(Refusal::ChangeLimit {
                changes: self.changes,
            });
        }
        Ok(self.changes + 1)
    }

    /// The number of the change that puts a new member into a set of so many.
    pub(crate) fn number_of_member(&self, count: u32) -> Result<u64, Refusal>
        ensures number { IfOk result (λ number. number ≡ self.now.changes + 1) }
        ensures room { OnOk result (HasRoom (plain self.now) count) }
        ensures refused { IfErr result (λ e. IsCause e (option_or (no_room (plain self.now) count) (limited (plain self.now)))) }
    {
        if count >= self.limits.set {
            return Err(Refusal::FullSet { members: count });
        }
        if self.members >= self.limits.all {
            return Err(Refusal::FullAll {
                members: self.members,
            });
        }
        self.next_number()
    }

    /// The number of the change that makes a new key with its first member.
    pub(crate) fn number_of_key(&self) -> Result<u64, Refusal>
        ensures number { IfOk result (λ number. number ≡ self.now.changes + 1) }
        ensures room { OnOk result (HasRoomForKey (plain self.now)) }
        ensures refused { IfErr result (λ e. IsCause e (option_or (add_key (plain self.now)) (limited (plain self.now)))) }
    {
        if self.sets.len() >= self.limits.keys as usize {
            return Err(Refusal::FullKeys {
                keys: self.sets.len() as u32,
            });
        }
        if self.members >= self.limits.all {
            return Err(Refusal::FullAll {
                members: self.members,
            });
        }
        self.next_number()
    }
}
