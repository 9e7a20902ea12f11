//! The store: sets by their keys, how many members they have in all, the number of accepted changes, and the limits. Each request is carried
//! out at once and whole, or not at all.
ghost use Rattle.std.specs.Prelude.{◌≡◌, ◌≢◌, Err, true, length, IfOk};
ghost use Rattle.vs_defs.specs.Bounds.{IsInBounds};
ghost use Rattle.vs_defs.specs.Good.{GoodStore};
ghost use Rattle.vs_defs.specs.Memory.{needs_no_memory};
ghost use Rattle.vs_defs.specs.Read.{draws as draws_of};
ghost use Rattle.vs_defs.specs.Store.{empty_store};
ghost use Rattle.vs_thread_defs.specs.Machine.{StoreDoes};
ghost use Rattle.vs_command.specs.Outcomes.{outcome_of};
ghost use Rattle.vs_command.specs.Requests.{request_of};
ghost use Rattle.vs_command.specs.Scores.{HasScores};
ghost use Rattle.vs_store.specs.Kept.{AreUsual};
ghost use Rattle.vs_store.specs.Seen.{limits_seen};

use crate::Limits;
use indexmap::IndexMap;
use std::alloc::Global;
use std::marker::Model;
use vs_command::{Answer, Refusal, Request};
use vs_set::{Kept, Set};
use vs_slot::Slot;

/// Sets by their keys, the number of accepted changes, and the limits. It takes no lock.
#[derive(Drop)]
pub struct Store {
    pub(crate) alloc: Global,
    pub(crate) sets: IndexMap<Vec<u8>, Set<Kept>>,
    // of all sets together
    pub(crate) members: u32,
    pub(crate) changes: u64,
    pub(crate) limits: Limits,
}

impl Model for Store {
    ghost use Rattle.vs_defs.specs.Store as model;
    ghost use Rattle.vs_store.specs.Kept.{IsKept};
    ghost use Rattle.vs_store.specs.Seen.{store_seen};

    ghost Value = { model.Store model.Set };

    ghost view = { λ s. store_seen s.sets.entries s.changes s.limits };

    ghost invariant = { λ s. IsKept (store_seen s.sets.entries s.changes s.limits) s.members };
}

impl Store {
    /// The empty store. It takes no memory.
    pub fn new(alloc: Global, limits: Limits) -> Store
        requires { AreUsual (limits_seen limits) }
        ensures { result ≡ empty_store (limits_seen limits) }
    {
        Store {
            alloc,
            sets: IndexMap::new(alloc),
            members: 0,
            changes: 0,
            limits,
        }
    }

    /// The number of accepted changes.
    pub fn changes(&self) -> u64
        ensures value { result ≡ self.now.changes }
        ensures good { GoodStore self.now }
        ensures usual { AreUsual self.now.limits }
    {
        self.changes
    }

    /// Carries a request out at once, for the author of that number, who stands in the history alone. `words` are the drawn ones, as many as
    /// `draws` says. A refusal, want of memory included, leaves the store as it was.
    pub fn do_now(
        &mut self,
        _author: u64,
        request: &Request,
        words: &[u32],
        slot: &mut Slot,
    ) -> Result<Answer, Refusal>
        requires bounds { IsInBounds (request_of request.now) }
        requires words { length words.now ≡ draws_of (request_of request.now) }
        ensures does { StoreDoes self.old (request_of request.now) words.now (outcome_of result) self.new }
        ensures good { GoodStore self.new }
        ensures scores { IfOk result HasScores }
        ensures memory { needs_no_memory (request_of request.now) ≡ true → result ≢ Err Refusal.NoMemory }
    {
        let outcome = self.carry_out(request, words, slot);
        // a store that is kept is good
        let _changes = self.changes();
        outcome
    }

    /// Each request by its kind.
    fn carry_out(
        &mut self,
        request: &Request,
        words: &[u32],
        slot: &mut Slot,
    ) -> Result<Answer, Refusal>
        requires bounds { IsInBounds (request_of request.now) }
        requires words { length words.now ≡ draws_of (request_of request.now) }
        ensures does { StoreDoes self.old (request_of request.now) words.now (outcome_of result) self.new }
        ensures scores { IfOk result HasScores }
        ensures memory { needs_no_memory (request_of request.now) ≡ true → result ≢ Err Refusal.NoMemory }
    {
        match request {
            Request::Ping(None) => Ok(Answer::Pong),
            Request::Ping(Some(text)) => Ok(Answer::Bulk(text.try_clone()?)),
            Request::Quit => Ok(Answer::Bye),
            Request::Del(keys) => self.delete(keys.as_vec()),
            Request::Exists(keys) => Ok(self.exists(keys.as_vec())),
            Request::Vadd(add) => self.add(add, words[0], slot),
            Request::Vrem { key, name } => self.remove(key.as_slice(), name.as_slice(), slot),
            Request::Vsim(search) => self.search(search, slot),
            Request::Vcard(key) => Ok(self.cardinality(key.as_slice())),
            Request::Vdim(key) => self.dimension(key.as_slice()),
            Request::Vemb { key, name } => self.embedding(key.as_slice(), name.as_slice()),
            Request::Vlinks { key, name, scores } => self.links(
                key.as_slice(),
                name.as_slice(),
                *scores,
            ),
            Request::Vinfo(key) => self.info(key.as_slice()),
            Request::Vgetattr { key, name } => self.attribute(key.as_slice(), name.as_slice()),
            Request::Vsetattr { key, name, text } => self.set_attribute(
                key.as_slice(),
                name.as_slice(),
                text,
            ),
            Request::Vrandmember { key, count } => self.random(key.as_slice(), *count, words),
            Request::Vismember { key, name } => Ok(self.is_member(key.as_slice(), name.as_slice())),
        }
    }
}
