//! The second reading: what comes of each event, over plain lists. Each member is in one list; a set's cut is the number of changes when it was
//! made, or when a member was last removed or replaced in it.
ghost use Rattle.std.specs.Prelude.{◌<◌};

use crate::acts::{Act, Addition, Ask, Happening, Search};
use crate::answers::{Wanted, answer, found, refused, search_refusal, shown};
use std::alloc::Global;
use std::mem;
use vs_command::{Refusal, level_of_word};
use vs_core::StepError;
use vs_outside::{List, NoMemory};
use vs_store::Limits;
use vs_store_fixtures::{Member, Plain, refusal_of_addition};

/// What an actor is at: a search with the members of its set at its look, or an addition with its set's cut at its draft.
#[derive(Drop)]
enum Actor {
    Idle,
    Looking {
        search: Search,
        members: List<Member>,
    },
    Drafting {
        addition: Addition,
        cut: u64,
    },
    Ready {
        addition: Addition,
        cut: u64,
    },
}

/// What an actor's next event may be.
#[derive(Clone, Copy, Debug)]
pub enum Stage {
    Idle,
    Looking,
    Drafting,
    Ready,
}

/// The members of all sets, the cut of each key's set, the number of changes, and the actors, numbered from 1.
#[derive(Drop)]
pub struct Reading {
    alloc: Global,
    pub plain: Plain,
    limits: Limits,
    changes: u64,
    cuts: [u64; 4],
    actors: Vec<Actor>,
}

fn place_of(key: u8) -> usize
    ensures { result < 4 }
{
    match key {
        b'k' => 0,
        b'l' => 1,
        b'm' => 2,
        _ => 3,
    }
}

impl Reading {
    /// Nothing yet: so many actors, all idle.
    pub fn new(alloc: Global, actors: u32, limits: Limits) -> Result<Reading, NoMemory> {
        let mut all = Vec::new(alloc);
        for _actor in 0..actors {
            all.push(Actor::Idle)?;
        }
        Ok(Reading {
            alloc,
            plain: Plain::new(alloc),
            limits,
            changes: 0,
            cuts: [0, 0, 0, 0],
            actors: all,
        })
    }

    /// What an actor is at, where there is one of this number.
    pub fn stage(&self, actor: u32) -> Option<Stage> {
        let place = actor.checked_sub(1)? as usize;
        Some(match self.actors.get(place)? {
            Actor::Idle => Stage::Idle,
            Actor::Looking { .. } => Stage::Looking,
            Actor::Drafting { .. } => Stage::Drafting,
            Actor::Ready { .. } => Stage::Ready,
        })
    }

    /// What comes of an event.
    pub fn happens(&mut self, happening: Happening) -> Result<Wanted, NoMemory> {
        let place = (happening.actor as usize).wrapping_sub(1);
        let Some(actor) = self.actors.get_mut(place) else {
            return Ok(self.error(StepError::NoSuchActor)?);
        };
        let at = mem::replace(actor, Actor::Idle);
        let (next, wanted) = self.turn(at, happening.act)?;
        if let Some(actor) = self.actors.get_mut(place) {
            *actor = next;
        }
        Ok(wanted)
    }

    fn error(&self, error: StepError) -> Result<Wanted, NoMemory> {
        Ok(Wanted::Shown(format!(in self.alloc; "{error:?}")?))
    }

    /// What an actor is then at, and what comes of its event.
    fn turn(&mut self, at: Actor, act: Act) -> Result<(Actor, Wanted), NoMemory> {
        let alloc = self.alloc;
        match (at, act) {
            (Actor::Idle, Act::Do(ask)) => Ok((Actor::Idle, self.do_at_once(ask)?)),
            (Actor::Idle, Act::Look(search)) => self.look(search),
            (Actor::Idle, Act::Draft(addition)) => self.draft(addition),
            (Actor::Looking { search, members }, Act::Finish) => {
                Ok((Actor::Idle, found(search, members)))
            }
            (Actor::Drafting { addition, cut }, Act::Prepare) => {
                Ok((Actor::Ready { addition, cut }, shown(alloc, "ready")?))
            }
            (Actor::Ready { addition, cut }, Act::Commit) => {
                Ok((Actor::Idle, Wanted::Shown(self.commit(addition, cut)?)))
            }
            (at, Act::Do(_) | Act::Look(_) | Act::Draft(_)) => {
                Ok((at, self.error(StepError::ActorBusy)?))
            }
            (at, _) => Ok((at, self.error(StepError::ActorIdle)?)),
        }
    }

    // ---- a search

    fn look(&self, search: Search) -> Result<(Actor, Wanted), NoMemory> {
        if let Some(refusal) = search_refusal(&self.plain, search) {
            return Ok((Actor::Idle, refused(self.alloc, refusal)?));
        }
        let members = self.plain.members_of(search.key)?;
        Ok((
            Actor::Looking { search, members },
            shown(self.alloc, "looked")?,
        ))
    }

    fn search(&self, search: Search) -> Result<Wanted, NoMemory> {
        match search_refusal(&self.plain, search) {
            Some(refusal) => refused(self.alloc, refusal),
            None => Ok(found(search, self.plain.members_of(search.key)?)),
        }
    }

    // ---- changes

    /// Why no change is accepted any more.
    fn change_limit(&self) -> Option<Refusal> {
        let changes = self.changes;
        (changes >= self.limits.changes).then_some(Refusal::ChangeLimit { changes })
    }

    /// Counts a change. Where it ends what was drafted before, it is the set's cut.
    fn count_change(&mut self, key: u8, is_cut: bool) {
        self.changes = self.changes.saturating_add(1);
        if is_cut {
            self.cuts[place_of(key)] = self.changes;
        }
    }

    /// The member that an addition makes.
    fn member_of(&self, addition: Addition) -> Member {
        let old = self.plain.find(addition.key, addition.name);
        Member {
            key: addition.key,
            name: addition.name,
            dim: addition.dim,
            m: match self.plain.first_of(addition.key) {
                Some(first) => first.m,
                None => addition.m.unwrap_or(16),
            },
            vector: addition.vector,
            level: level_of_word(addition.word),
            number: addition.number.unwrap_or(old.map_or(0, |old| old.number)),
        }
    }

    fn addition_refusal(&self, addition: Addition) -> Option<Refusal> {
        let member = self.member_of(addition);
        match refusal_of_addition(&self.plain, self.limits, &member, addition.m) {
            Some(refusal) => Some(refusal),
            None => self.change_limit(),
        }
    }

    /// Does an addition; what comes of it, as it is shown.
    fn add(&mut self, addition: Addition) -> Result<String, NoMemory> {
        let alloc = self.alloc;
        if let Some(refusal) = self.addition_refusal(addition) {
            return Ok(format!(in alloc; "{refusal:?}")?);
        }
        let key = addition.key;
        let is_new = !self.plain.has(key, addition.name);
        let is_cut = !is_new || self.plain.first_of(key).is_none();
        let member = self.member_of(addition);
        self.plain.put(member)?;
        self.count_change(key, is_cut);
        Ok(format!(in alloc; "{}", u8::from(is_new))?)
    }

    /// Does a change of a member that is there.
    fn remove(&mut self, key: u8, name: u8) -> Result<Wanted, NoMemory> {
        let alloc = self.alloc;
        if !self.plain.has(key, name) {
            return shown(alloc, "0");
        }
        if let Some(refusal) = self.change_limit() {
            return refused(alloc, refusal);
        }
        self.plain.remove(key, name)?;
        self.count_change(key, true);
        shown(alloc, "1")
    }

    fn set_attribute(&mut self, key: u8, name: u8, number: u8) -> Result<Wanted, NoMemory> {
        let alloc = self.alloc;
        let Some(old) = self.plain.find(key, name) else {
            return shown(alloc, "0");
        };
        if let Some(refusal) = self.change_limit() {
            return refused(alloc, refusal);
        }
        self.plain.put(Member { number, ..old })?;
        self.count_change(key, false);
        shown(alloc, "1")
    }

    /// Deletes one key, or two.
    fn delete(&mut self, key: u8, other: u8) -> Result<Wanted, NoMemory> {
        let alloc = self.alloc;
        let both = self.plain.count_keys(&[key, other]);
        let count = if key == other { both.min(1) } else { both };
        if count == 0 {
            return shown(alloc, "0");
        }
        if let Some(refusal) = self.change_limit() {
            return refused(alloc, refusal);
        }
        self.plain.remove_key(key)?;
        self.plain.remove_key(other)?;
        self.count_change(key, false);
        Ok(Wanted::Shown(format!(in alloc; "{count}")?))
    }

    fn do_at_once(&mut self, ask: Ask) -> Result<Wanted, NoMemory> {
        match ask {
            Ask::Add(addition) => Ok(Wanted::Shown(self.add(addition)?)),
            Ask::Remove { key, name } => self.remove(key, name),
            Ask::Delete { key, other } => self.delete(key, other),
            Ask::SetAttribute { key, name, number } => self.set_attribute(key, name, number),
            Ask::Search(search) => self.search(search),
            _ => answer(self.alloc, &self.plain, ask),
        }
    }

    // ---- an addition with CAS

    fn draft(&self, addition: Addition) -> Result<(Actor, Wanted), NoMemory> {
        let key = addition.key;
        if self.plain.first_of(key).is_none() || self.plain.has(key, addition.name) {
            return Ok((Actor::Idle, shown(self.alloc, "direct")?));
        }
        if let Some(refusal) = self.addition_refusal(addition) {
            return Ok((Actor::Idle, refused(self.alloc, refusal)?));
        }
        let cut = self.cuts[place_of(key)];
        Ok((
            Actor::Drafting { addition, cut },
            shown(self.alloc, "drafted")?,
        ))
    }

    /// The cut now and whether the name is taken, where the draft is stale.
    fn stale(&self, addition: Addition, cut: u64) -> Option<(u64, bool)> {
        let key = addition.key;
        if self.plain.first_of(key).is_none() {
            return Some((0, false));
        }
        let cut_now = self.cuts[place_of(key)];
        let taken = self.plain.has(key, addition.name);
        (cut_now != cut || taken).then_some((cut_now, taken))
    }

    fn commit(&mut self, addition: Addition, cut: u64) -> Result<String, NoMemory> {
        match self.stale(addition, cut) {
            None => self.add(addition),
            Some((cut_now, taken)) => {
                let answer = self.add(addition)?;
                Ok(format!(in self.alloc; "redone at {cut_now} {taken}: {answer}")?)
            }
        }
    }
}
