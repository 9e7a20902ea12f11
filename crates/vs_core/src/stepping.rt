//! The store with its actors, and the events.
ghost use Rattle.std.specs.Prelude.{◌≡◌, ◌<◌, ◌+◌, List, None, length, map, replicate, option_map, All, IfOk, IfSome, OnErr};
ghost use Rattle.vs_defs.specs.Store.{empty_store};
ghost use Rattle.vs_thread_defs.specs.Core.{StandsFor, Idle};
ghost use Rattle.vs_thread_defs.specs.Interleaving.{State, Run};
ghost use Rattle.vs_core.specs.Actors.{Steps, seen_at, busy_of};
ghost use Rattle.vs_core.specs.Events.{FitsEvent, event_of, step_outcome_of, unstepped, StepHasScores};
ghost use Rattle.vs_store.specs.Kept.{AreUsual};
ghost use Rattle.vs_store.specs.Seen.{limits_seen};

use crate::actor::Actor;
use crate::turn::take_turn;
use crate::{Event, StepError, StepOutcome};
use std::alloc::Global;
use std::marker::Model;
use vs_outside::{List, NoMemory};
use vs_slot::Slot;
use vs_store::{Limits, Store};

/// A store, and actors numbered from 1, each of which is idle, or at a search or an addition of which some events have happened.
#[derive(Drop)]
pub struct Core {
    alloc: Global,
    store: Store,
    slot: Slot,
    actors: Vec<Actor>,
}

impl Model for Core {
    ghost use Rattle.vs_thread_defs.specs.Core as core;
    ghost use Rattle.vs_core.specs.Actors.{actors_seen, IsOfMachine};

    ghost Value = { core.Core };

    ghost view = { λ c. record { store = c.store; actors = actors_seen c.actors.items } };

    ghost invariant = { λ c. IsOfMachine (record { store = c.store; actors = actors_seen c.actors.items }) };
}

impl Core {
    /// A core with an empty store, all of whose actors are idle.
    pub fn new(alloc: Global, actors: u32, limits: Limits) -> Result<Core, NoMemory>
        requires { AreUsual (limits_seen limits) }
        ensures { IfOk result (λ c. c ≡ record { store = empty_store (limits_seen limits); actors = replicate actors Idle }) }
    {
        let mut all = Vec::with_capacity(alloc, actors as usize)?;
        for _ in 0..actors {
            all.push_reserved(Actor::Idle);
        }
        Ok(Core {
            alloc,
            store: Store::new(alloc, limits),
            slot: Slot::new(alloc),
            actors: all,
        })
    }

    // The place of an actor among all.
    fn place_of(&self, actor: u32) -> Option<usize>
        ensures absent { result ≡ None → seen_at self.now actor ≡ None }
        ensures present { IfSome result (λ place. (actor ≡ place + 1) × (place < length self.now.actors)) }
    {
        let place = actor.checked_sub(1)? as usize;
        if place < self.actors.len() {
            Some(place)
        } else {
            None
        }
    }

    /// Why an actor can't begin something: there is none of this number, or it isn't idle.
    pub fn busy(&self, actor: u32) -> Option<StepError>
        ensures { option_map unstepped result ≡ busy_of (seen_at self.now actor) }
    {
        let Some(place) = self.place_of(actor) else {
            return Some(StepError::NoSuchActor);
        };
        if self.actors[place].is_idle() {
            None
        } else {
            Some(StepError::ActorBusy)
        }
    }

    /// One step. Where there is an error nothing has changed.
    pub fn step(&mut self, event: Event) -> Result<StepOutcome, StepError>
        requires { FitsEvent event }
        ensures steps { Steps self.old (event_of event) (step_outcome_of result) self.new }
        ensures limits { self.new.store.limits ≡ self.old.store.limits }
        ensures scores { IfOk result StepHasScores }
        ensures err { OnErr result (self.new ≡ self.old) }
    {
        let Some(place) = self.place_of(event.actor()) else {
            return Err(StepError::NoSuchActor);
        };
        take_turn(
            &mut self.store,
            &mut self.slot,
            &mut self.actors[place],
            event,
        )
    }

    /// The steps of a list of events, in order. Its list is taken first, so that want of memory for it comes before any step.
    pub fn run(
        &mut self,
        events: List<Event>,
    ) -> Result<List<Result<StepOutcome, StepError>>, NoMemory>
        requires { All FitsEvent events }
        ensures runs { IfOk result (λ outcomes. (s : State) → StandsFor self.old.store.limits self.old s
            → (t : State) × Run self.old.store.limits s (map event_of events) (map step_outcome_of outcomes) t × StandsFor self.old.store.limits self.new t) }
        ensures limits { self.new.store.limits ≡ self.old.store.limits }
        ensures err { OnErr result (self.new ≡ self.old) }
    {
        let mut outcomes = Vec::with_capacity(self.alloc, events.len())?;
        for event in events.into_vec() {
            outcomes.push_reserved(self.step(event));
        }
        Ok(List::from_vec(outcomes))
    }
}
