//! A search in two events: its look, and its finish, which is answered in the set at the look.
ghost use Rattle.std.specs.Prelude.{◌≡◌, ◌<◌, ℕ, IfOk, OnErr};
ghost use Rattle.vs_defs.specs.Bounds.{IsSearchInBounds};
ghost use Rattle.vs_defs.specs.Store.{Store as Sets, Set};
ghost use Rattle.vs_thread_defs.specs.Core.{Idle, IsLooking};
ghost use Rattle.vs_thread_defs.specs.Interleaving as machine;
ghost use Rattle.vs_command.specs.Requests.{search_of};
ghost use Rattle.vs_core.specs.Actors.{actor_seen};
ghost use Rattle.vs_core.specs.Events.{stepped, step_outcome_of, StepHasScores};
ghost use Rattle.vs_core.specs.Turns.{Turns};

use crate::actor::Actor;
use crate::{StepError, StepOutcome};
use std::marker::Brand;
use std::mem;
use std::sync::ledger::{Blank, Ledger};
use vs_command::{Refusal, Search};
use vs_graph::Steps;
use vs_slot::Slot;
use vs_store::{Looked, Store};

/// The look of an actor that is idle.
pub(crate) fn look(
    store: &Store,
    actor: &mut Actor,
    search: Search,
) -> Result<StepOutcome, StepError>
    requires { IsSearchInBounds (search_of search) }
    ensures turns { (k : ℕ) → Turns (machine.Look k (search_of search)) store.now (actor_seen actor.old) (step_outcome_of result) store.now (actor_seen actor.new) }
    ensures scores { IfOk result StepHasScores }
    ensures err { OnErr result (actor.new ≡ actor.old) }
{
    if !actor.is_idle() {
        return Err(StepError::ActorBusy);
    }
    match store.look_with(search) {
        Ok(looked) => {
            *actor = Actor::Looking(looked);
            Ok(StepOutcome::Looked)
        }
        Err(refusal) => Ok(StepOutcome::Refused(refusal)),
    }
}

// Answers a search that has looked. The steps that are counted are nobody's.
fn answer<L: Ledger>(looked: Looked, slot: &mut Slot, blank: Blank) -> StepOutcome
    requires name { blank.name ≡ L.name }
    requires parts { blank.parts ≡ L.parts }
    requires some { 0 < L.parts }
    ensures turns { (k : ℕ) (store : Sets Set) → Turns (machine.Finish k) store (IsLooking looked) (stepped result) store Idle }
    ensures scores { StepHasScores result }
{
    let mut reads = Steps::<L>::new(blank);
    match Store::finish(looked, slot, &mut reads) {
        Ok(answer) => StepOutcome::Answered(answer),
        Err(_) => StepOutcome::Refused(Refusal::NoMemory),
    }
}

/// The finish of an actor that has looked, which is then idle.
pub(crate) fn finish(actor: &mut Actor, slot: &mut Slot) -> Result<StepOutcome, StepError>
    ensures turns { (k : ℕ) (store : Sets Set) → Turns (machine.Finish k) store (actor_seen actor.old) (step_outcome_of result) store (actor_seen actor.new) }
    ensures scores { IfOk result StepHasScores }
    ensures err { OnErr result (actor.new ≡ actor.old) }
{
    match mem::replace(actor, Actor::Idle) {
        Actor::Looking(looked) => Ok(answer::<Brand>(looked, slot, Blank::new(1))),
        other => {
            *actor = other;
            Err(StepError::ActorIdle)
        }
    }
}
