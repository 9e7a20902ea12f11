//! An addition with CAS in two of its three events: its draft, and the choice of its links.
ghost use Rattle.std.specs.Prelude.{◌≡◌, ◌<◌, ℕ, IsTrue, IfOk, OnErr};
ghost use Rattle.vs_defs.specs.Bounds.{IsAddInBounds};
ghost use Rattle.vs_defs.specs.Store.{Store as Sets, Set};
ghost use Rattle.vs_thread_defs.specs.Core.{IsDrafting};
ghost use Rattle.vs_thread_defs.specs.Interleaving as machine;
ghost use Rattle.vs_bits.specs.Requests.{add_of};
ghost use Rattle.vs_core.specs.Actors.{actor_seen};
ghost use Rattle.vs_core.specs.Events.{stepped, step_outcome_of, StepHasScores};
ghost use Rattle.vs_core.specs.Turns.{Turns};

use crate::actor::Actor;
use crate::{StepError, StepOutcome};
use std::marker::Brand;
use std::mem;
use std::sync::ledger::{Blank, Ledger};
use vs_bits::Add;
use vs_command::Refusal;
use vs_graph::Steps;
use vs_slot::Slot;
use vs_store::{Drafting, Store};

/// The draft of an actor that is idle. Where nothing can be drafted the addition is to be done at once.
pub(crate) fn draft(
    store: &Store,
    actor: &mut Actor,
    add: Add,
    word: u32,
) -> Result<StepOutcome, StepError>
    requires bounds { IsAddInBounds (add_of add) }
    requires cas { IsTrue add.cas }
    ensures turns { (k : ℕ) → Turns (machine.Draft k (add_of add) word) store.now (actor_seen actor.old) (step_outcome_of result) store.now (actor_seen actor.new) }
    ensures scores { IfOk result StepHasScores }
    ensures err { OnErr result (actor.new ≡ actor.old) }
{
    if !actor.is_idle() {
        return Err(StepError::ActorBusy);
    }
    if !store.can_draft(&add) {
        return Ok(StepOutcome::Direct);
    }
    match store.draft_with(add, word) {
        Ok(drafting) => {
            *actor = Actor::Drafting(drafting);
            Ok(StepOutcome::Drafted)
        }
        Err(refusal) => Ok(StepOutcome::Refused(refusal)),
    }
}

// What a drafted addition's actor is then at, and what comes of it. The steps that are counted are nobody's.
fn choose<L: Ledger>(drafting: Drafting, slot: &mut Slot, blank: Blank) -> (Actor, StepOutcome)
    requires name { blank.name ≡ L.name }
    requires parts { blank.parts ≡ L.parts }
    requires some { 0 < L.parts }
    ensures turns { (k : ℕ) (store : Sets Set) → Turns (machine.Prepare k) store (IsDrafting drafting) (stepped result.1) store (actor_seen result.0) }
    ensures scores { StepHasScores result.1 }
{
    let mut reads = Steps::<L>::new(blank);
    match Store::prepare(drafting, slot, &mut reads) {
        Ok(ready) => (Actor::Ready(ready), StepOutcome::Ready),
        Err(_) => (Actor::Idle, StepOutcome::Refused(Refusal::NoMemory)),
    }
}

/// Chooses whom a drafted addition is to be linked to, in the set at the draft.
pub(crate) fn prepare(actor: &mut Actor, slot: &mut Slot) -> Result<StepOutcome, StepError>
    ensures turns { (k : ℕ) (store : Sets Set) → Turns (machine.Prepare k) store (actor_seen actor.old) (step_outcome_of result) store (actor_seen actor.new) }
    ensures scores { IfOk result StepHasScores }
    ensures err { OnErr result (actor.new ≡ actor.old) }
{
    match mem::replace(actor, Actor::Idle) {
        Actor::Drafting(drafting) => {
            let (next, outcome) = choose::<Brand>(drafting, slot, Blank::new(1));
            *actor = next;
            Ok(outcome)
        }
        other => {
            *actor = other;
            Err(StepError::ActorIdle)
        }
    }
}
