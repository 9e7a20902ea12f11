//! The commit of a ready addition. A stale one does its request again in the same event; else no search is run.
ghost use Rattle.std.specs.Prelude.{◌≡◌, ◌<◌, Some, None, IfOk, OnErr};
ghost use Rattle.vs_defs.specs.Stale.{stale_by};
ghost use Rattle.vs_defs.specs.Store.{set_of};
ghost use Rattle.vs_thread_defs.specs.Core.{Idle, IsReady};
ghost use Rattle.vs_thread_defs.specs.Interleaving as machine;
ghost use Rattle.vs_core.specs.Actors.{actor_seen};
ghost use Rattle.vs_core.specs.Events.{stepped, step_outcome_of, StepHasScores};
ghost use Rattle.vs_core.specs.Turns.{Stands, Turns};

use crate::actor::Actor;
use crate::{StepError, StepOutcome};
use std::marker::Brand;
use std::mem;
use std::sync::ledger::{Blank, Ledger};
use vs_command::{Refusal, Request};
use vs_graph::Steps;
use vs_slot::Slot;
use vs_store::{CommitError, Ready, Store};
use vs_thread_defs::draft_laws;

// Does the request of a stale addition again.
fn redo(
    store: &mut Store,
    slot: &mut Slot,
    number: u32,
    ready: Ready,
    cut_now: u64,
    taken: bool,
) -> StepOutcome
    requires { stale_by ready.cut ready.add.name (set_of ready.add.key store.old) ≡ Some (cut_now, taken) }
    ensures turns { Turns (machine.Commit number) store.old (IsReady ready) (stepped result) store.new Idle }
    ensures scores { StepHasScores result }
{
    let (add, word) = ready.into_add();
    let request = Request::Vadd(add);
    let answer = store.do_now(u64::from(number), &request, &[word], slot);
    StepOutcome::Redone {
        cut_now,
        taken,
        answer,
    }
}

// Commits an addition that isn't stale. The steps that are counted are nobody's.
fn commit_fresh<L: Ledger>(
    store: &mut Store,
    number: u32,
    ready: Ready,
    blank: Blank,
) -> StepOutcome
    requires name { blank.name ≡ L.name }
    requires parts { blank.parts ≡ L.parts }
    requires some { 0 < L.parts }
    requires fresh { stale_by ready.cut ready.add.name (set_of ready.add.key store.old) ≡ None }
    requires stands { Stands store.old (IsReady ready) }
    ensures turns { Turns (machine.Commit number) store.old (IsReady ready) (stepped result) store.new Idle }
    ensures scores { StepHasScores result }
{
    draft_laws();
    let _add = ready.add();
    let mut reads = Steps::<L>::new(blank);
    match store.commit(u64::from(number), ready, &mut reads) {
        Ok(answer) => StepOutcome::Answered(answer),
        Err(CommitError::NoMemory) => StepOutcome::Refused(Refusal::NoMemory),
        Err(CommitError::Refused(refusal)) => StepOutcome::Refused(refusal),
        Err(CommitError::Stale { .. }) => unreachable!(),
    }
}

// Commits an addition, or does its request again where it is stale.
fn commit_ready(store: &mut Store, slot: &mut Slot, number: u32, ready: Ready) -> StepOutcome
    requires { Stands store.old (IsReady ready) }
    ensures turns { Turns (machine.Commit number) store.old (IsReady ready) (stepped result) store.new Idle }
    ensures scores { StepHasScores result }
{
    match store.stale(&ready) {
        Some((cut_now, taken)) => redo(store, slot, number, ready, cut_now, taken),
        None => commit_fresh::<Brand>(store, number, ready, Blank::new(1)),
    }
}

/// The commit of the actor of that number, which is then idle.
pub(crate) fn commit(
    store: &mut Store,
    slot: &mut Slot,
    actor: &mut Actor,
    number: u32,
) -> Result<StepOutcome, StepError>
    requires { Stands store.old (actor_seen actor.old) }
    ensures turns { Turns (machine.Commit number) store.old (actor_seen actor.old) (step_outcome_of result) store.new (actor_seen actor.new) }
    ensures scores { IfOk result StepHasScores }
    ensures store { OnErr result (store.new ≡ store.old) }
    ensures actor { OnErr result (actor.new ≡ actor.old) }
{
    match mem::replace(actor, Actor::Idle) {
        Actor::Ready(ready) => Ok(commit_ready(store, slot, number, ready)),
        other => {
            *actor = other;
            Err(StepError::ActorIdle)
        }
    }
}
