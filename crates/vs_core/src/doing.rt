//! A request that an actor does at once.
ghost use Rattle.std.specs.Prelude.{◌≡◌, length, IfOk, OnErr};
ghost use Rattle.vs_defs.specs.Bounds.{IsInBounds};
ghost use Rattle.vs_defs.specs.Read.{draws};
ghost use Rattle.vs_thread_defs.specs.Interleaving as machine;
ghost use Rattle.vs_command.specs.Outcomes.{outcome_of};
ghost use Rattle.vs_command.specs.Requests.{request_of};
ghost use Rattle.vs_core.specs.Actors.{actor_seen};
ghost use Rattle.vs_command.specs.Scores.{HasScores};
ghost use Rattle.vs_core.specs.Events.{stepped, step_outcome_of, StepHasScores};
ghost use Rattle.vs_core.specs.Turns.{Turns};

use crate::actor::Actor;
use crate::{StepError, StepOutcome};
use vs_command::{Answer, Refusal, Request};
use vs_slot::Slot;
use vs_store::Store;

// What comes of a step that has done a request.
fn outcome(done: Result<Answer, Refusal>) -> StepOutcome
    ensures outcome { stepped result ≡ machine.outcome_of (outcome_of done) }
    ensures scores { IfOk done HasScores → StepHasScores result }
{
    match done {
        Ok(answer) => StepOutcome::Answered(answer),
        Err(refusal) => StepOutcome::Refused(refusal),
    }
}

/// Does a request for the actor of that number, which stays idle.
pub(crate) fn do_at_once(
    store: &mut Store,
    slot: &mut Slot,
    actor: &Actor,
    number: u32,
    request: &Request,
    words: &[u32],
) -> Result<StepOutcome, StepError>
    requires bounds { IsInBounds (request_of request.now) }
    requires words { length words.now ≡ draws (request_of request.now) }
    ensures turns { Turns (machine.Do number (request_of request.now) words.now) store.old (actor_seen actor.now) (step_outcome_of result) store.new (actor_seen actor.now) }
    ensures scores { IfOk result StepHasScores }
    ensures err { OnErr result (store.new ≡ store.old) }
{
    if !actor.is_idle() {
        return Err(StepError::ActorBusy);
    }
    let done = store.do_now(u64::from(number), request, words, slot);
    Ok(outcome(done))
}
