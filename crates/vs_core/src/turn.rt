//! One event, for the store and one actor alone.
ghost use Rattle.std.specs.Prelude.{◌≡◌, IfOk, OnErr};
ghost use Rattle.vs_core.specs.Actors.{actor_seen};
ghost use Rattle.vs_core.specs.Events.{FitsEvent, event_of, step_outcome_of, StepHasScores};
ghost use Rattle.vs_core.specs.Turns.{Stands, Turns};

use crate::actor::Actor;
use crate::adding::{draft, prepare};
use crate::committing::commit;
use crate::doing::do_at_once;
use crate::searching::{finish, look};
use crate::{Event, StepError, StepOutcome};
use vs_slot::Slot;
use vs_store::Store;

/// The event of an actor. Where there is an error nothing has changed.
pub(crate) fn take_turn(
    store: &mut Store,
    slot: &mut Slot,
    actor: &mut Actor,
    event: Event,
) -> Result<StepOutcome, StepError>
    requires fits { FitsEvent event }
    requires stands { Stands store.old (actor_seen actor.old) }
    ensures turns { Turns (event_of event) store.old (actor_seen actor.old) (step_outcome_of result) store.new (actor_seen actor.new) }
    ensures scores { IfOk result StepHasScores }
    ensures store { OnErr result (store.new ≡ store.old) }
    ensures actor { OnErr result (actor.new ≡ actor.old) }
{
    match event {
        Event::Do {
            actor: number,
            request,
            words,
        } => do_at_once(store, slot, actor, number, &request, words.as_slice()),
        Event::Look { search, .. } => look(store, actor, search),
        Event::Finish { .. } => finish(actor, slot),
        Event::Draft { add, word, .. } => draft(store, actor, add, word),
        Event::Prepare { .. } => prepare(actor, slot),
        Event::Commit { actor: number } => commit(store, slot, actor, number),
    }
}
