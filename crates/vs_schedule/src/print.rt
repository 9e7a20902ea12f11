//! The line that an event prints.
ghost use Rattle.std.specs.Prelude.{◌≡◌, ◌++◌, IfOk, OnOk};
ghost use Rattle.vs_command.specs.Outcomes.{outcome_of};
ghost use Rattle.vs_command.specs.Refusals.{refusal_of};
ghost use Rattle.vs_command.specs.Scores.{HasScores};
ghost use Rattle.vs_thread_defs.specs.Interleaving as machine;
ghost use Rattle.vs_core.specs.Events.{step_outcome_of, unstepped, refused_by, StepHasScores};
ghost use Rattle.vs_thread_defs.specs.Schedule.{outcome_text, printed};
ghost use Rattle.vs_schedule_words.specs.Verbs.{verb_of};

use std::alloc::Global;
use vs_command::{Answer, Refusal};
use vs_core::{StepError, StepOutcome};
use vs_outside::{NoMemory, Text};
use vs_schedule_words::{Verb, push_decimal, push_result};

// Appends the text of what came of a stale commit.
fn push_redone(
    alloc: Global,
    out: &mut Text,
    cut_now: u64,
    taken: bool,
    answer: &Result<Answer, Refusal>,
) -> Result<(), NoMemory>
    requires { IfOk answer.now HasScores }
    ensures { OnOk result (out.new ≡ out.old ++ outcome_text (machine.Redone cut_now taken (outcome_of answer.now))) }
{
    out.extend_from_slice(b"stale ")?;
    push_decimal(out, cut_now)?;
    out.extend_from_slice(if taken { b" 1 " } else { b" 0 " })?;
    push_result(alloc, out, answer)
}

// Appends the text of a refusal.
fn push_refusal(alloc: Global, out: &mut Text, refusal: Refusal) -> Result<(), NoMemory>
    ensures { OnOk result (out.new ≡ out.old ++ outcome_text (refused_by (refusal_of refusal))) }
{
    push_result(alloc, out, &Err(refusal))
}

// Why there was no step.
fn error_text(error: StepError) -> &'static [u8]
    ensures { result.now ≡ outcome_text (unstepped error) }
{
    match error {
        StepError::NoSuchActor => b"no such actor",
        StepError::ActorBusy => b"actor busy",
        StepError::ActorIdle => b"actor idle",
    }
}

// Appends the text of what came of a step.
fn push_outcome(
    alloc: Global,
    out: &mut Text,
    outcome: Result<StepOutcome, StepError>,
) -> Result<(), NoMemory>
    requires { IfOk outcome StepHasScores }
    ensures { OnOk result (out.new ≡ out.old ++ outcome_text (step_outcome_of outcome)) }
{
    match outcome {
        Ok(StepOutcome::Answered(answer)) => push_result(alloc, out, &Ok(answer)),
        Ok(StepOutcome::Refused(refusal)) => push_refusal(alloc, out, refusal),
        Ok(
            StepOutcome::Redone {
                cut_now,
                taken,
                answer,
            },
        ) => { push_redone(alloc, out, cut_now, taken, &answer) }
        Ok(StepOutcome::Looked) => out.extend_from_slice(b"looked"),
        Ok(StepOutcome::Drafted) => out.extend_from_slice(b"drafted"),
        Ok(StepOutcome::Direct) => out.extend_from_slice(b"direct"),
        Ok(StepOutcome::Ready) => out.extend_from_slice(b"ready"),
        Err(error) => out.extend_from_slice(error_text(error)),
    }
}

/// Appends the line of an event: its actor, its verb, and what came of it.
pub(crate) fn push_event(
    alloc: Global,
    out: &mut Text,
    actor: u32,
    verb: Verb,
    outcome: Result<StepOutcome, StepError>,
) -> Result<(), NoMemory>
    requires { IfOk outcome StepHasScores }
    ensures { OnOk result (out.new ≡ out.old ++ printed actor (verb_of verb) (outcome_text (step_outcome_of outcome))) }
{
    push_decimal(out, u64::from(actor))?;
    out.push(b' ')?;
    out.extend_from_slice(verb.text())?;
    out.push(b' ')?;
    push_outcome(alloc, out, outcome)?;
    out.push(b'\n')
}
