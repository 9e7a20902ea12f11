//! What a core told of its events, beside the second reading.
ghost use Rattle.std.specs.Prelude.{All};
ghost use Rattle.vs_core.specs.Events.{FitsEvent};

use crate::acts::Happening;
use crate::answers::Wanted;
use crate::events::events;
use std::alloc::{AllocError, Global};
use std::process::Abort;
use vs_command::Answer;
use vs_core::{Core, StepError, StepOutcome};
use vs_outside::{List, NoMemory};
use vs_store_fixtures::{Fault, Linked, check_hits, check_own_links, nearest_text, show};

/// What came of an event.
type Outcome = Result<StepOutcome, StepError>;

/// A list of events, and what is to come of each.
#[derive(Drop)]
pub struct Script {
    pub happenings: List<Happening>,
    pub wanted: List<Wanted>,
}

/// Ends the test at a fault.
pub fn settled(rt: &impl Abort, judged: Result<(), Fault>) -> Result<(), NoMemory> {
    match judged {
        Ok(()) => Ok(()),
        Err(Fault::NoMemory) => Err(AllocError),
        Err(fault) => panic!(rt; "{fault:?}"),
    }
}

fn show_outcome(alloc: Global, outcome: Outcome) -> Result<String, NoMemory> {
    match outcome {
        Ok(StepOutcome::Answered(answer)) => show(alloc, &Ok(answer)),
        Ok(StepOutcome::Refused(refusal)) => show(alloc, &Err(refusal)),
        Ok(
            StepOutcome::Redone {
                cut_now,
                taken,
                answer,
            },
        ) => {
            let answer = show(alloc, &answer)?;
            Ok(format!(in alloc; "redone at {cut_now} {taken}: {answer}")?)
        }
        Ok(StepOutcome::Looked) => Ok(format!(in alloc; "looked")?),
        Ok(StepOutcome::Drafted) => Ok(format!(in alloc; "drafted")?),
        Ok(StepOutcome::Direct) => Ok(format!(in alloc; "direct")?),
        Ok(StepOutcome::Ready) => Ok(format!(in alloc; "ready")?),
        Err(error) => Ok(format!(in alloc; "{error:?}")?),
    }
}

fn check_shown(
    rt: &impl Abort,
    alloc: Global,
    happening: Happening,
    outcome: Outcome,
    wanted: &str,
) -> Result<(), NoMemory> {
    let shown = show_outcome(alloc, outcome)?;
    assert_eq!(rt; shown.as_str(), wanted, "{happening:?}");
    Ok(())
}

/// Judges what came of an event. Where it was the links of a member, they are handed on.
fn judge(
    rt: &impl Abort,
    alloc: Global,
    happening: Happening,
    outcome: Outcome,
    wanted: &Wanted,
) -> Result<Option<Linked>, NoMemory> {
    match (wanted, outcome) {
        (Wanted::Shown(text), outcome) => {
            check_shown(rt, alloc, happening, outcome, text.as_str())?;
            Ok(None)
        }
        (
            Wanted::Hits {
                sought,
                truth: true,
                members,
            },
            outcome,
        ) => {
            let text = nearest_text(alloc, members.as_slice(), *sought)?;
            check_shown(rt, alloc, happening, outcome, text.as_str())?;
            Ok(None)
        }
        (
            Wanted::Hits {
                sought,
                truth: false,
                members,
            },
            Ok(StepOutcome::Answered(Answer::Hits { hits, .. })),
        ) => {
            let judged = check_hits(alloc, members.as_slice(), *sought, hits.as_slice());
            settled(rt, judged)?;
            Ok(None)
        }
        (
            Wanted::Links { member, members },
            Ok(StepOutcome::Answered(Answer::Layers { layers, .. })),
        ) => {
            let linked = Linked {
                member: *member,
                layers,
            };
            settled(rt, check_own_links(members.as_slice(), &linked))?;
            Ok(Some(linked))
        }
        _ => panic!(rt; "another answer: {happening:?}"),
    }
}

/// Runs a list of events and judges what came of each. All links that were told are handed on.
pub fn play(
    rt: &impl Abort,
    alloc: Global,
    core: &mut Core,
    script: &Script,
) -> Result<List<Linked>, NoMemory> {
    let happenings = script.happenings.as_slice();
    let outcomes = core.run(events(rt, alloc, happenings)?)?;
    assert_eq!(rt; outcomes.len(), happenings.len());
    let mut graph = List::new(alloc);
    let mut place: usize = 0;
    for outcome in outcomes.into_vec() {
        let (Some(happening), Some(wanted)) = (happenings.get(place), script.wanted.get(place))
        else {
            panic!(rt; "more outcomes than events");
        };
        if let Some(linked) = judge(rt, alloc, *happening, outcome, wanted)? {
            graph.push(linked)?;
        }
        place = place.wrapping_add(1);
    }
    Ok(graph)
}
