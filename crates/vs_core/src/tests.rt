//! Schedules, step by step: what comes of each event.
ghost use Rattle.std.specs.Prelude.{IsTrue, IfOk};
ghost use Rattle.vs_command.specs.Readings.{AreShort};
ghost use Rattle.vs_core.specs.Events.{FitsEvent};

use crate::{Core, Event, StepError, StepOutcome};
use std::alloc::{AllocError, Global};
use std::process::Abort;
use std::test::Fail;
use vs_command::{Answer, Refusal, Request, draws, read_request};
use vs_outside::{List, Text};
use vs_store::Limits;

fn words_of(alloc: Global, line: &str) -> Result<List<Text>, AllocError> {
    let mut words = List::new(alloc);
    for word in line.split(' ') {
        words.push(Text::from_slice(alloc, word.as_bytes())?)?;
    }
    Ok(words)
}

fn are_short(words: &[Text]) -> bool
    ensures { IsTrue result → AreShort words.now }
{
    words.len() < 4294967296 && words.iter().all(|word| word.len() < 4294967296)
}

/// A Do, a Look of a search, or a Draft of an addition with CAS. Each drawn word gives level 0.
fn begun(
    rt: &impl Abort,
    alloc: Global,
    actor: u32,
    verb: &str,
    line: &str,
) -> Result<Event, AllocError>
    ensures { IfOk result FitsEvent }
{
    let words = words_of(alloc, line)?;
    assert!(rt; words.len() > 0 && are_short(words.as_slice()), "{line}");
    let Ok(request) = read_request(alloc, words.as_slice()) else {
        panic!(rt; "no request: {line}");
    };
    match (verb, request) {
        ("look", Request::Vsim(search)) => Ok(Event::Look { actor, search }),
        ("draft", Request::Vadd(add)) => {
            assert!(rt; add.cas, "{line}");
            Ok(Event::Draft {
                actor,
                add,
                word: u32::MAX,
            })
        }
        (_, request) => {
            let count = draws(&request) as usize;
            assert!(rt; count <= 2);
            let drawn = List::from_slice(alloc, &[u32::MAX, u32::MAX][..count])?;
            Ok(Event::Do {
                actor,
                request,
                words: drawn,
            })
        }
    }
}

fn show_answer(alloc: Global, outcome: &Result<Answer, Refusal>) -> Result<String, AllocError> {
    match outcome {
        Ok(Answer::Int(n)) => format!(in alloc; "{n}"),
        Ok(Answer::Hits { hits, .. }) => format!(in alloc; "{} hits", hits.len()),
        Ok(_) => format!(in alloc; "another answer"),
        Err(refusal) => format!(in alloc; "{refusal:?}"),
    }
}

fn show(alloc: Global, outcome: Result<StepOutcome, StepError>) -> Result<String, AllocError> {
    match outcome {
        Ok(StepOutcome::Answered(answer)) => show_answer(alloc, &Ok(answer)),
        Ok(StepOutcome::Refused(refusal)) => format!(in alloc; "{refusal:?}"),
        Ok(
            StepOutcome::Redone {
                cut_now,
                taken,
                answer,
            },
        ) => {
            let answer = show_answer(alloc, &answer)?;
            format!(in alloc; "redone at {cut_now} {taken}: {answer}")
        }
        Ok(StepOutcome::Looked) => format!(in alloc; "looked"),
        Ok(StepOutcome::Drafted) => format!(in alloc; "drafted"),
        Ok(StepOutcome::Direct) => format!(in alloc; "direct"),
        Ok(StepOutcome::Ready) => format!(in alloc; "ready"),
        Err(error) => format!(in alloc; "{error:?}"),
    }
}

/// Each event in turn: its actor, its verb, its line and what is to come of it.
fn check_on(
    rt: &impl Abort,
    alloc: Global,
    core: &mut Core,
    cases: &[(u32, &str, &str, &str)],
) -> Result<(), AllocError> {
    for (actor, verb, line, wanted) in cases {
        let event = match *verb {
            "finish" => Event::Finish { actor: *actor },
            "prepare" => Event::Prepare { actor: *actor },
            "commit" => Event::Commit { actor: *actor },
            verb => begun(rt, alloc, *actor, verb, line)?,
        };
        let outcome = show(alloc, core.step(event))?;
        assert_eq!(rt; outcome.as_str(), *wanted, "{actor} {verb} {line}");
    }
    Ok(())
}

#[test]
fn errors_in_order(rt: HostRuntime) -> Result<(), Fail> {
    let alloc = rt.alloc();
    let mut core = Core::new(alloc, 2, Limits::usual())?;
    check_on(
        &rt,
        alloc,
        &mut core,
        &[
            (0, "finish", "", "NoSuchActor"),
            (3, "do", "PING", "NoSuchActor"),
            (3, "commit", "", "NoSuchActor"),
            (1, "finish", "", "ActorIdle"),
            (1, "prepare", "", "ActorIdle"),
            (1, "commit", "", "ActorIdle"),
            (1, "look", "VSIM k ELE a", "looked"),
            (1, "look", "VSIM k ELE a", "ActorBusy"),
            (1, "do", "PING", "ActorBusy"),
            (1, "draft", "VADD k VALUES 1 1 a CAS", "ActorBusy"),
            (1, "prepare", "", "ActorIdle"),
            (1, "commit", "", "ActorIdle"),
            (2, "draft", "VADD k VALUES 1 1 a CAS", "direct"),
            (2, "finish", "", "ActorIdle"),
            (1, "finish", "", "0 hits"),
            (1, "finish", "", "ActorIdle"),
        ],
    )?;
    Ok(())
}

/// `a` and `b` in the set `k`, on a core with three actors.
fn core_of_two(rt: &impl Abort, alloc: Global) -> Result<Core, AllocError> {
    let mut core = Core::new(alloc, 3, Limits::usual())?;
    let lines = [
        (1, "do", "VADD k VALUES 1 1 a", "1"),
        (1, "do", "VADD k VALUES 1 -1 b", "1"),
    ];
    check_on(rt, alloc, &mut core, &lines)?;
    Ok(core)
}

#[test]
fn looks_answered_later(rt: HostRuntime) -> Result<(), Fail> {
    let alloc = rt.alloc();
    let mut core = core_of_two(&rt, alloc)?;
    check_on(
        &rt,
        alloc,
        &mut core,
        &[
            (1, "look", "VSIM k ELE a", "looked"),
            (2, "do", "VREM k a", "1"),
            (2, "look", "VSIM k ELE a", "NoSuchElement"),
            (2, "look", "VSIM k ELE b", "looked"),
            (3, "do", "DEL k", "1"),
            (1, "finish", "", "2 hits"),
            (2, "finish", "", "1 hits"),
        ],
    )?;
    Ok(())
}

#[test]
fn stale_commits_redone(rt: HostRuntime) -> Result<(), Fail> {
    let alloc = rt.alloc();
    let mut core = core_of_two(&rt, alloc)?;
    check_on(
        &rt,
        alloc,
        &mut core,
        &[
            (1, "draft", "VADD k VALUES 1 1 c CAS", "drafted"),
            (2, "draft", "VADD k VALUES 1 1 c CAS", "drafted"),
            (3, "draft", "VADD k VALUES 1 1 d CAS", "drafted"),
            (1, "commit", "", "ActorIdle"),
            (1, "prepare", "", "ready"),
            (2, "prepare", "", "ready"),
            (3, "prepare", "", "ready"),
            (1, "commit", "", "1"),
            (2, "commit", "", "redone at 1 true: 0"),
            (3, "commit", "", "redone at 4 false: 1"),
            (3, "draft", "VADD k VALUES 1 1 d CAS", "direct"),
            (1, "do", "VCARD k", "4"),
        ],
    )?;
    Ok(())
}

#[test]
fn a_commit_of_a_key_that_is_gone(rt: HostRuntime) -> Result<(), Fail> {
    let alloc = rt.alloc();
    let mut core = core_of_two(&rt, alloc)?;
    check_on(
        &rt,
        alloc,
        &mut core,
        &[
            (1, "draft", "VADD k VALUES 1 1 c CAS", "drafted"),
            (1, "prepare", "", "ready"),
            (2, "do", "DEL k", "1"),
            (1, "commit", "", "redone at 0 false: 1"),
            (1, "do", "VCARD k", "1"),
        ],
    )?;
    Ok(())
}

#[test]
fn sixty_four_actors(rt: HostRuntime) -> Result<(), Fail> {
    let alloc = rt.alloc();
    let mut core = Core::new(alloc, 64, Limits::usual())?;
    check_on(
        &rt,
        alloc,
        &mut core,
        &[(64, "do", "VADD k VALUES 1 1 a", "1")],
    )?;
    for actor in 1..65 {
        check_on(
            &rt,
            alloc,
            &mut core,
            &[(actor, "look", "VSIM k ELE a", "looked")],
        )?;
    }
    assert_eq!(&rt; core.busy(64), Some(StepError::ActorBusy));
    assert_eq!(&rt; core.busy(65), Some(StepError::NoSuchActor));
    check_on(&rt, alloc, &mut core, &[(65, "finish", "", "NoSuchActor")])?;
    for actor in 1..65 {
        check_on(&rt, alloc, &mut core, &[(actor, "finish", "", "1 hits")])?;
    }
    assert_eq!(&rt; core.busy(64), None);
    Ok(())
}

#[test]
fn a_run_of_events(rt: HostRuntime) -> Result<(), Fail> {
    let alloc = rt.alloc();
    let mut core = core_of_two(&rt, alloc)?;
    let mut events = List::new(alloc);
    events.push(begun(&rt, alloc, 1, "look", "VSIM k ELE a")?)?;
    events.push(begun(&rt, alloc, 2, "do", "VREM k a")?)?;
    events.push(Event::Finish { actor: 1 })?;
    events.push(Event::Finish { actor: 1 })?;
    let outcomes = core.run(events)?;
    let mut shown = String::new(alloc);
    for outcome in outcomes.into_vec() {
        shown.push_str(show(alloc, outcome)?.as_str())?;
        shown.push_str("; ")?;
    }
    assert_eq!(&rt; shown.as_str(), "looked; 1; 2 hits; ActorIdle; ");
    Ok(())
}
