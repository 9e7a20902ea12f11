//! The requests that were worked out by hand, where an allocation is refused: each answer is the one that was worked out, or out of memory
//! with the store as before, and then the request is carried out when it comes again. At most one allocation is refused in a run, by
//! `tools/refused`; with none the test is that of the answers.
use crate::asking::{Asked, check, outcome_of};
use crate::worked::{ALL, Step};
use std::alloc::{AllocError, Global};
use std::process::Abort;
use std::test::Fail;
use vs_command::{Answer, Refusal};
use vs_outside::{List, NoMemory, Text};
use vs_store::Limits;
use vs_store_fixtures::{show, words_for};

/// A line's answer after a text.
fn push_answer(
    rt: &impl Abort,
    asked: &mut Asked,
    shown: &mut String,
    line: &str,
) -> Result<(), NoMemory> {
    let outcome = outcome_of(rt, asked, line, &[])?;
    shown.push_str(show(asked.alloc, &outcome)?.as_str())?;
    shown.push_str("\n")?;
    Ok(())
}

/// How many members a set has.
fn count_of(rt: &impl Abort, asked: &mut Asked, key: &str) -> Result<u32, NoMemory> {
    let line = format!(in asked.alloc; "VCARD {key}")?;
    match outcome_of(rt, asked, line.as_str(), &[])? {
        Ok(Answer::Int(count)) => Ok(u32::try_from(count).unwrap_or(0)),
        _ => panic!(rt; "no count: {line}"),
    }
}

/// The names of a set's members in their places.
fn names_of(rt: &impl Abort, asked: &mut Asked, key: &str) -> Result<List<Text>, NoMemory> {
    let count = count_of(rt, asked, key)?;
    let words = words_for(asked.alloc, count)?;
    let line = format!(in asked.alloc; "VRANDMEMBER {key} -{count}")?;
    match outcome_of(rt, asked, line.as_str(), words.as_slice())? {
        Ok(Answer::Names(names)) => Ok(names),
        _ => panic!(rt; "no names: {line}"),
    }
}

/// All that a store tells of a member.
fn push_member(
    rt: &impl Abort,
    asked: &mut Asked,
    shown: &mut String,
    key: &str,
    name: &Text,
) -> Result<(), NoMemory> {
    let Ok(name) = str::from_utf8(name.as_slice()) else {
        panic!(rt; "a name that isn't letters");
    };
    let alloc = asked.alloc;
    let line = format!(in alloc; "VEMB {key} {name}")?;
    push_answer(rt, asked, shown, line.as_str())?;
    let line = format!(in alloc; "VGETATTR {key} {name}")?;
    push_answer(rt, asked, shown, line.as_str())?;
    let line = format!(in alloc; "VLINKS {key} {name} WITHSCORES")?;
    push_answer(rt, asked, shown, line.as_str())
}

/// All that a store tells of a set.
fn state_of(rt: &impl Abort, asked: &mut Asked, key: &str) -> Result<String, NoMemory> {
    let mut shown = String::new(asked.alloc);
    let line = format!(in asked.alloc; "VINFO {key}")?;
    push_answer(rt, asked, &mut shown, line.as_str())?;
    let names = names_of(rt, asked, key)?;
    for name in names.as_slice() {
        push_member(rt, asked, &mut shown, key, name)?;
    }
    Ok(shown)
}

/// The store is as one that has carried out these steps.
fn check_state(rt: &impl Abort, asked: &mut Asked, steps: &[Step]) -> Result<(), NoMemory> {
    let mut other = Asked::new(asked.alloc, Limits::usual());
    for (drawn, line, wanted) in steps {
        check(rt, &mut other, line, drawn, wanted)?;
    }
    assert_eq!(rt; asked.store.changes(), other.store.changes());
    for key in ["g", "s"] {
        let state = state_of(rt, asked, key)?;
        let wanted = state_of(rt, &mut other, key)?;
        assert_eq!(rt; state.as_str(), wanted.as_str());
    }
    Ok(())
}

/// The step that comes after these, and again where it is out of memory.
fn take_step(
    rt: &impl Abort,
    asked: &mut Asked,
    before: &[Step],
    (drawn, line, wanted): Step,
) -> Result<(), NoMemory> {
    let outcome = match outcome_of(rt, asked, line, drawn) {
        Ok(outcome) => outcome,
        Err(AllocError) => outcome_of(rt, asked, line, drawn)?,
    };
    if let Err(Refusal::NoMemory) = outcome {
        check_state(rt, asked, before)?;
        return check(rt, asked, line, drawn, wanted);
    }
    let shown = match show(asked.alloc, &outcome) {
        Ok(shown) => shown,
        Err(AllocError) => show(asked.alloc, &outcome)?,
    };
    assert_eq!(rt; shown.as_str(), wanted, "{line}");
    Ok(())
}

fn take_steps(rt: &impl Abort, alloc: Global, steps: &[Step]) -> Result<(), NoMemory> {
    let mut asked = Asked::new(alloc, Limits::usual());
    for (place, step) in steps.iter().enumerate() {
        take_step(rt, &mut asked, &steps[..place], *step)?;
    }
    Ok(())
}

#[test]
fn refused_memory_changes_nothing(rt: HostRuntime) -> Result<(), Fail> {
    for steps in ALL {
        take_steps(&rt, rt.alloc(), steps)?;
    }
    Ok(())
}
