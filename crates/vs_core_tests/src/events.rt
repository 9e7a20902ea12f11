//! What actors do as events of a core.
ghost use Rattle.std.specs.Prelude.{All, IfOk};
ghost use Rattle.vs_core.specs.Events.{FitsEvent};
ghost use Rattle.vs_command.specs.Requests.{request_of};
ghost use Rattle.vs_defs.specs.Bounds.{IsInBounds};

use crate::acts::{Act, Ask, Happening, addition_line, drawn, line, search_line};
use std::alloc::{AllocError, Global};
use std::process::Abort;
use vs_command::{Refusal, Request, draws, read_request};
use vs_core::Event;
use vs_outside::{List, NoMemory};
use vs_schedule_words::line_words;

/// The request of a line.
fn request(rt: &impl Abort, alloc: Global, line: &str) -> Result<Request, NoMemory>
    ensures { IfOk result (λ r. IsInBounds (request_of r)) }
{
    let Some(words) = line_words(alloc, line.as_bytes())? else {
        panic!(rt; "no words: {line}");
    };
    match read_request(alloc, words.as_slice()) {
        Ok(request) => Ok(request),
        Err(Refusal::NoMemory) => Err(AllocError),
        Err(refusal) => panic!(rt; "{refusal:?}: {line}"),
    }
}

fn do_event(rt: &impl Abort, alloc: Global, actor: u32, ask: Ask) -> Result<Event, NoMemory>
    ensures { IfOk result FitsEvent }
{
    let request = request(rt, alloc, line(alloc, ask)?.as_str())?;
    let (words, count) = drawn(ask);
    assert!(rt; count <= 4 && count == draws(&request) as usize);
    let words = List::from_slice(alloc, &words[..count])?;
    Ok(Event::Do {
        actor,
        request,
        words,
    })
}

fn look_event(rt: &impl Abort, alloc: Global, actor: u32, line: &str) -> Result<Event, NoMemory>
    ensures { IfOk result FitsEvent }
{
    match request(rt, alloc, line)? {
        Request::Vsim(search) => Ok(Event::Look { actor, search }),
        _ => panic!(rt; "no search: {line}"),
    }
}

fn draft_event(
    rt: &impl Abort,
    alloc: Global,
    actor: u32,
    line: &str,
    word: u32,
) -> Result<Event, NoMemory>
    ensures { IfOk result FitsEvent }
{
    match request(rt, alloc, line)? {
        Request::Vadd(add) => {
            assert!(rt; add.cas, "{line}");
            Ok(Event::Draft { actor, add, word })
        }
        _ => panic!(rt; "no addition: {line}"),
    }
}

/// The event of a core.
fn event(rt: &impl Abort, alloc: Global, happening: Happening) -> Result<Event, NoMemory>
    ensures { IfOk result FitsEvent }
{
    let actor = happening.actor;
    match happening.act {
        Act::Do(ask) => do_event(rt, alloc, actor, ask),
        Act::Look(search) => look_event(rt, alloc, actor, search_line(alloc, search)?.as_str()),
        Act::Finish => Ok(Event::Finish { actor }),
        Act::Draft(addition) => {
            let line = addition_line(alloc, addition)?;
            draft_event(rt, alloc, actor, line.as_str(), addition.word)
        }
        Act::Prepare => Ok(Event::Prepare { actor }),
        Act::Commit => Ok(Event::Commit { actor }),
    }
}

/// The events of a core, in order.
pub fn events(
    rt: &impl Abort,
    alloc: Global,
    happenings: &[Happening],
) -> Result<List<Event>, NoMemory>
    ensures { IfOk result (All FitsEvent) }
{
    let mut events = List::new(alloc);
    for happening in happenings {
        events.push(event(rt, alloc, *happening)?)?;
    }
    Ok(events)
}
