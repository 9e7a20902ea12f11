//! The lines behind the first: what event a line asks for.
ghost use Rattle.std.specs.Prelude.{◌≡◌, ◌≢◌, None, IfOk, IfSome};
ghost use Rattle.vs_command.specs.Readings.{AreShort};
ghost use Rattle.vs_command.specs.Requests.{request_of};
ghost use Rattle.vs_defs.specs.Bounds.{IsInBounds};
ghost use Rattle.vs_command.specs.Refusals.{refusal_of};
ghost use Rattle.vs_thread_defs.specs.Schedule.{event_line, line_by, do_line, draft_line, asks, bare as bare_of, read_line as read_line_of, look_event, do_event as do_event_of, draft_event as draft_event_of};
ghost use Rattle.vs_thread_defs.specs.Schedule as schedule;
ghost use Rattle.vs_defs.specs.Read.{read};
ghost use Rattle.vs_core.specs.Events.{event_of, FitsEvent};
ghost use Rattle.vs_schedule_words.specs.Verbs.{verb_of};
ghost use Rattle.vs_schedule.specs.Lines.{Means, FitsLine};

use std::alloc::{AllocError, Global};
use vs_command::{Refusal, Request, draws, read_request};
use vs_core::Event;
use vs_outside::{List, NoMemory, Text};
use vs_schedule_words::{Verb, drawn_words, line_words, word_number};

/// What a line means.
#[derive(Drop)]
pub(crate) enum Line {
    Blank,
    Bad,
    Happening {
        verb: Verb,
        event: Event,
    },
    /// Words that aren't read are no event.
    Unread {
        actor: u32,
        verb: Verb,
        refusal: Refusal,
    },
}

// A line whose words aren't read; want of memory is no meaning of it.
fn unread(actor: u32, verb: Verb, refusal: Refusal) -> Result<Line, NoMemory>
    ensures means { IfOk result (λ line. IfSome (refusal_of refusal) (λ cause. Means line (schedule.Unread actor (verb_of verb) cause))) }
    ensures cause { IfOk result (λ line. refusal_of refusal ≢ None) }
    ensures fits { IfOk result FitsLine }
{
    match refusal {
        Refusal::NoMemory => Err(AllocError),
        refusal => Ok(Line::Unread {
            actor,
            verb,
            refusal,
        }),
    }
}

// A request done at once, with as many drawn words as it takes.
fn do_event(actor: u32, drawn: List<u32>, request: Request) -> Line
    requires { IsInBounds (request_of request) }
    ensures means { Means result (do_event_of actor drawn (request_of request)) }
    ensures fits { FitsLine result }
{
    if drawn.len() == draws(&request) as usize {
        Line::Happening {
            verb: Verb::Do,
            event: Event::Do {
                actor,
                request,
                words: drawn,
            },
        }
    } else {
        Line::Bad
    }
}

fn do_request(alloc: Global, actor: u32, drawn: List<u32>, words: &[Text]) -> Result<Line, NoMemory>
    requires { AreShort words.now }
    ensures means { IfOk result (λ line. Means line (asks words.now (λ ws. read_line_of actor schedule.Do (do_event_of actor drawn) (read ws)))) }
    ensures fits { IfOk result FitsLine }
{
    if words.is_empty() {
        return Ok(Line::Bad);
    }
    match read_request(alloc, words) {
        Ok(request) => Ok(do_event(actor, drawn, request)),
        Err(refusal) => unread(actor, Verb::Do, refusal),
    }
}

fn do_words(alloc: Global, actor: u32, words: &[Text]) -> Result<Line, NoMemory>
    requires { AreShort words.now }
    ensures means { IfOk result (λ line. Means line (do_line actor words.now)) }
    ensures fits { IfOk result FitsLine }
{
    let [drawn, words @ ..] = words else {
        return Ok(Line::Bad);
    };
    let Some(drawn) = drawn_words(alloc, drawn.as_slice())? else {
        return Ok(Line::Bad);
    };
    do_request(alloc, actor, drawn, words)
}

fn look_words(alloc: Global, actor: u32, words: &[Text]) -> Result<Line, NoMemory>
    requires { AreShort words.now }
    ensures means { IfOk result (λ line. Means line (asks words.now (λ ws. read_line_of actor schedule.Look (look_event actor) (read ws)))) }
    ensures fits { IfOk result FitsLine }
{
    if words.is_empty() {
        return Ok(Line::Bad);
    }
    match read_request(alloc, words) {
        Ok(Request::Vsim(search)) => Ok(Line::Happening {
            verb: Verb::Look,
            event: Event::Look { actor, search },
        }),
        Ok(_) => Ok(Line::Bad),
        Err(refusal) => unread(actor, Verb::Look, refusal),
    }
}

// A draft of an addition with CAS.
fn draft_event(actor: u32, word: u32, request: Request) -> Line
    requires { IsInBounds (request_of request) }
    ensures means { Means result (draft_event_of actor word (request_of request)) }
    ensures fits { FitsLine result }
{
    match request {
        Request::Vadd(add) => {
            if add.cas {
                Line::Happening {
                    verb: Verb::Draft,
                    event: Event::Draft { actor, add, word },
                }
            } else {
                Line::Bad
            }
        }
        _ => Line::Bad,
    }
}

fn draft_request(alloc: Global, actor: u32, word: u32, words: &[Text]) -> Result<Line, NoMemory>
    requires { AreShort words.now }
    ensures means { IfOk result (λ line. Means line (asks words.now (λ ws. read_line_of actor schedule.Draft (draft_event_of actor word) (read ws)))) }
    ensures fits { IfOk result FitsLine }
{
    if words.is_empty() {
        return Ok(Line::Bad);
    }
    match read_request(alloc, words) {
        Ok(request) => Ok(draft_event(actor, word, request)),
        Err(refusal) => unread(actor, Verb::Draft, refusal),
    }
}

fn draft_words(alloc: Global, actor: u32, words: &[Text]) -> Result<Line, NoMemory>
    requires { AreShort words.now }
    ensures means { IfOk result (λ line. Means line (draft_line actor words.now)) }
    ensures fits { IfOk result FitsLine }
{
    let [word, words @ ..] = words else {
        return Ok(Line::Bad);
    };
    let Some(word) = word_number(word.as_slice()) else {
        return Ok(Line::Bad);
    };
    draft_request(alloc, actor, word, words)
}

// An event that takes no words.
fn bare(words: &[Text], verb: Verb, event: Event) -> Line
    requires { FitsEvent event }
    ensures means { Means result (bare_of words.now (schedule.Happening (verb_of verb) (event_of event))) }
    ensures fits { FitsLine result }
{
    if words.is_empty() {
        Line::Happening { verb, event }
    } else {
        Line::Bad
    }
}

// What the words of a line mean: an actor, a verb, and what the verb takes.
fn event_words(alloc: Global, words: &[Text]) -> Result<Line, NoMemory>
    requires { AreShort words.now }
    ensures means { IfOk result (λ line. Means line (event_line words.now)) }
    ensures fits { IfOk result FitsLine }
{
    let [actor, verb, words @ ..] = words else {
        return Ok(Line::Bad);
    };
    let Some(actor) = word_number(actor.as_slice()) else {
        return Ok(Line::Bad);
    };
    let Some(verb) = Verb::named(verb.as_slice()) else {
        return Ok(Line::Bad);
    };
    match verb {
        Verb::Do => do_words(alloc, actor, words),
        Verb::Look => look_words(alloc, actor, words),
        Verb::Draft => draft_words(alloc, actor, words),
        Verb::Finish => Ok(bare(words, verb, Event::Finish { actor })),
        Verb::Prepare => Ok(bare(words, verb, Event::Prepare { actor })),
        Verb::Commit => Ok(bare(words, verb, Event::Commit { actor })),
    }
}

/// What a line behind the first means.
pub(crate) fn read_line(alloc: Global, line: &[u8]) -> Result<Line, NoMemory>
    ensures means { IfOk result (λ meant. Means meant (line_by event_line line.now)) }
    ensures fits { IfOk result FitsLine }
{
    if line.is_empty() {
        return Ok(Line::Blank);
    }
    match line_words(alloc, line)? {
        Some(words) => event_words(alloc, words.as_slice()),
        None => Ok(Line::Bad),
    }
}
