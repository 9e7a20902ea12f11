//! Requests by their words, carried out by a store.
ghost use Rattle.std.specs.Prelude.{IsTrue};
ghost use Rattle.vs_command.specs.Readings.{AreShort};
ghost use Rattle.vs_store.specs.Kept.{AreUsual};
ghost use Rattle.vs_store.specs.Seen.{limits_seen};

use std::alloc::{AllocError, Global};
use std::process::Abort;
use vs_command::{Answer, Refusal, draws, read_request};
use vs_outside::{List, NoMemory, Text};
use vs_slot::Slot;
use vs_store::{Limits, Store};
use vs_store_fixtures::{Fault, show};

/// A store, with what its searches take.
#[derive(Drop)]
pub struct Asked {
    pub alloc: Global,
    pub store: Store,
    pub slot: Slot,
}

impl Asked {
    pub fn new(alloc: Global, limits: Limits) -> Asked
        requires { AreUsual (limits_seen limits) }
    {
        Asked {
            alloc,
            store: Store::new(alloc, limits),
            slot: Slot::new(alloc),
        }
    }
}

fn words_of(alloc: Global, line: &str) -> Result<List<Text>, NoMemory> {
    let mut words = List::new(alloc);
    for word in line.split(' ') {
        words.push(Text::from_slice(alloc, word.as_bytes())?)?;
    }
    Ok(words)
}

fn are_short(words: &[Text]) -> bool
    ensures { IsTrue result → AreShort words.now }
{
    words.len() < 4294967296 && words.iter().all(|word| word.len() < 4294967296)
}

/// What the store does with a line and these drawn words. Want of memory for the words of the line is no outcome.
pub fn outcome_of(
    rt: &impl Abort,
    asked: &mut Asked,
    line: &str,
    drawn: &[u32],
) -> Result<Result<Answer, Refusal>, NoMemory> {
    let words = words_of(asked.alloc, line)?;
    assert!(rt; words.len() > 0 && are_short(words.as_slice()), "{line}");
    let request = match read_request(asked.alloc, words.as_slice()) {
        Ok(request) => request,
        Err(Refusal::NoMemory) => return Err(AllocError),
        Err(refusal) => return Ok(Err(refusal)),
    };
    assert!(rt; drawn.len() == draws(&request) as usize, "{line}");
    Ok(asked.store.do_now(0, &request, drawn, &mut asked.slot))
}

/// The store's answer to a line is shown so.
pub fn check(
    rt: &impl Abort,
    asked: &mut Asked,
    line: &str,
    drawn: &[u32],
    wanted: &str,
) -> Result<(), NoMemory> {
    let outcome = outcome_of(rt, asked, line, drawn)?;
    let shown = show(asked.alloc, &outcome)?;
    assert_eq!(rt; shown.as_str(), wanted, "{line}");
    Ok(())
}

/// Ends the test at a fault.
pub fn settled(rt: &impl Abort, judged: Result<(), Fault>) -> Result<(), NoMemory> {
    match judged {
        Ok(()) => Ok(()),
        Err(Fault::NoMemory) => Err(AllocError),
        Err(fault) => panic!(rt; "{fault:?}"),
    }
}
