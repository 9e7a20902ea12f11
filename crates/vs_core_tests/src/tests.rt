//! Five hundred lists of events of four actors. Behind each list a fifth actor asks for all members and their links.
ghost use Rattle.vs_store.specs.Kept.{AreUsual};
ghost use Rattle.vs_store.specs.Seen.{limits_seen};

use crate::acts::{Act, Ask, Happening};
use crate::drawing::{draw, draw_addition};
use crate::judging::{Script, play, settled};
use crate::reading::Reading;
use std::alloc::Global;
use std::process::Abort;
use std::test::Fail;
use vs_core::Core;
use vs_outside::{List, NoMemory};
use vs_store::Limits;
use vs_store_fixtures::{KEYS, Random, check_links};

/// How many lists there are.
const LISTS: u32 = 500;

/// How many additions begin a list.
const ADDITIONS: u32 = 4;

/// The number of the actor that asks behind a list.
const LAST_ACTOR: u32 = 5;

/// The limits of a list: small ones in each second.
fn limits_of(number: u32) -> Limits
    ensures { AreUsual (limits_seen result) }
{
    if number % 2 == 1 {
        return Limits {
            set: 4,
            keys: 2,
            all: 5,
            changes: 8,
        };
    }
    Limits::usual()
}

/// Draws the events of a list, and reads what is to come of each.
fn drawn(alloc: Global, random: &mut Random, reading: &mut Reading) -> Result<Script, NoMemory> {
    let mut happenings = List::new(alloc);
    let mut wanted = List::new(alloc);
    let count = ADDITIONS + 12 + random.below(9);
    for number in 0..count {
        let happening = if number < ADDITIONS {
            draw_addition(random, reading, 1 + number % 4)
        } else {
            draw(random, reading)?
        };
        wanted.push(reading.happens(happening)?)?;
        happenings.push(happening)?;
    }
    Ok(Script { happenings, wanted })
}

/// Reads what is to come of requests of the last actor.
fn asked(alloc: Global, reading: &mut Reading, asks: &[Ask]) -> Result<Script, NoMemory> {
    let mut happenings = List::new(alloc);
    let mut wanted = List::new(alloc);
    for ask in asks {
        let happening = Happening {
            actor: LAST_ACTOR,
            act: Act::Do(*ask),
        };
        wanted.push(reading.happens(happening)?)?;
        happenings.push(happening)?;
    }
    Ok(Script { happenings, wanted })
}

/// Requests for all that a set has.
fn asks_of(alloc: Global, reading: &Reading, key: u8) -> Result<List<Ask>, NoMemory> {
    let mut asks = List::from_slice(alloc, &[Ask::Count { key }, Ask::Info { key }])?;
    for member in reading.plain.members_of(key)?.as_slice() {
        let name = member.name;
        asks.push(Ask::Vector { key, name })?;
        asks.push(Ask::Attribute { key, name })?;
        asks.push(Ask::Links { key, name })?;
    }
    Ok(asks)
}

/// A set has the members of the plain list, and a good graph.
fn check_set(
    rt: &impl Abort,
    alloc: Global,
    core: &mut Core,
    reading: &mut Reading,
    key: u8,
) -> Result<(), NoMemory> {
    let asks = asks_of(alloc, reading, key)?;
    let script = asked(alloc, reading, asks.as_slice())?;
    let graph = play(rt, alloc, core, &script)?;
    let members = reading.plain.members_of(key)?;
    assert_eq!(rt; graph.len(), members.len());
    settled(rt, check_links(members.as_slice(), graph.as_slice()))
}

/// One list of events, and then all sets.
fn check_list(
    rt: &impl Abort,
    alloc: Global,
    random: &mut Random,
    number: u32,
) -> Result<(), NoMemory> {
    let limits = limits_of(number);
    let mut core = Core::new(alloc, LAST_ACTOR, limits)?;
    let mut reading = Reading::new(alloc, LAST_ACTOR, limits)?;
    let script = drawn(alloc, random, &mut reading)?;
    play(rt, alloc, &mut core, &script)?;
    for key in KEYS {
        check_set(rt, alloc, &mut core, &mut reading, key)?;
    }
    Ok(())
}

#[test]
fn lists_of_events_are_read_alike(rt: HostRuntime) -> Result<(), Fail> {
    let mut random = Random::new();
    for number in 0..LISTS {
        check_list(&rt, rt.alloc(), &mut random, number)?;
    }
    Ok(())
}
