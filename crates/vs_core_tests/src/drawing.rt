//! Events drawn at random, by what the second reading has: mostly such as fit what their actor is at.
use crate::acts::{Act, Addition, Ask, Happening, Search, What};
use crate::reading::{Reading, Stage};
use vs_outside::NoMemory;
use vs_store_fixtures::{KEYS, Random};

/// How many names there are; the first is `A`.
const NAMES: u32 = 12;

/// How many are picked at random, at most four.
const COUNTS: [i8; 9] = [-4, -3, -2, -1, 0, 1, 2, 3, 4];

/// One key mostly, and at times one of two others.
fn key(random: &mut Random) -> u8 {
    match random.below(8) {
        0 => KEYS[1],
        1 => KEYS[2],
        _ => KEYS[0],
    }
}

fn name(random: &mut Random) -> u8 {
    b'A' + random.below(NAMES) as u8
}

/// The name of a member of a set where there is one, but now and then any.
fn name_in(random: &mut Random, reading: &Reading, key: u8) -> Result<u8, NoMemory> {
    let members = reading.plain.members_of(key)?;
    let any = name(random);
    let place = random.word() as usize % members.len().max(1);
    match members.get(place) {
        Some(member) if !random.is_one_in(6) => Ok(member.name),
        _ => Ok(any),
    }
}

/// The dimension of a set, and now and then a wrong one.
fn dimension(random: &mut Random, reading: &Reading, key: u8) -> u32 {
    match reading.plain.first_of(key) {
        Some(first) if !random.is_one_in(24) => first.dim,
        _ => 2 + random.below(3),
    }
}

/// So many components, the lowest bit first.
fn vector(random: &mut Random, dim: u32) -> u32 {
    random.word() & 1_u32.checked_shl(dim).unwrap_or(0).wrapping_sub(1)
}

/// An addition of any name.
fn addition(random: &mut Random, reading: &Reading, cas: bool) -> Addition {
    let key = key(random);
    let dim = dimension(random, reading, key);
    Addition {
        key,
        name: name(random),
        dim,
        vector: vector(random, dim),
        cas,
        m: match random.below(12) {
            0 => Some(4),
            1 => Some(16),
            _ => None,
        },
        number: match random.below(3) {
            0 => None,
            _ => Some(1 + random.below(9) as u8),
        },
        word: random.word(),
    }
}

fn what(random: &mut Random, reading: &Reading, key: u8) -> Result<What, NoMemory> {
    if random.is_one_in(2) {
        return Ok(What::Member(name_in(random, reading, key)?));
    }
    let dim = dimension(random, reading, key);
    Ok(What::Vector {
        dim,
        vector: vector(random, dim),
    })
}

fn search(random: &mut Random, reading: &Reading) -> Result<Search, NoMemory> {
    let key = key(random);
    let least = if random.is_one_in(2) {
        0
    } else {
        1 + random.below(9) as u8
    };
    let effort = if random.is_one_in(4) {
        Some(random.below(6))
    } else {
        None
    };
    Ok(Search {
        key,
        what: what(random, reading, key)?,
        count: 1 + random.below(6),
        least,
        effort,
        attrs: random.is_one_in(2),
        truth: random.is_one_in(2),
    })
}

/// A request that may change something.
fn change(random: &mut Random, reading: &Reading) -> Result<Ask, NoMemory> {
    let key = key(random);
    let cas = random.is_one_in(2);
    Ok(match random.below(10) {
        0..5 => Ask::Add(addition(random, reading, cas)),
        5..8 => Ask::Remove {
            key,
            name: name_in(random, reading, key)?,
        },
        8 => Ask::Delete {
            key,
            other: KEYS[2],
        },
        _ => Ask::SetAttribute {
            key,
            name: name_in(random, reading, key)?,
            number: 1 + random.below(9) as u8,
        },
    })
}

fn pick(random: &mut Random, key: u8) -> Ask {
    let words = [random.word(), random.word(), random.word(), random.word()];
    let count = if random.is_one_in(8) {
        None
    } else {
        Some(COUNTS[random.below(9) as usize])
    };
    Ask::Pick { key, count, words }
}

/// A request that changes nothing.
fn question(random: &mut Random, reading: &Reading) -> Result<Ask, NoMemory> {
    let key = key(random);
    let name = name_in(random, reading, key)?;
    let other = KEYS[2];
    Ok(match random.below(14) {
        0 => Ask::Exists { key, other },
        1 => Ask::Count { key },
        2 => Ask::Dimension { key },
        3 => Ask::Info { key },
        4 => Ask::Vector { key, name },
        5 => Ask::Attribute { key, name },
        6 => Ask::IsMember { key, name },
        7..9 => Ask::Links { key, name },
        9..11 => pick(random, key),
        _ => Ask::Search(search(random, reading)?),
    })
}

/// What an actor begins that is idle.
fn beginning(random: &mut Random, reading: &Reading) -> Result<Act, NoMemory> {
    Ok(match random.below(20) {
        0..6 => Act::Do(change(random, reading)?),
        6..9 => Act::Do(question(random, reading)?),
        9..13 => Act::Look(search(random, reading)?),
        _ => Act::Draft(addition(random, reading, true)),
    })
}

fn next_act(random: &mut Random, reading: &Reading, stage: Stage) -> Result<Act, NoMemory> {
    match stage {
        Stage::Idle => beginning(random, reading),
        Stage::Looking => Ok(Act::Finish),
        Stage::Drafting => Ok(Act::Prepare),
        Stage::Ready => Ok(Act::Commit),
    }
}

/// Any act, whatever its actor is at.
fn any_act(random: &mut Random, reading: &Reading) -> Result<Act, NoMemory> {
    match random.below(5) {
        0 => Ok(Act::Finish),
        1 => Ok(Act::Prepare),
        2 => Ok(Act::Commit),
        _ => beginning(random, reading),
    }
}

/// An event of one of four actors, or now and then of nobody.
pub fn draw(random: &mut Random, reading: &Reading) -> Result<Happening, NoMemory> {
    let actor = match random.below(40) {
        0 => 0,
        1 => 6,
        _ => 1 + random.below(4),
    };
    let act = match reading.stage(actor) {
        Some(stage) if !random.is_one_in(9) => next_act(random, reading, stage)?,
        _ => any_act(random, reading)?,
    };
    Ok(Happening { actor, act })
}

/// An addition at once.
pub fn draw_addition(random: &mut Random, reading: &Reading, actor: u32) -> Happening {
    Happening {
        actor,
        act: Act::Do(Ask::Add(addition(random, reading, false))),
    }
}
