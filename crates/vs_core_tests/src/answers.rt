//! What requests that change nothing are answered by the plain list.
use crate::acts::{Ask, Search, What, drawn};
use std::alloc::Global;
use vs_command::{Refusal, place_of_word};
use vs_outside::{List, NoMemory};
use vs_store_fixtures::{
    Member, Plain, Sought, attribute_of, count_attributes, count_of, greatest_level, picked,
    picked_again, signs_of,
};

/// What is to come of an event: an outcome as it is shown; the hits of a search in a set; the links of a member in its set.
#[derive(Drop)]
pub enum Wanted {
    Shown(String),
    Hits {
        sought: Sought,
        truth: bool,
        members: List<Member>,
    },
    Links {
        member: Member,
        members: List<Member>,
    },
}

/// What an outcome is shown as.
pub fn shown(alloc: Global, text: &str) -> Result<Wanted, NoMemory> {
    Ok(Wanted::Shown(format!(in alloc; "{text}")?))
}

fn number(alloc: Global, number: u32) -> Result<Wanted, NoMemory> {
    Ok(Wanted::Shown(format!(in alloc; "{number}")?))
}

/// A refusal as it is shown.
pub fn refused(alloc: Global, refusal: Refusal) -> Result<Wanted, NoMemory> {
    Ok(Wanted::Shown(format!(in alloc; "{refusal:?}")?))
}

/// Why a search is refused in a set.
pub fn search_refusal(plain: &Plain, search: Search) -> Option<Refusal> {
    let first = plain.first_of(search.key)?;
    match search.what {
        What::Member(name) if plain.has(search.key, name) => None,
        What::Member(_) => Some(Refusal::NoSuchElement),
        What::Vector { dim, .. } if dim == first.dim => None,
        What::Vector { dim, .. } => Some(Refusal::WrongDimension {
            given: dim,
            has: first.dim,
        }),
    }
}

/// The vector that is looked for among these members.
fn vector_sought(members: &[Member], what: What) -> u32 {
    match what {
        What::Member(name) => {
            for member in members {
                if member.name == name {
                    return member.vector;
                }
            }
            0
        }
        What::Vector { vector, .. } => vector,
    }
}

/// A search that isn't refused, in the set of these members.
pub fn found(search: Search, members: List<Member>) -> Wanted {
    Wanted::Hits {
        sought: Sought {
            vector: vector_sought(members.as_slice(), search.what),
            least: search.least,
            count: search.count,
            attrs: search.attrs,
        },
        truth: search.truth,
        members,
    }
}

fn info(alloc: Global, members: &[Member]) -> Result<Wanted, NoMemory> {
    match members.first() {
        None => shown(alloc, "null"),
        Some(first) => {
            let level = greatest_level(members);
            let attributes = count_attributes(members);
            let (m, dim, size) = (first.m, first.dim, members.len());
            Ok(Wanted::Shown(format!(in alloc;
                "m {m} dim {dim} size {size} max-level {level} attributes {attributes}"
            )?))
        }
    }
}

fn links(alloc: Global, plain: &Plain, key: u8, name: u8) -> Result<Wanted, NoMemory> {
    match plain.find(key, name) {
        None => shown(alloc, "null"),
        Some(member) => Ok(Wanted::Links {
            member,
            members: plain.members_of(key)?,
        }),
    }
}

fn vector(alloc: Global, member: Option<Member>) -> Result<Wanted, NoMemory> {
    match member {
        None => shown(alloc, "null"),
        Some(member) => Ok(Wanted::Shown(signs_of(alloc, &member)?)),
    }
}

fn attribute(alloc: Global, member: Option<Member>) -> Result<Wanted, NoMemory> {
    match member {
        Some(member) if member.number > 0 => {
            Ok(Wanted::Shown(attribute_of(alloc, member.number)?))
        }
        _ => shown(alloc, "null"),
    }
}

fn pick_one(alloc: Global, members: &[Member], word: u32) -> Result<Wanted, NoMemory> {
    let place = place_of_word(word, count_of(members)) as usize;
    match members.get(place) {
        Some(member) => Ok(Wanted::Shown(format!(in alloc; "{}", member.name as char)?)),
        None => shown(alloc, "null"),
    }
}

/// One pick without a count; with one as many picks, and with one below 0 each among all.
fn pick(
    alloc: Global,
    members: &[Member],
    count: Option<i8>,
    words: &[u32],
) -> Result<Wanted, NoMemory> {
    match count {
        None => pick_one(alloc, members, words.first().copied().unwrap_or(0)),
        Some(count) if count < 0 => Ok(Wanted::Shown(picked_again(alloc, members, words)?)),
        Some(_) => Ok(Wanted::Shown(picked(alloc, members, words)?)),
    }
}

/// What a request is answered that changes nothing, and is no search.
pub fn answer(alloc: Global, plain: &Plain, ask: Ask) -> Result<Wanted, NoMemory> {
    match ask {
        Ask::Exists { key, other } => number(alloc, plain.count_keys(&[key, other, key])),
        Ask::Count { key } => number(alloc, plain.count(key)),
        Ask::Dimension { key } => match plain.first_of(key) {
            Some(first) => number(alloc, first.dim),
            None => refused(alloc, Refusal::NoSuchKey),
        },
        Ask::Info { key } => info(alloc, plain.members_of(key)?.as_slice()),
        Ask::Vector { key, name } => vector(alloc, plain.find(key, name)),
        Ask::Attribute { key, name } => attribute(alloc, plain.find(key, name)),
        Ask::IsMember { key, name } => number(alloc, u32::from(plain.has(key, name))),
        Ask::Links { key, name } => links(alloc, plain, key, name),
        Ask::Pick { key, count, .. } => {
            let (words, used) = drawn(ask);
            let members = plain.members_of(key)?;
            pick(alloc, members.as_slice(), count, &words[..used.min(4)])
        }
        _ => number(alloc, 0),
    }
}
