//! What a search answers, beside the plain list.
use crate::fault::{Fault, ensure};
use crate::links::{letter_of, rank_of};
use crate::plain::Member;
use crate::texts::attribute_of;
use std::alloc::Global;
use vs_command::NamedHit;
use vs_outside::{NoMemory, Text};

/// A search in a set: its vector, the least number of an attribute that passes (0 passes all), and how many hits are wanted.
#[derive(Clone, Copy, Debug)]
pub struct Sought {
    pub vector: u32,
    pub least: u8,
    pub count: u32,
    pub attrs: bool,
}

/// The member of a name.
pub(crate) fn find(members: &[Member], name: u8) -> Option<Member> {
    for member in members {
        if member.name == name {
            return Some(*member);
        }
    }
    None
}

/// The ranks of all that pass, in order.
fn sorted(alloc: Global, members: &[Member], sought: Sought) -> Result<Vec<u64>, NoMemory> {
    let mut ranks = Vec::new(alloc);
    for member in members {
        if member.passes(sought.least) {
            ranks.push(rank_of(member.distance(sought.vector), member.name))?;
        }
    }
    ranks.sort_unstable();
    Ok(ranks)
}

/// A hit as it is shown.
fn hit_text(alloc: Global, members: &[Member], rank: u64, attrs: bool) -> Result<String, NoMemory> {
    let name = (rank & 255) as u8;
    let (letter, dist) = (name as char, rank >> 8);
    let number = find(members, name).map_or(0, |member| member.number);
    if attrs && number != 0 {
        let text = attribute_of(alloc, number)?;
        return Ok(format!(in alloc; " {letter} {dist} {text}")?);
    }
    Ok(format!(in alloc; " {letter} {dist}")?)
}

/// The hits of a plain sort, as they are shown.
pub fn nearest_text(alloc: Global, members: &[Member], sought: Sought) -> Result<String, NoMemory> {
    let mut shown = String::new(alloc);
    let ranks = sorted(alloc, members, sought)?;
    for rank in ranks.iter().take(sought.count as usize) {
        shown.push_str(hit_text(alloc, members, *rank, sought.attrs)?.as_str())?;
    }
    Ok(shown)
}

/// Judges the attribute that a hit shows.
fn check_attribute(
    alloc: Global,
    member: &Member,
    attrs: bool,
    shown: &Option<Text>,
) -> Result<(), Fault> {
    let Some(text) = shown else {
        return ensure(!attrs || member.number == 0, Fault::WrongAttribute);
    };
    let wanted = attribute_of(alloc, member.number)?;
    let same = text.as_slice() == wanted.as_bytes();
    ensure(attrs && same, Fault::WrongAttribute)
}

/// Judges a hit; its rank.
fn check_hit(
    alloc: Global,
    members: &[Member],
    sought: Sought,
    hit: &NamedHit,
) -> Result<u64, Fault> {
    let name = letter_of(hit.name.as_slice())?;
    let member = find(members, name).ok_or(Fault::NoMember)?;
    ensure(member.passes(sought.least), Fault::NotPassing)?;
    let same = hit.dist == member.distance(sought.vector);
    ensure(same, Fault::WrongDistance)?;
    check_attribute(alloc, &member, sought.attrs, &hit.attr)?;
    Ok(rank_of(hit.dist, name))
}

/// Judges the hits of a search by links: different members that pass, with their distances, in order, at most COUNT, and without a filter
/// one at least where there is a member.
pub fn check_hits(
    alloc: Global,
    members: &[Member],
    sought: Sought,
    hits: &[NamedHit],
) -> Result<(), Fault> {
    ensure(hits.len() <= sought.count as usize, Fault::TooManyHits)?;
    let some = !hits.is_empty() || sought.least > 0 || members.is_empty();
    ensure(some, Fault::NoHit)?;
    let mut before = None;
    for hit in hits {
        let rank = Some(check_hit(alloc, members, sought, hit)?);
        ensure(before < rank, Fault::OutOfOrder)?;
        before = rank;
    }
    Ok(())
}
