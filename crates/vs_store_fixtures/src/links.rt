//! Whether links are those of a good graph, by what VLINKS tells of them.
use crate::fault::{Fault, ensure};
use crate::hits::find;
use crate::plain::Member;
use vs_command::NamedHit;
use vs_outside::List;

/// A member and its links. The first layer is that of its level.
#[derive(Drop)]
pub struct Linked {
    pub member: Member,
    pub layers: List<List<NamedHit>>,
}

impl Linked {
    /// The links at a layer; none above the level.
    fn at(&self, layer: u8) -> &[NamedHit] {
        if layer > self.member.level {
            return &[];
        }
        match self.layers.get((self.member.level - layer) as usize) {
            Some(hits) => hits.as_slice(),
            None => &[],
        }
    }

    fn has(&self, layer: u8, name: u8) -> bool {
        for hit in self.at(layer) {
            if hit.name.as_slice() == [name].as_slice() {
                return true;
            }
        }
        false
    }
}

/// Whether another stands at a layer.
fn has_company(members: &[Member], name: u8, layer: u8) -> bool {
    for one in members {
        if one.name != name && layer <= one.level {
            return true;
        }
    }
    false
}

/// The only letter of a name.
pub fn letter_of(name: &[u8]) -> Result<u8, Fault> {
    match name {
        [letter] => Ok(*letter),
        _ => Err(Fault::LongName),
    }
}

/// A place by distance, then name.
pub fn rank_of(dist: u32, name: u8) -> u64 {
    (u64::from(dist) << 8) | u64::from(name)
}

/// Judges a link of a layer; its rank.
fn check_link(
    members: &[Member],
    member: &Member,
    layer: u8,
    hit: &NamedHit,
) -> Result<u64, Fault> {
    let name = letter_of(hit.name.as_slice())?;
    let other = find(members, name).ok_or(Fault::NoMember)?;
    ensure(name != member.name, Fault::LinkToItself)?;
    ensure(layer <= other.level, Fault::LinkAboveLevel)?;
    let same = hit.dist == member.distance(other.vector);
    ensure(same, Fault::WrongDistance)?;
    Ok(rank_of(hit.dist, name))
}

/// Each link is to another member that is at the layer, tells the true distance, and comes after the one before it.
fn check_links_at(members: &[Member], one: &Linked, layer: u8) -> Result<(), Fault> {
    let mut before = None;
    for hit in one.at(layer) {
        let rank = Some(check_link(members, &one.member, layer, hit)?);
        ensure(before < rank, Fault::OutOfOrder)?;
        before = rank;
    }
    Ok(())
}

fn check_layer(members: &[Member], one: &Linked, layer: u8) -> Result<(), Fault> {
    let m = one.member.m as usize;
    let most = if layer == 0 { 2 * m } else { m };
    let count = one.at(layer).len();
    ensure(count <= most, Fault::TooManyLinks)?;
    let some = count > 0 || !has_company(members, one.member.name, layer);
    ensure(some, Fault::Alone)?;
    check_links_at(members, one, layer)
}

/// The links of one member, among the members of its set: at most 2M and M to members that are at the layer, and one at least where another
/// is there.
pub fn check_own_links(members: &[Member], one: &Linked) -> Result<(), Fault> {
    let whole = one.layers.len() == one.member.level as usize + 1;
    ensure(whole, Fault::WrongLayers)?;
    for layer in 0..=one.member.level {
        check_layer(members, one, layer)?;
    }
    Ok(())
}

fn find_linked(graph: &[Linked], name: u8) -> Result<&Linked, Fault> {
    for one in graph {
        if one.member.name == name {
            return Ok(one);
        }
    }
    Err(Fault::NoMember)
}

/// Each link is there from its other end.
fn check_other_ends(graph: &[Linked], one: &Linked, layer: u8) -> Result<(), Fault> {
    for hit in one.at(layer) {
        let other = find_linked(graph, letter_of(hit.name.as_slice())?)?;
        ensure(other.has(layer, one.member.name), Fault::OneWay)?;
    }
    Ok(())
}

fn check_both_ends(graph: &[Linked], one: &Linked) -> Result<(), Fault> {
    for layer in 0..=one.member.level {
        check_other_ends(graph, one, layer)?;
    }
    Ok(())
}

/// The links of all members of a set are those of a good graph.
pub fn check_links(members: &[Member], graph: &[Linked]) -> Result<(), Fault> {
    for one in graph {
        check_own_links(members, one)?;
        check_both_ends(graph, one)?;
    }
    Ok(())
}
