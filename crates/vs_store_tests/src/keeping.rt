//! Whether a store keeps what the plain list has.
use crate::asking::{Asked, check, outcome_of};
use std::alloc::Global;
use std::process::Abort;
use vs_command::Answer;
use vs_outside::NoMemory;
use vs_store_fixtures::{
    KEYS, Member, Plain, attribute_of, count_attributes, count_of, greatest_level, signs_of,
    words_for,
};

/// The names are in their places.
fn check_places(
    rt: &impl Abort,
    asked: &mut Asked,
    key: u8,
    members: &[Member],
) -> Result<(), NoMemory> {
    let alloc = asked.alloc;
    let mut wanted = String::new(alloc);
    for member in members {
        wanted.push_str(format!(in alloc; " {}", member.name as char)?.as_str())?;
    }
    let words = words_for(alloc, count_of(members))?;
    let line = format!(in alloc; "VRANDMEMBER {} -{}", key as char, members.len())?;
    check(rt, asked, line.as_str(), words.as_slice(), wanted.as_str())
}

fn check_level(rt: &impl Abort, asked: &mut Asked, member: &Member) -> Result<(), NoMemory> {
    let line = format!(in asked.alloc; "VLINKS {} {}", member.key as char, member.name as char)?;
    match outcome_of(rt, asked, line.as_str(), &[])? {
        Ok(Answer::Layers { layers, .. }) => {
            assert_eq!(rt; layers.len(), member.level as usize + 1, "{line}");
            Ok(())
        }
        _ => panic!(rt; "no layers: {line}"),
    }
}

/// A member has its vector, attribute and level.
fn check_member(rt: &impl Abort, asked: &mut Asked, member: &Member) -> Result<(), NoMemory> {
    let alloc = asked.alloc;
    let (key, name) = (member.key as char, member.name as char);
    let line = format!(in alloc; "VEMB {key} {name}")?;
    let signs = signs_of(alloc, member)?;
    check(rt, asked, line.as_str(), &[], signs.as_str())?;
    let line = format!(in alloc; "VGETATTR {key} {name}")?;
    let attribute = if member.number == 0 {
        format!(in alloc; "null")?
    } else {
        attribute_of(alloc, member.number)?
    };
    check(rt, asked, line.as_str(), &[], attribute.as_str())?;
    let line = format!(in alloc; "VISMEMBER {key} {name}")?;
    check(rt, asked, line.as_str(), &[], "1")?;
    check_level(rt, asked, member)
}

fn check_members(rt: &impl Abort, asked: &mut Asked, members: &[Member]) -> Result<(), NoMemory> {
    for member in members {
        check_member(rt, asked, member)?;
    }
    Ok(())
}

/// What VINFO tells of a set of these members.
fn info_of(alloc: Global, members: &[Member]) -> Result<String, NoMemory> {
    match members.first() {
        None => Ok(format!(in alloc; "null")?),
        Some(first) => {
            let level = greatest_level(members);
            let attributes = count_attributes(members);
            Ok(format!(in alloc;
                "m {} dim {} size {} max-level {level} attributes {attributes}",
                first.m,
                first.dim,
                members.len()
            )?)
        }
    }
}

/// A set is as the plain list has it.
pub fn check_set(
    rt: &impl Abort,
    asked: &mut Asked,
    plain: &Plain,
    key: u8,
) -> Result<(), NoMemory> {
    let alloc = asked.alloc;
    let members = plain.members_of(key)?;
    let letter = key as char;
    let line = format!(in alloc; "VCARD {letter}")?;
    let count = format!(in alloc; "{}", members.len())?;
    check(rt, asked, line.as_str(), &[], count.as_str())?;
    let line = format!(in alloc; "EXISTS {letter}")?;
    let exists = if members.len() == 0 { "0" } else { "1" };
    check(rt, asked, line.as_str(), &[], exists)?;
    let line = format!(in alloc; "VINFO {letter}")?;
    let info = info_of(alloc, members.as_slice())?;
    check(rt, asked, line.as_str(), &[], info.as_str())?;
    if members.len() > 0 {
        check_places(rt, asked, key, members.as_slice())?;
    }
    check_members(rt, asked, members.as_slice())
}

/// Each set is as the plain list has it.
pub fn check_sets(rt: &impl Abort, asked: &mut Asked, plain: &Plain) -> Result<(), NoMemory> {
    for key in KEYS {
        check_set(rt, asked, plain, key)?;
    }
    Ok(())
}
