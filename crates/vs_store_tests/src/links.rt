//! Whether the graph of a set is good, by what VLINKS tells of it.
use crate::asking::{Asked, outcome_of, settled};
use std::process::Abort;
use vs_command::Answer;
use vs_outside::{List, NoMemory};
use vs_store_fixtures::{Linked, Member, Plain, check_links};

fn with_links(rt: &impl Abort, asked: &mut Asked, member: &Member) -> Result<Linked, NoMemory> {
    let line = format!(in asked.alloc;
        "VLINKS {} {} WITHSCORES",
        member.key as char, member.name as char
    )?;
    match outcome_of(rt, asked, line.as_str(), &[])? {
        Ok(Answer::Layers { layers, .. }) => Ok(Linked {
            member: *member,
            layers,
        }),
        _ => panic!(rt; "no layers: {line}"),
    }
}

/// The links of a set are those of a good graph.
pub fn check_graph(
    rt: &impl Abort,
    asked: &mut Asked,
    plain: &Plain,
    key: u8,
) -> Result<(), NoMemory> {
    let members = plain.members_of(key)?;
    let mut graph = List::new(asked.alloc);
    for member in members.as_slice() {
        graph.push(with_links(rt, asked, member)?)?;
    }
    settled(rt, check_links(members.as_slice(), graph.as_slice()))
}
