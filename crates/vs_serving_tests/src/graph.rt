//! Whether the graph of a set is good, by what VINFO, VEMB and VLINKS tell a pass of it.
use crate::calls::answered;
use std::alloc::Global;
use std::process::Abort;
use std::sync::Wait;
use std::test::*;
use std::thread::Threads;
use vs_command::{Answer, Info, NamedHit};
use vs_history::TableName;
use vs_outside::{List, Text};
use vs_pass::Pass;
use vs_shared::Shared;
use vs_store_fixtures::{Linked, Member, check_links};

// A word whose lowest bit is the first component.
fn vector_of(signs: &[bool]) -> u32 {
    signs.iter().rev().fold(
        0,
        |vector: u32, is_plus| vector.wrapping_shl(1) | u32::from(*is_plus),
    )
}

// The member of this name with its links, as the pass is told.
fn linked<N: TableName, R: Threads + Wait + Abort + Sync>(
    rt: &R,
    alloc: Global,
    shared: &Shared<N>,
    pass: &mut Pass<N>,
    info: Info,
    key: u8,
    name: u8,
) -> Result<Linked, Fail> {
    let (set, member) = (key as char, name as char);
    let line = format!(in alloc; "VEMB {set} {member}")?;
    let Ok(Answer::Signs(signs)) = answered(rt, alloc, shared, pass, line.as_str())? else {
        return Err("a vector".into());
    };
    let line = format!(in alloc; "VLINKS {set} {member} WITHSCORES")?;
    let Ok(Answer::Layers { layers, .. }) = answered(rt, alloc, shared, pass, line.as_str())? else {
        return Err("links".into());
    };
    let level = u8::try_from(layers.len().saturating_sub(1)).map_err(|_| "a level")?;
    Ok(Linked {
        member: Member {
            key,
            name,
            dim: info.dim,
            m: info.m,
            vector: vector_of(signs.as_slice()),
            level,
            number: 0,
        },
        layers,
    })
}

// The names of a set's members, none where there is no set.
fn names_of<N: TableName, R: Threads + Wait + Abort + Sync>(
    rt: &R,
    alloc: Global,
    shared: &Shared<N>,
    pass: &mut Pass<N>,
    key: u8,
) -> Result<List<Text>, Fail> {
    let line = format!(in alloc; "VRANDMEMBER {} 65535", key as char)?;
    match answered(rt, alloc, shared, pass, line.as_str())? {
        Ok(Answer::Names(names)) => Ok(names),
        _ => Ok(List::new(alloc)),
    }
}

/// The links of a set are those of a good graph, and VINFO tells its size and its greatest level.
pub fn check_graph<N: TableName, R: Threads + Wait + Abort + Sync>(
    rt: &R,
    alloc: Global,
    shared: &Shared<N>,
    pass: &mut Pass<N>,
    key: u8,
) -> Result<(), Fail> {
    let line = format!(in alloc; "VINFO {}", key as char)?;
    let Ok(Answer::Info(info)) = answered(rt, alloc, shared, pass, line.as_str())? else {
        return Ok(());
    };
    let mut members = List::new(alloc);
    let mut graph = List::new(alloc);
    let mut greatest: u8 = 0;
    for name in names_of(rt, alloc, shared, pass, key)?.as_slice() {
        let letter = *name.as_slice().first().ok_or("a letter")?;
        let one = linked(rt, alloc, shared, pass, info, key, letter)?;
        greatest = greatest.max(one.member.level);
        members.push(one.member)?;
        graph.push(one)?;
    }
    assert_eq!(rt; members.len(), info.size as usize);
    assert_eq!(rt; greatest, info.max_level);
    let checked = check_links(members.as_slice(), graph.as_slice());
    assert!(rt; checked.is_ok(), "{checked:?}");
    Ok(())
}
