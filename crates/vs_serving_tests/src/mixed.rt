//! Eight passes at once, each with 500 requests that its random words choose: each accepted change is known once, and the graph of each set is
//! good afterwards.
ghost use Rattle.std.specs.Prelude.{◌≡◌};

use crate::calls::answered;
use crate::graph::check_graph;
use std::alloc::Global;
use std::marker::Brand;
use std::process::Abort;
use std::sync::Wait;
use std::test::*;
use std::thread;
use std::thread::Threads;
use vs_command::Answer;
use vs_history::TableName;
use vs_outside::NoMemory;
use vs_pass::Pass;
use vs_shared::{Opened, Shared};
use vs_store::Limits;

const PASSES: u32 = 8;

const REQUESTS: u32 = 500;

/// Additions of two sets with few links a member, at once and with CAS, removals, attributes, deletions and searches of each kind.
const LINES: [&str; 18] = [
    "VADD k VALUES 6 1 -1 1 1 -1 1 a M 4",
    "VADD k VALUES 6 -1 1 1 -1 1 1 b CAS M 4",
    "VADD k VALUES 6 1 1 -1 -1 1 -1 c CAS M 4",
    "VADD k VALUES 6 -1 -1 1 1 -1 -1 d CAS M 4",
    "VADD k VALUES 6 1 -1 -1 1 1 1 e CAS SETATTR x M 4",
    "VADD k VALUES 6 1 1 1 1 1 1 f M 4",
    "VADD k VALUES 6 -1 1 -1 1 -1 1 g CAS M 4",
    "VADD l VALUES 4 1 1 1 1 a CAS",
    "VADD l VALUES 4 -1 1 1 1 b CAS",
    "VADD l VALUES 4 1 -1 1 -1 c",
    "VREM k a",
    "VREM k c",
    "VREM l b",
    "VSETATTR k b x",
    "VSIM k VALUES 6 1 1 1 1 -1 1",
    "VSIM l ELE a NOTHREAD",
    "VSIM k ELE b TRUTH",
    "DEL l",
];

/// A pass, and how many changes of its own were accepted.
#[derive(Drop)]
struct Author<N: TableName> {
    pass: Pass<N>,
    changes: u64,
}

// Whether the request that the pass's next word chooses was an accepted change.
fn is_changed<N: TableName, R: Threads + Wait + Abort + Sync>(
    rt: &R,
    alloc: Global,
    shared: &Shared<N>,
    pass: &mut Pass<N>,
) -> Result<bool, NoMemory> {
    let words = pass.draw(alloc, 1)?;
    assert!(rt; words.len() == 1);
    let line = LINES[words[0] as usize % LINES.len()];
    match answered(rt, alloc, shared, pass, line)? {
        Ok(Answer::Int(number)) => Ok(line.starts_with("VADD") || number > 0),
        _ => Ok(false),
    }
}

#[test]
fn eight_passes_change_two_sets(rt: HostRuntime) -> Result<(), Fail> {
    let opened = Opened::new(rt.alloc(), Limits::usual())?;
    changed_by_eight::<Brand, _>(&rt, rt.alloc(), opened)
}

fn changed_by_eight<N: TableName + Send + Sync, R: Threads + Wait + Abort + Sync>(
    rt: &R,
    alloc: Global,
    opened: Opened,
) -> Result<(), Fail>
    requires { opened ≡ record { table = N.table; limits = N.limits } }
{
    let (shared, passes) = opened.named::<N>(alloc, 1, 4, PASSES)?;
    let mut authors = Vec::new(alloc);
    for pass in passes {
        authors.push(Author { pass, changes: 0 })?;
    }
    work(rt, alloc, &shared, authors.as_mut_slice());
    let mut first = authors.pop().ok_or("eight passes")?;
    let mut changes = first.changes;
    for mut author in authors {
        shared.meet(&mut first.pass, &mut author.pass);
        changes = changes.saturating_add(author.changes);
    }
    assert_eq!(rt; first.pass.known(), changes);
    assert!(rt; changes > 100);
    for key in [b'k', b'l'] {
        check_graph(rt, alloc, &shared, &mut first.pass, key)?;
    }
    Ok(())
}

// All requests of all passes, each pass in a thread of its own.
fn work<N: TableName + Send + Sync, R: Threads + Wait + Abort + Sync>(
    rt: &R,
    alloc: Global,
    shared: &Shared<N>,
    authors: &mut [Author<N>],
) {
    thread::for_each_mut(
        rt,
        authors,
        PASSES as usize,
        &|_, author: &mut Author<N>| {
            for _ in 0..REQUESTS {
                let changed = is_changed(rt, alloc, shared, &mut author.pass);
                assert!(rt; changed.is_ok());
                author.changes = author
                    .changes
                    .saturating_add(u64::from(changed.unwrap_or(false)));
            }
        },
    );
}
