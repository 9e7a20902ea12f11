//! Searches with TRUTH of more members than one thread scans: what threads and one thread find is what a plain sort puts first.
ghost use Rattle.std.specs.Prelude.{◌≡◌};

use crate::serving::written;
use crate::sorted::{FIRST, MEMBERS, Search, push_vector, vector_of};
use std::alloc::Global;
use std::marker::Brand;
use std::process::Abort;
use std::sync::Wait;
use std::test::*;
use std::thread::Threads;
use vs_history::TableName;
use vs_outside::{NoGate, NoMemory, Text};
use vs_pass::Pass;
use vs_shared::{Opened, Shared};
use vs_store::Limits;

const VECTORS: [u32; 2] = [77, 4_095];

/// Counts, each without a filter and with one.
const CASES: [(u32, bool); 6] = [
    (1, false),
    (1, true),
    (10, false),
    (10, true),
    (65_536, false),
    (65_536, true),
];

// The additions of all members, to a graph that is as small as it may be.
fn additions(alloc: Global) -> Result<Text, NoMemory> {
    let mut text = Text::new(alloc);
    for place in 0..MEMBERS {
        let number = FIRST.wrapping_add(place);
        text.extend_from_slice(b"VADD k")?;
        push_vector(alloc, &mut text, vector_of(number))?;
        let attr = if number % 3 == 0 {
            " SETATTR {\"n\":1}"
        } else {
            ""
        };
        let rest = format!(in alloc; " m{number} M 4 EF 1{attr}\r\n")?;
        text.extend_from_slice(rest.as_str().as_bytes())?;
    }
    Ok(text)
}

// Each case's searches for one vector, with these words behind each, and what a plain sort says of them.
fn searches(alloc: Global, vector: u32, words: &str) -> Result<(Text, Text), NoMemory> {
    let mut lines = Text::new(alloc);
    let mut replies = Text::new(alloc);
    for (count, is_filtered) in CASES {
        let search = Search {
            vector,
            count,
            is_filtered,
        };
        search.push_line(alloc, &mut lines, words)?;
        search.push_reply(alloc, &mut replies)?;
    }
    Ok((lines, replies))
}

#[test]
fn threads_find_what_one_finds(rt: HostRuntime) -> Result<(), Fail> {
    let opened = Opened::new(rt.alloc(), Limits::usual())?;
    found_by_both::<Brand, _>(&rt, rt.alloc(), opened)
}

fn found_by_both<N: TableName, R: Threads + Wait + Abort + Sync>(
    rt: &R,
    alloc: Global,
    opened: Opened,
) -> Result<(), Fail>
    requires { opened ≡ record { table = N.table; limits = N.limits } }
{
    let (shared, mut passes) = opened.named::<N>(alloc, 1, 1, 1)?;
    let mut pass = passes.pop().ok_or("a pass")?;
    let added = written(rt, alloc, &shared, &mut pass, additions(alloc)?, &NoGate)?;
    assert_eq!(rt; added.len(), 4 * MEMBERS as usize);
    for vector in VECTORS {
        let by_one = answers(rt, alloc, &shared, &mut pass, vector, " NOTHREAD")?;
        let by_threads = answers(rt, alloc, &shared, &mut pass, vector, "")?;
        assert!(rt; by_one, "one thread, {vector}");
        assert!(rt; by_threads, "threads, {vector}");
    }
    let by_one = scored(rt, alloc, &shared, &mut pass, " NOTHREAD")?;
    let by_threads = scored(rt, alloc, &shared, &mut pass, "")?;
    assert!(rt; by_one.as_slice().starts_with(b"*20\r\n"));
    assert!(rt; by_one.as_slice() == by_threads.as_slice());
    Ok(())
}

// Whether all searches for a vector are answered as a plain sort says.
fn answers<N: TableName, R: Threads + Wait + Abort + Sync>(
    rt: &R,
    alloc: Global,
    shared: &Shared<N>,
    pass: &mut Pass<N>,
    vector: u32,
    words: &str,
) -> Result<bool, NoMemory> {
    let (lines, replies) = searches(alloc, vector, words)?;
    let output = written(rt, alloc, shared, pass, lines, &NoGate)?;
    Ok(output.as_slice() == replies.as_slice())
}

// The first ten, with scores.
fn scored<N: TableName, R: Threads + Wait + Abort + Sync>(
    rt: &R,
    alloc: Global,
    shared: &Shared<N>,
    pass: &mut Pass<N>,
    words: &str,
) -> Result<Text, NoMemory> {
    let mut line = Text::new(alloc);
    let search = Search {
        vector: 77,
        count: 10,
        is_filtered: false,
    };
    let with_scores = format!(in alloc; " WITHSCORES{words}")?;
    search.push_line(alloc, &mut line, with_scores.as_str())?;
    written(rt, alloc, shared, pass, line, &NoGate)
}
