//! Which links are served and how the server ends, case by case; and two links that wait for each other.
use crate::links::{holding, listener, texts};
use std::alloc::Global;
use std::process::Abort;
use std::sync::Wait;
use std::test::*;
use std::thread::Threads;
use vs_outside::{Gate, MemListener, NoGate, Place};
use vs_program::{Status, run_server};
use vs_serving_tests::holding::Holding;

// Listeners of one kind, how many links are wanted of them, and what comes of it.
#[derive(Clone, Copy)]
struct Case {
    listeners: usize,
    inputs: &'static [&'static [u8]],
    wanted: &'static str,
    status: Status,
    replies: &'static [u8],
    // How many links hold the replies, and how many were closed.
    served: usize,
}

const PINGS: &[&[u8]] = &[b"PING\r\n", b"PING\r\n", b"PING\r\n"];

const ADDED_AND_COUNTED: &[&[u8]] = &[b"VADD s VALUES 1 1 a\r\n", b"VCARD s\r\n"];

// Three links of six; all three of one listener; a second link that sees what the first changed; one link too many wanted, so that the accept
// fails; three listeners of one link each, of which two each are wanted, so that each of them fails.
const CASES: [Case; 5] = [
    Case {
        listeners: 2,
        inputs: PINGS,
        wanted: "3",
        status: Status::Done,
        replies: b"+PONG\r\n",
        served: 3,
    },
    Case {
        listeners: 1,
        inputs: PINGS,
        wanted: "3",
        status: Status::Done,
        replies: b"+PONG\r\n",
        served: 3,
    },
    Case {
        listeners: 1,
        inputs: ADDED_AND_COUNTED,
        wanted: "2",
        status: Status::Done,
        replies: b":1\r\n",
        served: 2,
    },
    Case {
        listeners: 1,
        inputs: ADDED_AND_COUNTED,
        wanted: "3",
        status: Status::AcceptFault,
        replies: b":1\r\n",
        served: 2,
    },
    Case {
        listeners: 3,
        inputs: &[b"PING\r\n"],
        wanted: "6",
        status: Status::AcceptFault,
        replies: b"+PONG\r\n",
        served: 3,
    },
];

// The status, with as many links as are wanted.
fn served<R: Threads + Wait + Sync, G: Gate + Sync>(
    rt: &R,
    alloc: Global,
    wanted: &str,
    listeners: &mut Vec<MemListener>,
    gate: &G,
) -> Result<Status, Fail> {
    let words = texts(alloc, &["serve", "--connections", wanted])?;
    if listeners.is_empty() || listeners.len() >= 4_294_967_296 {
        return Err("some listeners".into());
    }
    Ok(run_server(rt, alloc, words.as_slice(), listeners, gate))
}

fn is_met<R: Threads + Wait + Abort + Sync>(rt: &R, alloc: Global, case: Case) -> Result<(), Fail> {
    let mut listeners = Vec::new(alloc);
    for _ in 0..case.listeners {
        listeners.push(listener(alloc, case.inputs)?)?;
    }
    let status = served(rt, alloc, case.wanted, &mut listeners, &NoGate)?;
    assert_eq!(rt; status, case.status);
    let mut held: usize = 0;
    let mut closed: usize = 0;
    for listener in &listeners {
        held = held.saturating_add(holding(listener, case.replies));
        closed = closed.saturating_add(listener.closed().len());
    }
    assert_eq!(rt; held, case.served);
    assert_eq!(rt; closed, case.served);
    Ok(())
}

#[test]
fn links_are_served_as_many_as_are_wanted(rt: HostRuntime) -> Result<(), Fail> {
    for case in CASES {
        is_met(&rt, rt.alloc(), case)?;
    }
    Ok(())
}

// Each link's change is held until the other's is made too: a server that serves one link after the other waits in vain.
#[test]
fn two_links_wait_for_each_other(rt: HostRuntime) -> Result<(), Fail> {
    let alloc = rt.alloc();
    let mut listeners = Vec::new(alloc);
    for line in [
        b"VADD s VALUES 3 1 1 1 a\r\n".as_slice(),
        b"VADD s VALUES 3 1 1 -1 b\r\n".as_slice(),
    ] {
        listeners.push(listener(alloc, &[line])?)?;
    }
    let gate = Holding::new(Place::Committed, 2);
    let status = served(&rt, alloc, "2", &mut listeners, &gate)?;
    assert_eq!(rt; status, Status::Done);
    assert!(rt; gate.held());
    assert!(rt; listeners.iter().all(|it| holding(it, b":1\r\n") == 1));
    Ok(())
}
