//! Sixteen connections at once, each of 200 messages: each has its own replies in its own order, and together they changed what they were
//! told to.
ghost use Rattle.std.specs.Prelude.{◌≡◌};

use crate::serving::{is_answered, written};
use std::alloc::Global;
use std::marker::Brand;
use std::process::Abort;
use std::sync::Wait;
use std::test::*;
use std::thread;
use std::thread::Threads;
use vs_history::TableName;
use vs_outside::{NoGate, NoMemory, Text};
use vs_pass::Pass;
use vs_shared::Opened;
use vs_store::Limits;

const CONNECTIONS: u32 = 16;

const ROUNDS: usize = 50;

/// The messages of one connection, and their replies: members of its own in one set, and in a set of its own, looked for by each in turn.
fn messages(alloc: Global, connection: usize) -> Result<(Text, Text), NoMemory> {
    let mut lines = Text::new(alloc);
    let mut replies = Text::new(alloc);
    for round in 0..ROUNDS {
        let sign = if round % 2 == 0 { "1" } else { "-1" };
        let line = format!(in alloc;
            "VADD all VALUES 4 1 {sign} 1 -1 c{connection}m{round}{}\r\nVADD own{connection} VALUES 2 1 {sign} m{round}\r\nVSIM own{connection} ELE m{round} COUNT 1\r\nVCARD own{connection}\r\n",
            if round % 3 == 0 { " CAS" } else { "" }
        )?;
        lines.extend_from_slice(line.as_str().as_bytes())?;
        let reply = format!(in alloc;
            ":1\r\n:1\r\n*1\r\n$2\r\nm{}\r\n:{}\r\n",
            round % 2,
            round + 1
        )?;
        replies.extend_from_slice(reply.as_str().as_bytes())?;
    }
    Ok((lines, replies))
}

#[test]
fn sixteen_connections_at_once(rt: HostRuntime) -> Result<(), Fail> {
    let opened = Opened::new(rt.alloc(), Limits::usual())?;
    served_at_once::<Brand, _>(&rt, rt.alloc(), opened)
}

fn served_at_once<N: TableName + Send + Sync, R: Threads + Wait + Abort + Sync>(
    rt: &R,
    alloc: Global,
    opened: Opened,
) -> Result<(), Fail>
    requires { opened ≡ record { table = N.table; limits = N.limits } }
{
    let (shared, mut passes) = opened.named::<N>(alloc, 1, 8, CONNECTIONS)?;
    let all = &shared;
    thread::for_each_mut(
        rt,
        passes.as_mut_slice(),
        CONNECTIONS as usize,
        &|place, pass: &mut Pass<N>| {
            let is_served = match messages(alloc, place) {
                Ok((lines, replies)) => match written(rt, alloc, all, pass, lines, &NoGate) {
                    Ok(output) => output.as_slice() == replies.as_slice(),
                    Err(_) => false,
                },
                Err(_) => false,
            };
            assert!(rt; is_served);
        },
    );
    let mut last = passes.pop().ok_or("a pass")?;
    for mut pass in passes {
        shared.meet(&mut last, &mut pass);
    }
    assert_eq!(rt; last.known(), 1600);
    assert!(rt;
        is_answered(
            rt,
            alloc,
            all,
            &mut last,
            b"VCARD all\r\nVCARD own7\r\n",
            b":800\r\n:50\r\n",
            &NoGate
        )
    );
    Ok(())
}
