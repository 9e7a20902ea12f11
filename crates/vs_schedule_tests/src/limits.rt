//! Schedules at their limits: the number of actors, the limits of the store, and the longest line.
ghost use Rattle.std.specs.Prelude.{◌≤◌};

use crate::ran::{Worked, are_printed, ran};
use std::alloc::Global;
use std::test::Fail;
use vs_outside::{NoMemory, Text};
use vs_schedule::ScheduleEnd;

const LARGEST: &[Worked] = &[
    (
        b"actors 64\n1 do - PING\n64 do - PING\n65 do - PING\n0 do - PING\n",
        b"1 do +PONG\n64 do +PONG\n65 do no such actor\n0 do no such actor\n",
    ),
    (
        b"actors 1 1048576 65536 2097152\n1 do 1 VADD s VALUES 1 1 a\n",
        b"1 do :1\n",
    ),
    (
        b"actors 1 1 1 1\n1 do 1 VADD s VALUES 1 1 a\n1 do 1 VADD t VALUES 1 1 a\n",
        b"1 do :1\n1 do -ERR store is full with 1 keys\n",
    ),
    (
        b"actors 1 1 2 1\n1 do 1 VADD s VALUES 1 1 a\n1 do 1 VADD t VALUES 1 1 a\n",
        b"1 do :1\n1 do -ERR store is full with 1 members\n",
    ),
];

#[test]
fn actors_and_limits_as_large_as_they_come(rt: HostRuntime) -> Result<(), Fail> {
    assert!(rt; are_printed(rt.alloc(), LARGEST)?);
    Ok(())
}

// Two lines behind the first: one of so many bytes, whose command isn't known, and one more.
fn long_line(alloc: Global, bytes: usize) -> Result<Text, NoMemory>
    requires { 8 ≤ bytes }
{
    let command = vec![in alloc; b'y'; bytes - 7]?;
    let mut input = Text::from_slice(alloc, b"actors 1\n1 do - ")?;
    input.extend_from_slice(command.as_slice())?;
    input.extend_from_slice(b"\n1 do - PING\n")?;
    Ok(input)
}

#[test]
fn a_line_as_long_as_may_be_and_one_byte_more(rt: HostRuntime) -> Result<(), Fail> {
    let alloc = rt.alloc();
    let (end, sink) = ran(alloc, long_line(alloc, 1_048_576)?, 16_384, 0, 0)?;
    assert_eq!(rt; end, ScheduleEnd::Ended);
    assert_eq!(rt;
        sink.written(),
        b"1 do -ERR unknown command\n1 do +PONG\n".as_slice()
    );
    let (end, sink) = ran(alloc, long_line(alloc, 1_048_577)?, 16_384, 0, 0)?;
    assert_eq!(rt; end, ScheduleEnd::BadLine { line: 2 });
    assert_eq!(rt; sink.written(), b"bad line 2\n".as_slice());
    Ok(())
}
