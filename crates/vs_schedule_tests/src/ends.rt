//! How schedules end: bad lines by their numbers, and faults.
use crate::ran::{gives, ran};
use std::alloc::Global;
use std::test::Fail;
use vs_outside::{NoMemory, Text};
use vs_schedule::ScheduleEnd;

// Schedules that are run to their ends, and what they print.
const ENDED: &[(&[u8], &[u8])] = &[
    (b"", b""),
    (b"\n\n", b""),
    (b"actors 1", b""),
    (b"actors 64\n", b""),
    (b"\n\nactors 1\n\n1 do - PING\n\n", b"1 do +PONG\n"),
    (
        b"actors 1\n1 do - PING\n1 do - VCARD s",
        b"1 do +PONG\n1 do :0\n",
    ),
];

// First lines that are bad.
const BAD_BEGINNINGS: &[&[u8]] = &[
    b"1 do - PING",
    b"actors",
    b"actors 0",
    b"actors 65",
    b"actors 01",
    b"actors +1",
    b"actors 1 ",
    b" actors 1",
    b"actors  1",
    b"actors 1\r",
    b"Actors 1",
    b"actors 1 4",
    b"actors 1 4 4",
    b"actors 1 4 4 16 1",
    b"actors 1 0 4 16",
    b"actors 1 4 0 16",
    b"actors 1 4 4 0",
    b"actors 1 1048577 65536 2097152",
    b"actors 1 1048576 65537 2097152",
    b"actors 1 1048576 65536 2097153",
];

// Lines that are bad behind the first.
const BAD_LINES: &[&[u8]] = &[
    b"actors 1",
    b"1",
    b"1 stop",
    b"1 DO - PING",
    b"a do - PING",
    b"01 do - PING",
    b"+1 do - PING",
    b"4294967296 do - PING",
    b" 1 do - PING",
    b"1  do - PING",
    b"1 do - PING ",
    b"1 do - PING\r",
    b"1 do",
    b"1 do -",
    b"1 do PING",
    b"1 do 1 PING",
    b"1 do - VADD s VALUES 1 1 a",
    b"1 do 1,2 VADD s VALUES 1 1 a",
    b"1 do 1, VADD s VALUES 1 1 a",
    b"1 do 4294967296 VADD s VALUES 1 1 a",
    b"9 do 1 PING",
    b"1 look",
    b"1 look PING",
    b"1 look VADD s VALUES 1 1 a CAS",
    b"1 finish VSIM",
    b"1 finish ",
    b"1 draft",
    b"1 draft 1",
    b"1 draft - VADD s VALUES 1 1 a CAS",
    b"1 draft 1,1 VADD s VALUES 1 1 a CAS",
    b"1 draft 1 VADD s VALUES 1 1 a",
    b"1 draft 1 VSIM s ELE a",
    b"1 prepare 1",
    b"1 commit 1",
];

#[test]
fn schedules_are_run_to_their_ends(rt: HostRuntime) -> Result<(), Fail> {
    let alloc = rt.alloc();
    for (input, output) in ENDED {
        let input = Text::from_slice(alloc, input)?;
        assert!(rt; gives(alloc, &input, ScheduleEnd::Ended, output)?);
    }
    Ok(())
}

// The lines before a line, then it, and then this.
fn lines(alloc: Global, before: &[u8], line: &[u8], behind: &[u8]) -> Result<Text, NoMemory> {
    let mut input = Text::from_slice(alloc, before)?;
    input.extend_from_slice(line)?;
    input.extend_from_slice(behind)?;
    Ok(input)
}

// Whether each of these is bad as the first line that isn't empty, whatever is behind it.
fn are_bad_beginnings(alloc: Global, cases: &[&[u8]]) -> Result<bool, NoMemory> {
    let end = ScheduleEnd::BadLine { line: 2 };
    for line in cases {
        let input = lines(alloc, b"\n", line, b"\nactors 1\n1 do - PING\n")?;
        if !gives(alloc, &input, end, b"bad line 2\n")? {
            return Ok(false);
        }
    }
    Ok(true)
}

// Whether each of these is bad behind lines that are answered, of which one is empty, and with no line feed behind it.
fn are_bad_lines(alloc: Global, cases: &[&[u8]]) -> Result<bool, NoMemory> {
    let end = ScheduleEnd::BadLine { line: 4 };
    for line in cases {
        let whole = lines(
            alloc,
            b"actors 2\n1 do - PING\n\n",
            line,
            b"\n1 do - PING\n",
        )?;
        let last = lines(alloc, b"actors 2\n1 do - PING\n\n", line, b"")?;
        if !gives(alloc, &whole, end, b"1 do +PONG\nbad line 4\n")?
            || !gives(alloc, &last, end, b"1 do +PONG\nbad line 4\n")?
        {
            return Ok(false);
        }
    }
    Ok(true)
}

#[test]
fn bad_lines_are_told_by_their_numbers(rt: HostRuntime) -> Result<(), Fail> {
    assert!(rt; are_bad_beginnings(rt.alloc(), BAD_BEGINNINGS)?);
    assert!(rt; are_bad_lines(rt.alloc(), BAD_LINES)?);
    Ok(())
}

#[test]
fn a_failed_read_or_write_ends_the_run(rt: HostRuntime) -> Result<(), Fail> {
    let alloc = rt.alloc();
    let cases: [(u64, u64, ScheduleEnd, &[u8]); 4] = [
        (2, 0, ScheduleEnd::ReadFault, b"1 do +PONG\n"),
        (0, 1, ScheduleEnd::WriteFault, b""),
        (0, 2, ScheduleEnd::WriteFault, b"1 do +PONG\n"),
        (
            3,
            0,
            ScheduleEnd::BadLine { line: 3 },
            b"1 do +PONG\nbad line 3\n",
        ),
    ];
    for (read_fault, write_fault, end, output) in cases {
        let input = Text::from_slice(alloc, b"actors 1\n1 do - PING\nPING\n")?;
        let (ended, sink) = ran(alloc, input, 22, read_fault, write_fault)?;
        assert_eq!(rt; ended, end);
        assert_eq!(rt; sink.written(), output);
    }
    Ok(())
}
