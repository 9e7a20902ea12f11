//! Runs of the program over ends in memory, from the rules of the protocol and of the program's words.
#![tactic(auto)]

use super::*;
use std::alloc::{AllocError, Global};
use std::test::Fail;
use vs_outside::{List, MemSink, MemSource, Text};

// What is run, and what must come of it.
#[derive(Drop)]
struct Case {
    words: &'static [&'static [u8]],
    input: &'static [u8],
    output: &'static [u8],
    status: Status,
}

const SCRIPT: &[&[u8]] = &[b"script", b"--seed=3"];

const SCHEDULE: &[&[u8]] = &[b"schedule"];

const GENERATE: &[&[u8]] = &[b"generate", b"--dim=1", b"--members", b"1"];

fn text(alloc: Global, bytes: &[u8]) -> Result<Text, AllocError> {
    Ok(Text::from_vec(Vec::from_slice(alloc, bytes)?))
}

fn texts(alloc: Global, words: &[&[u8]]) -> Result<List<Text>, AllocError> {
    let mut texts = List::new(alloc);
    for word in words {
        texts.push(text(alloc, word)?)?;
    }
    Ok(texts)
}

// The status and the sink after the case's run over ends whose calls of these numbers fail.
fn run_case(
    alloc: Global,
    case: &Case,
    failing_reads: &[u64],
    failing_writes: &[u64],
) -> Result<(Status, MemSink), AllocError> {
    let words = texts(alloc, case.words)?;
    let reads = List::from_vec(Vec::from_slice(alloc, failing_reads)?);
    let writes = List::from_vec(Vec::from_slice(alloc, failing_writes)?);
    let mut source = MemSource::new(text(alloc, case.input)?, 1, reads);
    let mut sink = MemSink::new(alloc, 3, writes);
    let status = run_alone(alloc, words.as_slice(), &mut source, &mut sink);
    Ok((status, sink))
}

#[test]
fn ends(rt: HostRuntime) -> Result<(), Fail> {
    let cases = [
        Case {
            words: SCRIPT,
            input: b"",
            output: b"",
            status: Status::Done,
        },
        Case {
            words: SCRIPT,
            input: b"QUIT\r\nPING\r\n",
            output: b"+OK\r\n",
            status: Status::Done,
        },
        Case {
            words: SCRIPT,
            input: b"*1\r\n$4\r\nPING\r\n*2\r\n$5\r\nab",
            output: b"+PONG\r\n",
            status: Status::CutShort,
        },
        Case {
            words: SCRIPT,
            input: b"*1\r\n$3\r\nabcX",
            output: b"-ERR Protocol error: bad bulk end at byte 11\r\n",
            status: Status::Protocol,
        },
        Case {
            words: SCHEDULE,
            input: b"actors 1\n1 do - PING",
            output: b"1 do +PONG\n",
            status: Status::Done,
        },
        Case {
            words: SCHEDULE,
            input: b"actors 1\n\n1 do - PING\nPING\n1 do - PING\n",
            output: b"1 do +PONG\nbad line 4\n",
            status: Status::BadLine,
        },
        Case {
            words: GENERATE,
            input: b"PING\r\n",
            output: b"members 1\ndim 1\nmax-level 1\nlinks 0\ntruth m0\nbeam m0\nagree 1\n",
            status: Status::Done,
        },
        Case {
            words: &[b"generate", b"--members", b"0"],
            input: b"",
            output: b"vectord: bad words\n",
            status: Status::BadWords,
        },
        Case {
            words: &[b"schedule", b"x"],
            input: b"actors 1\n",
            output: b"vectord: bad words\n",
            status: Status::BadWords,
        },
        Case {
            words: &[b"script", b"--seed", b"03"],
            input: b"PING\r\n",
            output: b"vectord: bad words\n",
            status: Status::BadWords,
        },
    ];
    for case in &cases {
        let (status, sink) = run_case(rt.alloc(), case, &[], &[])?;
        assert_eq!(rt; status, case.status);
        assert_eq!(rt; sink.written(), case.output);
    }
    Ok(())
}

#[test]
fn faults(rt: HostRuntime) -> Result<(), Fail> {
    let mut case = Case {
        words: SCRIPT,
        input: b"PING\r\nPING\r\nPING\r\n",
        output: b"",
        status: Status::Done,
    };
    let (status, sink) = run_case(rt.alloc(), &case, &[8], &[])?;
    assert_eq!(rt; status, Status::ReadFault);
    assert_eq!(rt; sink.written(), b"+PONG\r\n".as_slice());
    let (status, sink) = run_case(rt.alloc(), &case, &[], &[5])?;
    assert_eq!(rt; status, Status::WriteFault);
    assert_eq!(rt; sink.written(), b"+PONG\r\n+PO".as_slice());
    case.words = GENERATE;
    let (status, sink) = run_case(rt.alloc(), &case, &[], &[4])?;
    assert_eq!(rt; status, Status::WriteFault);
    assert_eq!(rt; sink.written(), b"members 1".as_slice());
    case.words = &[];
    let (status, sink) = run_case(rt.alloc(), &case, &[], &[3])?;
    assert_eq!(rt; status, Status::BadWords);
    assert_eq!(rt; sink.written(), b"vector".as_slice());
    Ok(())
}

#[test]
fn one_member(rt: HostRuntime) -> Result<(), Fail> {
    let case = Case {
        words: SCRIPT,
        input: b"*9\r\n$4\r\nVADD\r\n$1\r\ns\r\n$6\r\nVALUES\r\n$1\r\n3\r\n$1\r\n1\r\n$2\r\n-2\r\n$1\r\n0\r\n$1\r\na\r\n$3\r\nBIN\r\nVEMB s a\r\n",
        output: b":1\r\n*3\r\n$1\r\n1\r\n$2\r\n-1\r\n$2\r\n-1\r\n",
        status: Status::Done,
    };
    let (status, sink) = run_case(rt.alloc(), &case, &[], &[])?;
    assert_eq!(rt; status, case.status);
    assert_eq!(rt; sink.written(), case.output);
    Ok(())
}
