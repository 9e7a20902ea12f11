//! Faults at every place of a connection: each read and each write that fails, an input that is cut after each byte, and inputs with a fault.
//! What was written is then the replies to the messages that came whole, or their beginning up to the write that failed.
use crate::conversation::Exchange;
use crate::requests::push_bulk;
use crate::served::{gives, served};
use std::alloc::Global;
use std::test::Fail;
use vs_connection::SessionEnd;
use vs_outside::{List, MemSink, MemSource, NoMemory, Text};
use vs_resp::Fault;
use vs_session::serve_alone;

/// What ends a connection.
#[derive(Clone, Copy)]
enum Break {
    /// Each read in turn, that after the last byte too.
    Reads,
    /// Each write in turn.
    Writes,
    /// The end of the input after each of its bytes but the last.
    Cuts,
    /// A fault of the input at this byte.
    At(Fault, u64),
}

const ADDITION: &[u8] =
    b"*9\r\n$4\r\nVADD\r\n$1\r\ns\r\n$6\r\nVALUES\r\n$1\r\n3\r\n$1\r\n1\r\n$2\r\n-2\r\n$1\r\n0\r\n$1\r\na\r\n$3\r\nBIN\r\n";

const PING: Exchange = (b"*1\r\n$4\r\nPING\r\n", b"+PONG\r\n");

const CASES: &[(&[Exchange], Break)] = &[
    (
        &[(ADDITION, b":1\r\n"), (ADDITION, b":0\r\n")],
        Break::Reads,
    ),
    (&[PING, PING, PING], Break::Writes),
    (&[(ADDITION, b":1\r\n")], Break::Cuts),
    (
        &[(
            b"*1x",
            b"-ERR Protocol error: bad array count at byte 2\r\n",
        )],
        Break::At(Fault::BadCount, 2),
    ),
    (
        &[(
            b"*65537",
            b"-ERR Protocol error: array count too large at byte 5\r\n",
        )],
        Break::At(Fault::CountTooLarge, 5),
    ),
    (
        &[(
            b"*1\r\n$65537",
            b"-ERR Protocol error: bulk too long at byte 9\r\n",
        )],
        Break::At(Fault::LengthTooLarge, 9),
    ),
];

// The messages, and the replies to them.
fn joined(alloc: Global, exchanges: &[Exchange]) -> Result<(Text, Text), NoMemory> {
    let mut input = Text::new(alloc);
    let mut output = Text::new(alloc);
    for (message, reply) in exchanges {
        input.extend_from_slice(message)?;
        output.extend_from_slice(reply)?;
    }
    Ok((input, output))
}

// The replies to the messages that are whole in so many bytes.
fn due(alloc: Global, exchanges: &[Exchange], bytes: usize) -> Result<Text, NoMemory> {
    let mut replies = Text::new(alloc);
    let mut left = bytes;
    for (message, reply) in exchanges {
        if left < message.len() {
            return Ok(replies);
        }
        left -= message.len();
        replies.extend_from_slice(reply)?;
    }
    Ok(replies)
}

// Whether a connection whose ends take a byte a call ends so, with these bytes written. The calls of these numbers fail; 0 is none.
fn leaves(
    alloc: Global,
    input: &[u8],
    (read_fault, write_fault): (usize, usize),
    end: SessionEnd,
    output: &[u8],
) -> Result<bool, NoMemory> {
    let reads = List::from_slice(alloc, &[read_fault as u64])?;
    let writes = List::from_slice(alloc, &[write_fault as u64])?;
    let mut source = MemSource::new(Text::from_slice(alloc, input)?, 1, reads);
    let mut sink = MemSink::new(alloc, 1, writes);
    let ended = serve_alone(alloc, 7, &mut source, &mut sink);
    Ok(ended == end && sink.written() == output)
}

fn each_read_fails(alloc: Global, exchanges: &[Exchange], input: &[u8]) -> Result<bool, NoMemory> {
    for read in 0..=input.len() {
        let replies = due(alloc, exchanges, read)?;
        if !leaves(
            alloc,
            input,
            (read.saturating_add(1), 0),
            SessionEnd::ReadFault,
            replies.as_slice(),
        )? {
            return Ok(false);
        }
    }
    Ok(true)
}

fn each_write_fails(alloc: Global, input: &[u8], output: &[u8]) -> Result<bool, NoMemory> {
    for written in 0..output.len() {
        let replies = &output[..written];
        if !leaves(
            alloc,
            input,
            (0, written + 1),
            SessionEnd::WriteFault,
            replies,
        )? {
            return Ok(false);
        }
    }
    Ok(true)
}

fn each_cut_is_short(
    alloc: Global,
    exchanges: &[Exchange],
    input: &[u8],
) -> Result<bool, NoMemory> {
    for cut in 1..input.len() {
        let replies = due(alloc, exchanges, cut)?;
        if !leaves(
            alloc,
            &input[..cut],
            (0, 0),
            SessionEnd::CutShort,
            replies.as_slice(),
        )? {
            return Ok(false);
        }
    }
    Ok(true)
}

// Whether a connection with these messages is left so, wherever it breaks.
fn breaks_so(alloc: Global, exchanges: &[Exchange], by: Break) -> Result<bool, NoMemory> {
    let (input, output) = joined(alloc, exchanges)?;
    match by {
        Break::Reads => each_read_fails(alloc, exchanges, input.as_slice()),
        Break::Writes => each_write_fails(alloc, input.as_slice(), output.as_slice()),
        Break::Cuts => each_cut_is_short(alloc, exchanges, input.as_slice()),
        Break::At(fault, at) => {
            let end = SessionEnd::Protocol { fault, at };
            gives(alloc, &input, end, output.as_slice())
        }
    }
}

// A message of 64 bulks as long as may be, and the first byte of another's length.
fn message_too_large(alloc: Global) -> Result<Text, NoMemory> {
    let bulk = vec![in alloc; b'y'; 65_536]?;
    let mut input = Text::from_slice(alloc, b"*65\r\n")?;
    for _bulk in 0..64 {
        push_bulk(alloc, &mut input, bulk.as_slice())?;
    }
    input.extend_from_slice(b"$1")?;
    Ok(input)
}

#[test]
fn a_connection_may_break_at_every_place(rt: HostRuntime) -> Result<(), Fail> {
    let alloc = rt.alloc();
    for (case, (exchanges, by)) in CASES.iter().enumerate() {
        assert!(rt; breaks_so(alloc, exchanges, *by)?, "case {case}");
    }
    let (end, sink) = served(alloc, message_too_large(alloc)?, 16_384, 0, 0)?;
    let fault = Fault::MessageTooLarge;
    let at = 4_194_950;
    assert_eq!(rt; end, SessionEnd::Protocol { fault, at });
    let line = b"-ERR Protocol error: message too long at byte 4194950\r\n".as_slice();
    assert_eq!(rt; sink.written(), line);
    Ok(())
}
