//! Connections over a handler that knows PING and QUIT alone, and finds no memory for anything else.

ghost use Rattle.std.specs.Prelude.{◌≡◌, ◌≤◌, ◌∷◌, [], true, false};
ghost use Rattle.std.specs.Str.{str_to_ascii_lowercase};
ghost use Rattle.vs_defs.specs.Bytes.{Bytes, is_word};
ghost use Rattle.vs_defs.specs.Store.{usual_limits};
ghost use Rattle.vs_defs.specs.PlainMachine.{PlainHistory, PlainLegal, PlainCall};

use crate::write::write_all;
use crate::{Handler, Replied, SessionEnd, serve_by};
use std::test::Fail;
use vs_outside::{List, MemSink, MemSource, Sink, Text};
use vs_resp::Fault;

#[derive(Drop)]
struct Answering;

// In any case of ASCII letters; the name is in small ones.
fn is_name(name: &[u8], word: &Text) -> bool
    requires { str_to_ascii_lowercase name.now ≡ name.now }
    ensures { result ≡ is_word name.now word.now }
{
    name.eq_ignore_ascii_case(word.as_slice())
}

fn is_only(message: &[Text], name: &[u8]) -> bool
    requires { str_to_ascii_lowercase name.now ≡ name.now }
    ensures yes { result ≡ true → (w : Bytes) × (message.now ≡ w ∷ []) × (is_word name.now w ≡ true) }
    ensures no { result ≡ false → (w : Bytes) → message.now ≡ w ∷ [] → is_word name.now w ≡ false }
{
    match message {
        [word] => is_name(name, word),
        _ => false,
    }
}

impl Handler for Answering {
    ghost Known = { PlainHistory };

    ghost call = { PlainCall usual_limits };

    ghost after = { λ s k h g. PlainLegal usual_limits h };

    fn handle<K: Sink>(&mut self, message: &[Text], sink: &mut K) -> Replied {
        if is_only(message, b"ping") {
            if write_all(sink, b"+PONG\r\n") {
                return Replied::Whole;
            }
            return Replied::Failed;
        }
        if is_only(message, b"quit") {
            if write_all(sink, b"+OK\r\n") {
                return Replied::Bye;
            }
            return Replied::Failed;
        }
        if write_all(sink, b"-OOM not enough memory\r\n") {
            return Replied::Whole;
        }
        Replied::Failed
    }
}

// The end, and what was written, of a connection whose source gives this input in pieces of this size.
fn served<R: AllocGlobal>(
    rt: &R,
    input: &[u8],
    piece: usize,
    read_fault: u64,
    write_fault: u64,
) -> Result<(SessionEnd, Vec<u8>), Fail>
    requires { 1 ≤ piece }
{
    let alloc = rt.alloc();
    let mut read_faults = List::new(alloc);
    read_faults.push(read_fault)?;
    let mut write_faults = List::new(alloc);
    write_faults.push(write_fault)?;
    let mut source = MemSource::new(Text::from_slice(alloc, input)?, piece, read_faults);
    let mut sink = MemSink::new(alloc, 16_384, write_faults);
    let end = serve_by(alloc, &mut Answering, &mut source, &mut sink);
    Ok((end, Vec::from_slice(alloc, sink.written())?))
}

#[test]
fn connections_end_by_their_causes(rt: HostRuntime) -> Result<(), Fail> {
    let bad_end = SessionEnd::Protocol {
        fault: Fault::BadEnd,
        at: 11,
    };
    let bad_line = b"-ERR Protocol error: bad bulk end at byte 11\r\n".as_slice();
    let cases: [(&[u8], u64, u64, SessionEnd, &[u8]); 9] = [
        (b"", 0, 0, SessionEnd::Ended, b""),
        (
            b"PING\r\n\r\n*0\r\n*1\r\n$4\r\nPING\r\n",
            0,
            0,
            SessionEnd::Ended,
            b"+PONG\r\n+PONG\r\n",
        ),
        (
            b"PING\r\nQUIT\r\nPING\r\n",
            0,
            0,
            SessionEnd::Quit,
            b"+PONG\r\n+OK\r\n",
        ),
        (b"QUIT\r\n*x", 0, 0, SessionEnd::Quit, b"+OK\r\n"),
        (b"*1\r\n$3\r\nabcX", 0, 0, bad_end, bad_line),
        (
            b"PING\r\n*2\r\n$5\r\nab",
            0,
            0,
            SessionEnd::CutShort,
            b"+PONG\r\n",
        ),
        (
            b"VCARD s\r\nPING\r\n",
            0,
            0,
            SessionEnd::Ended,
            b"-OOM not enough memory\r\n+PONG\r\n",
        ),
        (
            b"PING\r\nPING\r\n",
            0,
            2,
            SessionEnd::WriteFault,
            b"+PONG\r\n",
        ),
        (b"PING\r\nPING\r\n", 1, 0, SessionEnd::ReadFault, b""),
    ];
    for (input, read_fault, write_fault, end, output) in cases {
        for piece in [1, 5, 16_384] {
            let (ended, written) = served(&rt, input, piece, read_fault, write_fault)?;
            assert_eq!(rt; ended, end);
            assert_eq!(rt; written.as_slice(), output);
        }
    }
    Ok(())
}
