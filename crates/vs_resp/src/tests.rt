//! Streams, with their messages and endings as the rules of the protocol and this project's limits have them.
#![tactic(auto)]

ghost use Rattle.std.specs.Prelude.{◌≡◌};
ghost use Rattle.vs_resp.specs.Stands.{bytes_taken};

use super::*;
use std::alloc::AllocError;
use std::str;
use std::test::Fail;

// A word as it is, or its length where it is long or no text.
fn show_word(alloc: Global, word: &[u8]) -> Result<String, AllocError> {
    if word.len() < 20 {
        if let Ok(text) = str::from_utf8(word) {
            return format!(in alloc; "<{text}>");
        }
    }
    format!(in alloc; "<{} bytes>", word.len())
}

fn show_message(alloc: Global, words: &[Text], shown: &mut String) -> Result<(), AllocError> {
    if words.len() > 64 {
        let mut bytes: usize = 0;
        for word in words {
            bytes = bytes.wrapping_add(word.len());
        }
        let count = format!(in alloc; "{} words of {bytes} bytes ", words.len())?;
        return shown.push_str(count.as_str());
    }
    for word in words {
        let text = show_word(alloc, word.as_slice())?;
        shown.push_str(text.as_str())?;
    }
    shown.push_str(" ")
}

// Shows the messages that are ready, and gives each back where `back` says so.
fn show_ready(
    alloc: Global,
    decoder: &mut Decoder,
    back: bool,
    shown: &mut String,
) -> Result<(), AllocError>
    ensures { bytes_taken decoder.new ≡ bytes_taken decoder.old }
{
    while let Some(message) = decoder.next() {
        show_message(alloc, message.as_slice(), shown)?;
        if back {
            decoder.take_back(message);
        }
    }
    Ok(())
}

fn show_end(
    alloc: Global,
    decoder: &Decoder,
    last: Result<(), FeedError>,
) -> Result<String, AllocError> {
    match last {
        Ok(()) if decoder.at_border() => format!(in alloc; "border"),
        Ok(()) => format!(in alloc; "within"),
        Err(FeedError::Protocol { fault, at }) => format!(in alloc; "{fault:?} at {at}"),
        Err(FeedError::NoMemory) => format!(in alloc; "no memory"),
    }
}

// The messages and the ending of a stream that is fed in pieces of this size.
fn outcome(alloc: Global, stream: &[u8], size: usize, back: bool) -> Result<String, AllocError> {
    let mut decoder = Decoder::new(alloc);
    let mut shown = String::new(alloc);
    let mut last = Ok(());
    let mut at: usize = 0;
    'pieces: while at < stream.len() {
        let end = at + size.max(1).min(stream.len() - at);
        last = decoder.feed(&stream[at..end]);
        show_ready(alloc, &mut decoder, back, &mut shown)?;
        at = end;
    }
    let end = show_end(alloc, &decoder, last)?;
    shown.push_str(end.as_str())?;
    Ok(shown)
}

#[test]
fn short_streams(rt: HostRuntime) -> Result<(), Fail> {
    let cases: [(&[u8], &str); 46] = [
        (b"", "border"),
        (b"*2\r\n$4\r\nVADD\r\n$3\r\na b\r\n", "<VADD><a b> border"),
        (b"*1\r\n$0\r\n\r\n*1\r\n$2\r\n\r\n\r\n", "<> <\r\n> border"),
        (b"*0000001\r\n$0000001\r\na\r\n", "<a> border"),
        (b"*00000001", "BadCount at 8"),
        (b"*1\r\n$00000001", "BadLength at 12"),
        (b"*0\r\n*-1\r\n*1\r\n$1\r\nx\r\n", "<x> border"),
        (b"*0000000\r\n", "border"),
        (b"*", "within"),
        (b"*-", "within"),
        (b"*-1\r", "within"),
        (b"*x", "BadCount at 1"),
        (b"*\r\n", "BadCount at 1"),
        (b"*-2\r\n", "BadCount at 2"),
        (b"*-01\r\n", "BadCount at 2"),
        (b"*-1\n", "BadCount at 3"),
        (b"*-11\r\n", "BadCount at 3"),
        (b"*1\n", "BadCount at 2"),
        (b"*1\rx", "BadCount at 3"),
        (b"*0\r\n*-1\rx", "BadCount at 8"),
        (b"*65537", "CountTooLarge at 5"),
        (b"*0655360", "CountTooLarge at 7"),
        (b"*9999999", "CountTooLarge at 5"),
        (b"*1\r\nx", "ExpectedBulk at 4"),
        (b"*2\r\n$1\r\na\r\n:1", "ExpectedBulk at 11"),
        (b"*1\r\n$x", "BadLength at 5"),
        (b"*1\r\n$-1\r\n", "BadLength at 5"),
        (b"*1\r\n$\r", "BadLength at 5"),
        (b"*1\r\n$1\n", "BadLength at 6"),
        (b"*1\r\n$1\rx", "BadLength at 7"),
        (b"*1\r\n$65537", "LengthTooLarge at 9"),
        (b"*1\r\n$3\r\nabcX", "BadEnd at 11"),
        (b"*1\r\n$3\r\nabc\n", "BadEnd at 11"),
        (b"*1\r\n$3\r\nabc\rX", "BadEnd at 12"),
        (b"*1\r\n$3\r\nabc\r", "within"),
        (b"*1\r\n$4\r\nPING\r\n*2\r\n$5\r\nab", "<PING> within"),
        (
            b"*1\r\n$1\r\na\r\nb\n*x\n*1\r\n$1\r\nc\r\n",
            "<a> <b> BadCount at 14",
        ),
        (b"PING\r\n\r\nVCARD  s\n", "<PING> <VCARD><s> border"),
        (b"  a  b \r\n \r\n\n\r\r\n", "<a><b> <\r> border"),
        (b"a\rb\r\r\n", "<a\rb\r> border"),
        (b"PING\r", "within"),
        (
            b"*2\r\n$3\r\nabc\r\n$2\r\nde\r\n*3\r\n$1\r\nf\r\n$0\r\n\r\n$4\r\nghij\r\nk l\n*1\r\n$0\r\n\r\n*1\r\n$17\r\n0123456789abcdefg\r\n*1\r\n$1\r\nm\r\n",
            "<abc><de> <f><><ghij> <k><l> <> <0123456789abcdefg> <m> border",
        ),
        (
            b"*1\r\n$2\r\nab\r\n*2\r\n$1\r\nc\r\n$2\r\ndeX",
            "<ab> BadEnd at 29",
        ),
        (b"*1\r\n$1\r\na\r\n*1\r\n$1\r\nbc\r\n", "<a> BadEnd at 20"),
        (
            b"*4\r\n$2\r\n-1\r\n$1\r\n1\r\n$9\r\n123456789\r\n$3\r\nkey\r\n*3\r\n$16\r\n0123456789abcdef\r\n$1\r\nx\r\n$18\r\n0123456789abcdefgh\r\n*2\r\n$6\r\n0.5000\r\n$2\r\ny\n\r\n",
            "<-1><1><123456789><key> <0123456789abcdef><x><0123456789abcdefgh> <0.5000><y\n> border",
        ),
        (
            b"*2\r\n$1\r\n1\r\n$1\r\n12345678901234567890\r\n",
            "BadEnd at 16",
        ),
    ];
    let alloc = rt.alloc();
    for (stream, wanted) in cases {
        for size in [1, 2, 3, 4096] {
            for back in [false, true] {
                let shown = outcome(alloc, stream, size, back)?;
                assert_eq!(rt; shown.as_str(), wanted);
            }
        }
    }
    Ok(())
}

fn repeated(
    alloc: Global,
    head: &[u8],
    part: &[u8],
    count: usize,
    end: &[u8],
) -> Result<Vec<u8>, AllocError> {
    let mut stream = Vec::new(alloc);
    stream.extend_from_slice(head)?;
    for _ in 0..count {
        stream.extend_from_slice(part)?;
    }
    stream.extend_from_slice(end)?;
    Ok(stream)
}

#[test]
fn limits(rt: HostRuntime) -> Result<(), Fail> {
    let alloc = rt.alloc();
    let bulk = repeated(alloc, b"$65536\r\n", b"a", 65536, b"\r\n")?;
    let cases: [(&[u8], &[u8], usize, &[u8], &str); 13] = [
        (
            b"*65536\r\n",
            b"$1\r\na\r\n",
            65536,
            b"",
            "65536 words of 65536 bytes border",
        ),
        (b"*65536\r\n", b"$1\r\na\r\n", 65535, b"", "within"),
        (
            b"*1024\r\n",
            b"$0\r\n\r\n",
            1024,
            b"QUIT\n",
            "1024 words of 0 bytes <QUIT> border",
        ),
        (
            b"*1025\r\n",
            b"$0\r\n\r\n",
            1025,
            b"QUIT\n",
            "1025 words of 0 bytes <QUIT> border",
        ),
        (
            b"*1\r\n$65536\r\n",
            b"a",
            65536,
            b"\r\n",
            "<65536 bytes> border",
        ),
        (b"*1\r\n$65536\r\n", b"a", 65536, b"a", "BadEnd at 65548"),
        (
            b"*65\r\n",
            &bulk,
            64,
            b"$0\r\n\r\n",
            "65 words of 4194304 bytes border",
        ),
        (b"*65\r\n", &bulk, 64, b"$1", "MessageTooLarge at 4194950"),
        (
            b"*65\r\n",
            &bulk,
            64,
            b"$65537",
            "MessageTooLarge at 4194950",
        ),
        (b"", b"a", 65536, b"\n", "<65536 bytes> border"),
        (b"", b"a", 65535, b"\r\n", "<65535 bytes> border"),
        (b"", b"a", 65536, b"\r\n", "InlineTooLong at 65536"),
        (b"\r\n ", b" ", 65535, b" ", "InlineTooLong at 65538"),
    ];
    for (head, part, count, end, wanted) in cases {
        let stream = repeated(alloc, head, part, count, end)?;
        for size in [1, 16384] {
            let shown = outcome(alloc, &stream, size, true)?;
            assert_eq!(rt; shown.as_str(), wanted);
        }
    }
    Ok(())
}

// The stream's outcome, or what came of it until memory was refused: the messages before, and that error.
fn is_outcome(shown: &str, wanted: &str) -> bool {
    match shown.strip_suffix("no memory") {
        Some(messages) => wanted.starts_with(messages),
        None => shown == wanted,
    }
}

/// Words are reused, longer after shorter, and one is given back that is too long to be kept. With no allocation refused this is the
/// test of the words; `tools/refused/run` runs it with each allocation refused in turn.
#[test]
fn refused_memory_cuts_the_stream_short(rt: HostRuntime) -> Result<(), Fail> {
    let stream =
        b"*3\r\n$4\r\nVADD\r\n$1\r\ns\r\n$1\r\n1\r\n*4\r\n$8\r\nVSETATTR\r\n$1\r\ns\r\n$6\r\nmember\r\n$14\r\n{\"year\":_1979}\r\n*4\r\n$8\r\nVSETATTR\r\n$1\r\ns\r\n$6\r\nmember\r\n$70\r\nxxxxxxxxxxxxxxxxxxxxxxxxxxxxxxxxxxxxxxxxxxxxxxxxxxxxxxxxxxxxxxxxxxxxxx\r\n*6\r\n$4\r\nVSIM\r\n$1\r\ns\r\n$4\r\n0.25\r\n$6\r\n-0.125\r\n$1\r\n1\r\n$2\r\n-1\r\n*1\r\n$4\r\nPING\r\n";
    let wanted =
        "<VADD><s><1> <VSETATTR><s><member><{\"year\":_1979}> <VSETATTR><s><member><70 bytes> <VSIM><s><0.25><-0.125><1><-1> <PING> border";
    for size in [1, 7, 64, 4096] {
        if let Ok(shown) = outcome(rt.alloc(), stream, size, true) {
            assert!(rt; is_outcome(shown.as_str(), wanted), "{shown}");
        }
    }
    Ok(())
}
