//! A connection between a source and a sink in memory.
ghost use Rattle.std.specs.Prelude.{◌≡◌, ◌≤◌};

use crate::requests::requests;
use std::alloc::Global;
use vs_connection::SessionEnd;
use vs_outside::{List, MemSink, MemSource, NoMemory, Text};
use vs_session::serve_alone;

/// The end, and what was written, where the source gives pieces of this size. The calls of these numbers fail; 0 is none.
pub fn served(
    alloc: Global,
    input: Text,
    piece: usize,
    read_fault: u64,
    write_fault: u64,
) -> Result<(SessionEnd, MemSink), NoMemory>
    requires { 1 ≤ piece }
{
    let mut source = MemSource::new(input, piece, List::from_slice(alloc, &[read_fault])?);
    let mut sink = MemSink::new(alloc, 16_384, List::from_slice(alloc, &[write_fault])?);
    let end = serve_alone(alloc, 7, &mut source, &mut sink);
    Ok((end, sink))
}

/// Whether the input ends so, and these bytes are written, however it is cut.
pub fn gives(
    alloc: Global,
    input: &Text,
    end: SessionEnd,
    output: &[u8],
) -> Result<bool, NoMemory> {
    for piece in [1, 7, 16_384] {
        let (ended, sink) = served(alloc, input.try_clone()?, piece, 0, 0)?;
        if ended != end || sink.written() != output {
            return Ok(false);
        }
    }
    Ok(true)
}

/// Requests in short, and the replies to them.
pub type Worked = (&'static [u8], &'static [u8]);

/// Whether all of these are replied so, each by a connection of its own.
pub fn are_replied(alloc: Global, cases: &[Worked]) -> Result<bool, NoMemory> {
    for (lines, output) in cases {
        let input = requests(alloc, lines)?;
        if !gives(alloc, &input, SessionEnd::Ended, output)? {
            return Ok(false);
        }
    }
    Ok(true)
}
