//! A schedule between a source and a sink in memory.
ghost use Rattle.std.specs.Prelude.{◌≤◌};

use std::alloc::Global;
use vs_outside::{List, MemSink, MemSource, NoMemory, Text};
use vs_schedule::{ScheduleEnd, run_schedule};

/// The end, and what was written, where the source gives pieces of this size. The calls of these numbers fail; 0 is none.
pub fn ran(
    alloc: Global,
    input: Text,
    piece: usize,
    read_fault: u64,
    write_fault: u64,
) -> Result<(ScheduleEnd, MemSink), NoMemory>
    requires { 1 ≤ piece }
{
    let mut source = MemSource::new(input, piece, List::from_slice(alloc, &[read_fault])?);
    let mut sink = MemSink::new(alloc, 16_384, List::from_slice(alloc, &[write_fault])?);
    let end = run_schedule(alloc, &mut source, &mut sink);
    Ok((end, sink))
}

/// Whether the input ends so, and these bytes are written, however it is cut.
pub fn gives(
    alloc: Global,
    input: &Text,
    end: ScheduleEnd,
    output: &[u8],
) -> Result<bool, NoMemory> {
    for piece in [1, 7, 16_384] {
        let (ended, sink) = ran(alloc, input.try_clone()?, piece, 0, 0)?;
        if ended != end || sink.written() != output {
            return Ok(false);
        }
    }
    Ok(true)
}

/// A schedule, and what it prints.
pub type Worked = (&'static [u8], &'static [u8]);

/// Whether all of these are run to their ends, and print this.
pub fn are_printed(alloc: Global, cases: &[Worked]) -> Result<bool, NoMemory> {
    for (input, output) in cases {
        let input = Text::from_slice(alloc, input)?;
        if !gives(alloc, &input, ScheduleEnd::Ended, output)? {
            return Ok(false);
        }
    }
    Ok(true)
}
