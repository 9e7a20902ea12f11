//! A schedule, from its first byte to its end.
ghost use Rattle.std.specs.Prelude.{◌≡◌, ◌≢◌, ◌<◌, ◌↔◌, IfOk, length, vec_len};
ghost use Rattle.vs_defs.specs.Bytes.{Bytes};
ghost use Rattle.vs_outside.specs.Known.{Adds, in_front, NothingLeft};
ghost use Rattle.vs_schedule.specs.Ends.{EndsWith};

use crate::ScheduleEnd;
use crate::runner::Runner;
use std::alloc::Global;
use vs_outside::{NoMemory, Sink, Source, Took};

const SPENT: u64 = 1 << 62;

// Runs a schedule through this buffer.
fn run_with<S: Source, K: Sink>(
    alloc: Global,
    buffer: &mut [u8],
    source: &mut S,
    sink: &mut K,
) -> ScheduleEnd
    requires some { 0 < length buffer.old }
    requires few { length buffer.old < 65536 }
    ensures schedule { (input : Bytes) × (output : Bytes) × (S.left source.old ≡ in_front input (S.left source.new))
        × Adds (K.written sink.old) output (K.written sink.new) × EndsWith result input output }
    ensures end { result ≡ ScheduleEnd.Ended → NothingLeft (S.left source.new) }
    ensures read_fault { result ≡ ScheduleEnd.ReadFault → S.faults source.old < S.faults source.new }
    ensures write_fault { result ≡ ScheduleEnd.WriteFault → K.faults sink.old < K.faults sink.new }
    ensures unfailed_read { result ≢ ScheduleEnd.ReadFault → S.faults source.new ≡ S.faults source.old }
    ensures unfailed_write { result ≢ ScheduleEnd.WriteFault → K.faults sink.new ≡ K.faults sink.old }
{
    let mut runner = Runner::new(alloc);
    let mut taken: u64 = 0;
    while taken < SPENT {
        let n = match source.read(buffer) {
            Took::Bytes(n) => n,
            Took::Failed => return ScheduleEnd::ReadFault,
            Took::End => return runner.finish(sink),
        };
        taken += n as u64;
        if let Some(end) = runner.take(&buffer[..n], sink) {
            return end;
        }
    }
    ScheduleEnd::Spent
}

fn make_room(alloc: Global, size: usize) -> Result<Vec<u8>, NoMemory>
    ensures { IfOk result (λ room. vec_len room ≡ size) }
{
    vec![in alloc; 0u8; size]
}

/// Runs a schedule over a store of its own, whose limits the first line may name. The first failed read or write ends the run.
///
/// No clause says when it reads: it reads no more before each line that it has whole is answered, and what it prints is written whole.
pub fn run_schedule<S: Source, K: Sink>(alloc: Global, source: &mut S, sink: &mut K) -> ScheduleEnd
    ensures schedule { (input : Bytes) × (output : Bytes) × (S.left source.old ≡ in_front input (S.left source.new))
        × Adds (K.written sink.old) output (K.written sink.new) × EndsWith result input output }
    ensures end { result ≡ ScheduleEnd.Ended → NothingLeft (S.left source.new) }
    ensures read_fault { (result ≡ ScheduleEnd.ReadFault) ↔ (S.faults source.old < S.faults source.new) }
    ensures write_fault { (result ≡ ScheduleEnd.WriteFault) ↔ (K.faults sink.old < K.faults sink.new) }
{
    match make_room(alloc, 16_384) {
        Ok(mut room) => run_with(alloc, &mut room, source, sink),
        Err(_) => ScheduleEnd::NoMemory,
    }
}
