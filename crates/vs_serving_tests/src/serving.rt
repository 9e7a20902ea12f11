//! A connection in memory, by a pass over a shared store.
use std::alloc::Global;
use std::process::Abort;
use std::sync::Wait;
use std::thread::Threads;
use vs_connection::SessionEnd;
use vs_history::TableName;
use vs_outside::{Gate, List, MemSink, MemSource, NoMemory, Text};
use vs_pass::Pass;
use vs_session::serve_connection;
use vs_shared::Shared;

/// What is written for an input that ends after a whole message.
pub fn written<N: TableName, R: Threads + Wait + Abort + Sync, G: Gate>(
    rt: &R,
    alloc: Global,
    shared: &Shared<N>,
    pass: &mut Pass<N>,
    input: Text,
    gate: &G,
) -> Result<Text, NoMemory> {
    let mut source = MemSource::new(input, 16_384, List::new(alloc));
    let mut sink = MemSink::new(alloc, 16_384, List::new(alloc));
    let end = serve_connection(rt, alloc, shared, pass, &mut source, &mut sink, gate);
    assert!(rt; end == SessionEnd::Ended);
    Text::from_slice(alloc, sink.written())
}

/// Whether these lines are answered so.
pub fn is_answered<N: TableName, R: Threads + Wait + Abort + Sync, G: Gate>(
    rt: &R,
    alloc: Global,
    shared: &Shared<N>,
    pass: &mut Pass<N>,
    lines: &[u8],
    replies: &[u8],
    gate: &G,
) -> bool {
    let Ok(input) = Text::from_slice(alloc, lines) else {
        return false;
    };
    match written(rt, alloc, shared, pass, input, gate) {
        Ok(output) => output.as_slice() == replies,
        Err(_) => false,
    }
}
