//! Requests by their words, carried out by a pass.
ghost use Rattle.std.specs.Prelude.{IsTrue, IfOk};
ghost use Rattle.vs_defs.specs.Bounds.{IsInBounds};
ghost use Rattle.vs_command.specs.Readings.{AreShort};
ghost use Rattle.vs_command.specs.Requests.{request_of};

use std::alloc::Global;
use std::process::Abort;
use std::sync::Wait;
use std::thread::Threads;
use vs_command::{Answer, Refusal, Request, read_request};
use vs_history::TableName;
use vs_outside::{List, NoGate, NoMemory, Text};
use vs_pass::Pass;
use vs_session::call_shared;
use vs_shared::Shared;

fn are_short(words: &[Text]) -> bool
    ensures { IsTrue result → AreShort words.now }
{
    words.len() < 4294967296 && words.iter().all(|word| word.len() < 4294967296)
}

// The request of a line.
fn request(rt: &impl Abort, alloc: Global, line: &str) -> Result<Request, NoMemory>
    ensures { IfOk result (λ r. IsInBounds (request_of r)) }
{
    let mut words = List::new(alloc);
    for word in line.split(' ') {
        words.push(Text::from_slice(alloc, word.as_bytes())?)?;
    }
    assert!(rt; words.len() > 0);
    assert!(rt; are_short(words.as_slice()));
    match read_request(alloc, words.as_slice()) {
        Ok(request) => Ok(request),
        Err(refusal) => panic!(rt; "{line}: {refusal:?}"),
    }
}

/// What a pass is answered to a line.
pub fn answered<N: TableName, R: Threads + Wait + Abort + Sync>(
    rt: &R,
    alloc: Global,
    shared: &Shared<N>,
    pass: &mut Pass<N>,
    line: &str,
) -> Result<Result<Answer, Refusal>, NoMemory> {
    let request = request(rt, alloc, line)?;
    Ok(call_shared(rt, alloc, shared, pass, &request, &NoGate))
}
