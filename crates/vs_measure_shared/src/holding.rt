//! Requests by one pass: in one hold of the lock, or in two with a preparation in between.
ghost use Rattle.std.specs.Prelude.{◌≡◌, ◌<◌, length, true, IfOk};
ghost use Rattle.vs_defs.specs.Bounds.{IsInBounds};
ghost use Rattle.vs_defs.specs.Request as requests;
ghost use Rattle.vs_command.specs.Requests.{request_of};
ghost use Rattle.vs_store.specs.Drafts.{IsPrepared};
ghost use Rattle.vs_shared.specs.Calls.{IsDoneAtOnce, IsReadyAfter};

use crate::error::MeasureError;
use std::marker::Brand;
use std::sync::Wait;
use std::sync::ledger::{Blank, Ledger};
use std::time::CpuClock;
use vs_command::{Answer, Request, draws};
use vs_graph::Steps;
use vs_history::TableName;
use vs_outside::NoMemory;
use vs_pass::Pass;
use vs_shared::{Begun, Shared};
use vs_slot::Slot;
use vs_store::{Drafting, Ready, Store};

// Whether it is done in one hold.
fn is_done_at_once(request: &Request) -> bool
    ensures { result ≡ true → IsDoneAtOnce (request_of request.now) }
{
    match request {
        Request::Vsim(search) => search.nothread,
        Request::Vadd(add) => !add.cas,
        _ => true,
    }
}

/// Does a request in one hold, with its drawn words.
pub fn now<N: TableName, R: Wait>(
    rt: &R,
    shared: &Shared<N>,
    pass: &mut Pass<N>,
    request: &Request,
    words: &[u32],
    slot: &mut Slot,
) -> Result<Answer, MeasureError>
    requires { IsInBounds (request_of request.now) }
{
    if !is_done_at_once(request) || words.len() != draws(request) as usize {
        return Err(MeasureError::Refused);
    }
    match shared.now(rt, pass, request, words, slot) {
        Ok(answer) => Ok(answer),
        Err(_) => Err(MeasureError::Refused),
    }
}

// Chooses the links of a draft. The steps that are counted are nobody's.
fn prepare<L: Ledger>(drafting: Drafting, slot: &mut Slot, blank: Blank) -> Result<Ready, NoMemory>
    requires name { blank.name ≡ L.name }
    requires parts { blank.parts ≡ L.parts }
    requires some { 0 < L.parts }
    ensures { IfOk result (λ ready. IsPrepared drafting ready) }
{
    let mut reads = Steps::<L>::new(blank);
    Store::prepare(drafting, slot, &mut reads)
}

/// The nanoseconds of the steps of one addition.
#[derive(Clone, Copy, Debug, PartialEq, Eq)]
pub struct Spans {
    pub draft: u128,
    pub prepare: u128,
    pub commit: u128,
}

/// An addition with CAS that was drafted and prepared, and the nanoseconds that this took.
#[derive(Drop)]
struct Prepared {
    ready: Ready,
    draft: u128,
    prepare: u128,
}

/// Drafts an addition and prepares its draft.
fn drafted<N: TableName, R: Wait + CpuClock>(
    rt: &R,
    shared: &Shared<N>,
    pass: &mut Pass<N>,
    request: &Request,
    word: u32,
    slot: &mut Slot,
) -> anyhow::Result<Prepared>
    requires bounds { IsInBounds (request_of request.now) }
    ensures ready { IfOk result (λ p. IsReadyAfter N.limits pass.new.seen p.ready) }
    ensures request { IfOk result (λ p. request_of request.now ≡ requests.Vadd p.ready.add) }
    ensures word { IfOk result (λ p. word ≡ p.ready.drawn) }
{
    let Request::Vadd(add) = request else {
        return Err(MeasureError::Refused.into());
    };
    if !add.cas {
        return Err(MeasureError::Refused.into());
    }
    let start = rt.thread_cpu_time()?;
    let Ok(Begun::Drafted(drafting)) = shared.draft(rt, pass, request, word, slot) else {
        return Err(MeasureError::Refused.into());
    };
    let middle = rt.thread_cpu_time()?;
    let ready = prepare::<Brand>(drafting, slot, Blank::new(1))?;
    let end = rt.thread_cpu_time()?;
    Ok(Prepared {
        ready,
        draft: middle.saturating_sub(start).as_nanos(),
        prepare: end.saturating_sub(middle).as_nanos(),
    })
}

/// Does an addition with CAS in its three steps.
pub fn add_in_steps<N: TableName, R: Wait + CpuClock>(
    rt: &R,
    shared: &Shared<N>,
    pass: &mut Pass<N>,
    request: &Request,
    word: u32,
    slot: &mut Slot,
) -> anyhow::Result<Spans>
    requires { IsInBounds (request_of request.now) }
{
    let Prepared {
        ready,
        draft,
        prepare,
    } = drafted(rt, shared, pass, request, word, slot)?;
    let start = rt.thread_cpu_time()?;
    let answer = shared.commit(rt, pass, request, word, ready, slot);
    let commit = rt.thread_cpu_time()?.saturating_sub(start).as_nanos();
    match answer {
        Ok(Answer::Int(1)) => Ok(Spans {
            draft,
            prepare,
            commit,
        }),
        _ => Err(MeasureError::Refused.into()),
    }
}

/// Does an addition in one hold, and answers its nanoseconds.
pub fn add_at_once<N: TableName, R: Wait + CpuClock>(
    rt: &R,
    shared: &Shared<N>,
    pass: &mut Pass<N>,
    request: &Request,
    word: u32,
    slot: &mut Slot,
) -> anyhow::Result<u128>
    requires { IsInBounds (request_of request.now) }
{
    let start = rt.thread_cpu_time()?;
    let answer = now(rt, shared, pass, request, &[word], slot);
    let nanos = rt.thread_cpu_time()?.saturating_sub(start).as_nanos();
    match answer {
        Ok(Answer::Int(1)) => Ok(nanos),
        _ => Err(MeasureError::Refused.into()),
    }
}
