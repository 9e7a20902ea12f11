//! One request of a pass over a shared store. A search that isn't told to wait runs without the lock, in the set at its look; an addition with
//! CAS chooses its links without the lock. All else is one hold.
ghost use Rattle.std.specs.Prelude.{◌≡◌, ◌≢◌, ◌<◌, ℕ, List, [], ◌∷◌, true, false, length, Err, IfOk};
ghost use Rattle.vs_defs.specs.Answers.{FindsOf};
ghost use Rattle.vs_defs.specs.Bounds.{IsInBounds, IsSearchInBounds};
ghost use Rattle.vs_defs.specs.Memory.{needs_no_memory};
ghost use Rattle.vs_defs.specs.Read.{draws as draws_of};
ghost use Rattle.vs_defs.specs.Reply as outcome;
ghost use Rattle.vs_defs.specs.Request as requests;
ghost use Rattle.vs_thread_defs.specs.Machine.{GraphCall};
ghost use Rattle.vs_command.specs.Answers.{answer_of};
ghost use Rattle.vs_command.specs.Outcomes.{outcome_of};
ghost use Rattle.vs_command.specs.Requests.{request_of, search_of};
ghost use Rattle.vs_command.specs.Scores.{HasScores};
ghost use Rattle.vs_shared.specs.Calls.{IsDoneAtOnce, HasCas};
ghost use Rattle.vs_store.specs.Drafts.{IsPrepared};
ghost use Rattle.vs_session.specs.Shared.{CallsShared, IsApart};

use crate::finishing::Finishing;
use std::alloc::Global;
use std::marker::Brand;
use std::sync::Wait;
use std::sync::ledger::{Blank, Ledger};
use std::thread::Threads;
use vs_command::{Answer, Refusal, Request, Search, draws};
use vs_graph::Steps;
use vs_history::TableName;
use vs_outside::{Gate, NoMemory, Place};
use vs_pass::Pass;
use vs_shared::{Begun, Shared};
use vs_slot::Slot;
use vs_store::{Drafting, Looked, Ready, Store};

// Whether it is never answered out of memory.
fn takes_no_memory(request: &Request) -> bool
    ensures { result ≡ needs_no_memory (request_of request.now) }
{
    match request {
        Request::Ping(text) => text.is_none(),
        Request::Quit
        | Request::Exists(_)
        | Request::Vcard(_)
        | Request::Vdim(_)
        | Request::Vismember { .. } => true,
        Request::Del(_)
        | Request::Vadd(_)
        | Request::Vrem { .. }
        | Request::Vsim(_)
        | Request::Vemb { .. }
        | Request::Vlinks { .. }
        | Request::Vinfo(_)
        | Request::Vgetattr { .. }
        | Request::Vsetattr { .. }
        | Request::Vrandmember { .. } => false,
    }
}

// Whether it is done in one hold, and not a search or an addition that leaves the lock in between.
fn is_done_at_once(request: &Request) -> bool
    ensures at_once { result ≡ true → IsDoneAtOnce (request_of request.now) }
    ensures apart { result ≡ false → IsApart (request_of request.now) }
{
    match request {
        Request::Vsim(search) => search.nothread,
        Request::Vadd(add) => !add.cas,
        Request::Ping(_)
        | Request::Quit
        | Request::Del(_)
        | Request::Exists(_)
        | Request::Vrem { .. }
        | Request::Vcard(_)
        | Request::Vdim(_)
        | Request::Vemb { .. }
        | Request::Vlinks { .. }
        | Request::Vinfo(_)
        | Request::Vgetattr { .. }
        | Request::Vsetattr { .. }
        | Request::Vrandmember { .. }
        | Request::Vismember { .. } => true,
    }
}

// Whether an answer tells of a change: that of a VADD does, and that of a request which counts what it changed.
fn is_change(request: &Request, answer: &Answer) -> bool {
    match request {
        Request::Vadd(_) => true,
        Request::Vrem { .. } | Request::Vsetattr { .. } | Request::Del(_) => {
            !matches!(answer, Answer::Int(0))
        }
        _ => false,
    }
}

// The outcome of a hold, of which the gate is told where it made a change.
fn told<G: Gate>(
    request: &Request,
    outcome: Result<Answer, Refusal>,
    gate: &G,
) -> Result<Answer, Refusal>
    ensures { result ≡ outcome }
{
    if let Ok(answer) = &outcome {
        if is_change(request, answer) {
            gate.at(Place::Committed);
        }
    }
    outcome
}

// A request in one hold.
fn call_at_once<N: TableName, R: Wait, G: Gate>(
    rt: &R,
    shared: &Shared<N>,
    pass: &mut Pass<N>,
    request: &Request,
    words: &[u32],
    slot: &mut Slot,
    gate: &G,
) -> Result<Answer, Refusal>
    requires bounds { IsInBounds (request_of request.now) }
    requires words { length words.now ≡ draws_of (request_of request.now) }
    requires at_once { IsDoneAtOnce (request_of request.now) }
    ensures call { GraphCall N.limits pass.old.number pass.old.seen (request_of request.now) words.now (outcome_of result) pass.new.seen }
    ensures scores { IfOk result HasScores }
    ensures memory { needs_no_memory (request_of request.now) ≡ true → result ≢ Err Refusal.NoMemory }
    ensures number { pass.new.number ≡ pass.old.number }
    ensures stream { pass.new.stream ≡ pass.old.stream }
{
    told(request, shared.now(rt, pass, request, words, slot), gate)
}

// Answers a search in the set at its look. The steps that are counted are nobody's.
fn finish<L: Ledger>(looked: Looked, slot: &mut Slot, blank: Blank) -> Result<Answer, NoMemory>
    requires name { blank.name ≡ L.name }
    requires parts { blank.parts ≡ L.parts }
    requires some { 0 < L.parts }
    ensures found { IfOk result (λ answer. FindsOf looked.search looked.set (answer_of answer)) }
    ensures scores { IfOk result HasScores }
{
    let mut reads = Steps::<L>::new(blank);
    Store::finish(looked, slot, &mut reads)
}

// A search that runs without the lock: by beams, or with TRUTH as the finishing does it.
fn call_search<N: TableName, R: Wait + Finishing, G: Gate>(
    rt: &R,
    shared: &Shared<N>,
    pass: &mut Pass<N>,
    search: &Search,
    slot: &mut Slot,
    gate: &G,
) -> Result<Answer, Refusal>
    requires ready { R.ready rt.now }
    requires bounds { IsSearchInBounds (search_of search.now) }
    ensures call { GraphCall N.limits pass.old.number pass.old.seen (requests.Vsim (search_of search.now)) [] (outcome_of result) pass.new.seen }
    ensures scores { IfOk result HasScores }
    ensures number { pass.new.number ≡ pass.old.number }
    ensures stream { pass.new.stream ≡ pass.old.stream }
{
    let looked = shared.look(rt, pass, search)?;
    gate.at(Place::Looked);
    if search.truth {
        return Ok(rt.finish(looked)?);
    }
    Ok(finish::<Brand>(looked, slot, Blank::new(1))?)
}

// Chooses the links of a draft. The steps that are counted are nobody's.
fn prepare<L: Ledger>(drafting: Drafting, slot: &mut Slot, blank: Blank) -> Result<Ready, NoMemory>
    requires name { blank.name ≡ L.name }
    requires parts { blank.parts ≡ L.parts }
    requires some { 0 < L.parts }
    ensures { IfOk result (λ ready. IsPrepared drafting ready) }
{
    let mut reads = Steps::<L>::new(blank);
    Store::prepare(drafting, slot, &mut reads)
}

// An addition with CAS, whose links are chosen without the lock where it can be drafted.
fn call_addition<N: TableName, R: Wait, G: Gate>(
    rt: &R,
    shared: &Shared<N>,
    pass: &mut Pass<N>,
    request: &Request,
    word: u32,
    slot: &mut Slot,
    gate: &G,
) -> Result<Answer, Refusal>
    requires bounds { IsInBounds (request_of request.now) }
    requires cas { HasCas (request_of request.now) }
    ensures call { GraphCall N.limits pass.old.number pass.old.seen (request_of request.now) (word ∷ []) (outcome_of result) pass.new.seen }
    ensures scores { IfOk result HasScores }
    ensures number { pass.new.number ≡ pass.old.number }
    ensures stream { pass.new.stream ≡ pass.old.stream }
{
    let drafting = match shared.draft(rt, pass, request, word, slot) {
        Ok(Begun::Drafted(drafting)) => drafting,
        Ok(Begun::Done(answer)) => return told(request, Ok(answer), gate),
        Err(refusal) => return Err(refusal),
    };
    gate.at(Place::Drafted);
    let Ok(ready) = prepare::<Brand>(drafting, slot, Blank::new(1)) else {
        return Err(Refusal::NoMemory);
    };
    told(
        request,
        shared.commit(rt, pass, request, word, ready, slot),
        gate,
    )
}

// A request with its drawn words, in a slot.
fn call_in<N: TableName, R: Wait + Finishing, G: Gate>(
    rt: &R,
    shared: &Shared<N>,
    pass: &mut Pass<N>,
    request: &Request,
    words: &[u32],
    slot: &mut Slot,
    gate: &G,
) -> Result<Answer, Refusal>
    requires ready { R.ready rt.now }
    requires bounds { IsInBounds (request_of request.now) }
    requires words { length words.now ≡ draws_of (request_of request.now) }
    ensures call { GraphCall N.limits pass.old.number pass.old.seen (request_of request.now) words.now (outcome_of result) pass.new.seen }
    ensures scores { IfOk result HasScores }
    ensures number { pass.new.number ≡ pass.old.number }
    ensures stream { pass.new.stream ≡ pass.old.stream }
{
    if is_done_at_once(request) {
        return call_at_once(rt, shared, pass, request, words, slot, gate);
    }
    match request {
        Request::Vsim(search) => call_search(rt, shared, pass, search, slot, gate),
        Request::Vadd(_) => call_addition(rt, shared, pass, request, words[0], slot, gate),
        _ => unreachable!(),
    }
}

// There was no memory: nothing is done.
fn starved<N: TableName>(pass: &Pass<N>) -> Refusal
    ensures refusal { result ≡ Refusal.NoMemory }
    ensures call { (r : requests.Request) (words : List ℕ) → GraphCall N.limits pass.now.number pass.now.seen r words outcome.OutOfMemory pass.now.seen }
{
    let _known = pass.known();
    Refusal::NoMemory
}

// The same as `call_shared`, with searches with TRUTH as the finishing does them.
pub(crate) fn call_by<N: TableName, R: Wait + Finishing, G: Gate>(
    rt: &R,
    alloc: Global,
    shared: &Shared<N>,
    pass: &mut Pass<N>,
    request: &Request,
    gate: &G,
) -> Result<Answer, Refusal>
    requires ready { R.ready rt.now }
    requires bounds { IsInBounds (request_of request.now) }
    ensures call { CallsShared N.limits pass.old (request_of request.now) (outcome_of result) pass.new }
    ensures scores { IfOk result HasScores }
    ensures memory { needs_no_memory (request_of request.now) ≡ true → result ≢ Err Refusal.NoMemory }
{
    let Ok(words) = pass.draw(alloc, draws(request)) else {
        return Err(starved(pass));
    };
    if takes_no_memory(request) {
        let mut slot = Slot::new(alloc);
        return call_at_once(rt, shared, pass, request, words.as_slice(), &mut slot, gate);
    }
    let Ok(mut slot) = shared.take_slot(rt) else {
        return Err(starved(pass));
    };
    let outcome = call_in(rt, shared, pass, request, words.as_slice(), &mut slot, gate);
    shared.give_slot(rt, slot);
    outcome
}

/// Carries a request of a pass out, with the next words of the pass's stream, and in a slot of the pool. The gate is called with no lock held.
/// The six requests that need no memory draw no words and take no slot of the pool. A search with TRUTH of a set with many members is shared by
/// several threads. A refusal changes nothing.
#[tactic(auto, using(crate::proofs::Sharing::sharable))]
pub fn call_shared<N: TableName, R: Threads + Wait + Sync, G: Gate>(
    rt: &R,
    alloc: Global,
    shared: &Shared<N>,
    pass: &mut Pass<N>,
    request: &Request,
    gate: &G,
) -> Result<Answer, Refusal>
    requires bounds { IsInBounds (request_of request.now) }
    ensures call { CallsShared N.limits pass.old (request_of request.now) (outcome_of result) pass.new }
    ensures scores { IfOk result HasScores }
    ensures memory { needs_no_memory (request_of request.now) ≡ true → result ≢ Err Refusal.NoMemory }
{
    call_by(rt, alloc, shared, pass, request, gate)
}
