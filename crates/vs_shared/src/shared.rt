//! The store behind its lock, the calls of its passes, and the pool of slots.
ghost use Rattle.std.specs.Prelude.{◌≡◌, ◌≢◌, ◌≤◌, true, false, length, Err, List, ℕ, IfOk};
ghost use Rattle.vs_defs.specs.Bounds.{IsInBounds, IsSearchInBounds};
ghost use Rattle.vs_defs.specs.History.{own};
ghost use Rattle.vs_defs.specs.Memory.{needs_no_memory};
ghost use Rattle.vs_defs.specs.Read.{draws};
ghost use Rattle.vs_defs.specs.Request as requests;
ghost use Rattle.vs_thread_defs.specs.Passes.{NowCall, DraftCall, CommitCall};
ghost use Rattle.vs_thread_defs.specs.Passes as begun;
ghost use Rattle.vs_command.specs.Outcomes.{outcome_of, refused_by};
ghost use Rattle.vs_command.specs.Refusals.{refusal_of};
ghost use Rattle.vs_command.specs.Requests.{request_of, search_of};
ghost use Rattle.vs_command.specs.Scores.{HasScores};
ghost use Rattle.vs_pass.specs.Knower.{Meets};
ghost use Rattle.vs_shared.specs.Calls.{IsDoneAtOnce, HasCas, LookAnswers, DraftAnswers, BegunHasScores, IsReadyAfter, prepared_after};

use crate::Begun;
use crate::commit::Commit;
use crate::counted::Counted;
use crate::draft::Draft;
use crate::look::Look;
use crate::now::Now;
use crossbeam_queue::ArrayQueue;
use std::alloc::Global;
use std::sync::{Mutex, Wait};
use vs_command::{Answer, Refusal, Request, Search};
use vs_history::{TableName, Word};
use vs_outside::NoMemory;
use vs_pass::{Desk, Pass};
use vs_slot::Slot;
use vs_store::{Looked, Ready};

/// A store that passes share, and a pool of slots. Each of `now`, `look`, `draft` and `commit` is one hold of the lock.
#[derive(Drop)]
pub struct Shared<N: TableName> {
    alloc: Global,
    word: Word<N>,
    desk: Mutex<Desk<N, Counted>>,
    slots: ArrayQueue<Slot>,
}

impl<N: TableName> Shared<N> {
    // The desk behind a lock, and a pool for at most so many slots, with none in it.
    pub(crate) fn new(
        alloc: Global,
        word: Word<N>,
        desk: Desk<N, Counted>,
        slots: u32,
    ) -> Result<Shared<N>, NoMemory>
        requires { 1 ≤ slots }
    {
        Ok(Shared {
            alloc,
            word,
            desk: Mutex::new(desk),
            slots: ArrayQueue::new(alloc, slots as usize)?,
        })
    }

    /// A slot of the pool, or a new one where the pool gives none. It waits for no slot.
    pub fn take_slot<R: Wait>(&self, rt: &R) -> Result<Slot, NoMemory> {
        match self.slots.pop(rt) {
            Some(slot) => Ok(slot),
            None => Ok(Slot::new(self.alloc)),
        }
    }

    /// Puts a slot into the pool, or drops it where the pool is full.
    pub fn give_slot<R: Wait>(&self, rt: &R, slot: Slot) {
        if let Err(slot) = self.slots.push(rt, slot) {
            drop(slot);
        }
    }

    /// Does a request at once, with its drawn words.
    pub fn now<R: Wait>(
        &self,
        rt: &R,
        pass: &mut Pass<N>,
        request: &Request,
        words: &[u32],
        slot: &mut Slot,
    ) -> Result<Answer, Refusal>
        requires bounds { IsInBounds (request_of request.now) }
        requires words { length words.now ≡ draws (request_of request.now) }
        requires at_once { IsDoneAtOnce (request_of request.now) }
        ensures call { NowCall N.limits pass.old.number pass.old.seen (request_of request.now) words.now (outcome_of result) pass.new.seen }
        ensures scores { IfOk result HasScores }
        ensures memory { needs_no_memory (request_of request.now) ≡ true → result ≢ Err Refusal.NoMemory }
        ensures number { pass.new.number ≡ pass.old.number }
        ensures stream { pass.new.stream ≡ pass.old.stream }
    {
        let task = Now {
            author: pass.number(),
            request,
            words,
            slot,
        };
        self.desk.lock(rt).hold(&self.word, pass, task)
    }

    /// Takes the set of a search's key as it is, or notes that the key is absent. The search is copied before the lock is taken.
    pub fn look<R: Wait>(
        &self,
        rt: &R,
        pass: &mut Pass<N>,
        search: &Search,
    ) -> Result<Looked, Refusal>
        requires bounds { IsSearchInBounds (search_of search.now) }
        ensures call { LookAnswers N.limits pass.old.number pass.old.seen (search_of search.now) result pass.new.seen }
        ensures number { pass.new.number ≡ pass.old.number }
        ensures stream { pass.new.stream ≡ pass.old.stream }
    {
        let Ok(search) = search.try_clone(self.alloc) else {
            return Err(starved(pass));
        };
        let task = Look { search };
        self.desk.lock(rt).hold(&self.word, pass, task)
    }

    /// Drafts an addition with CAS, where its key is there and its name is no member, and else does it at once, with its drawn word. It is
    /// copied before the lock is taken.
    pub fn draft<R: Wait>(
        &self,
        rt: &R,
        pass: &mut Pass<N>,
        request: &Request,
        word: u32,
        slot: &mut Slot,
    ) -> Result<Begun, Refusal>
        requires bounds { IsInBounds (request_of request.now) }
        requires cas { HasCas (request_of request.now) }
        ensures call { (add : requests.Add) → request_of request.now ≡ requests.Vadd add → DraftAnswers N.limits pass.old.number pass.old.seen add word result pass.new.seen }
        ensures scores { IfOk result BegunHasScores }
        ensures number { pass.new.number ≡ pass.old.number }
        ensures stream { pass.new.stream ≡ pass.old.stream }
    {
        let Request::Vadd(add) = request else {
            unreachable!()
        };
        let Ok(add) = add.try_clone() else {
            return Err(starved(pass));
        };
        let task = Draft {
            author: pass.number(),
            request,
            add,
            word,
            slot,
        };
        let output = self.desk.lock(rt).hold(&self.word, pass, task);
        output.begun
    }

    /// Commits a ready addition of the request, whose draft its pass made last. A stale one's request is done in the same hold, with the
    /// drawn word.
    pub fn commit<R: Wait>(
        &self,
        rt: &R,
        pass: &mut Pass<N>,
        request: &Request,
        word: u32,
        ready: Ready,
        slot: &mut Slot,
    ) -> Result<Answer, Refusal>
        requires bounds { IsInBounds (request_of request.now) }
        requires request { request_of request.now ≡ requests.Vadd ready.add }
        requires word { word ≡ ready.drawn }
        requires ready { IsReadyAfter N.limits pass.old.seen ready }
        ensures call { CommitCall N.limits pass.old.number pass.old.seen ready.add word (prepared_after pass.old.seen ready) (outcome_of result) pass.new.seen }
        ensures scores { IfOk result HasScores }
        ensures number { pass.new.number ≡ pass.old.number }
        ensures stream { pass.new.stream ≡ pass.old.stream }
    {
        let task = Commit {
            author: pass.number(),
            request,
            ready,
            word,
            slot,
        };
        let output = self.desk.lock(rt).hold(&self.word, pass, task);
        output.outcome
    }

    /// Two passes meet: one of their lists begins the other, and both have then seen the longer. Nobody waits.
    pub fn meet(&self, one: &mut Pass<N>, other: &mut Pass<N>)
        ensures one { Meets one.old.seen other.old.seen one.new.seen }
        ensures other { Meets one.old.seen other.old.seen other.new.seen }
        ensures own_one { own one.old.number one.new.seen ≡ own one.old.number one.old.seen }
        ensures own_other { own other.old.number other.new.seen ≡ own other.old.number other.old.seen }
        ensures numbers { (one.new.number ≡ one.old.number) × (other.new.number ≡ other.old.number) }
        ensures streams { (one.new.stream ≡ one.old.stream) × (other.new.stream ≡ other.old.stream) }
    {
        Pass::meet(&self.word, one, other);
    }

    /// Ends a pass. The lists of the others stay.
    pub fn end<R: Wait>(&self, rt: &R, pass: Pass<N>) {
        self.desk.lock(rt).end(&self.word, pass);
    }
}

// Memory ran out before the hold: nothing is done, and the pass has seen what it had.
fn starved<N: TableName>(pass: &Pass<N>) -> Refusal
    ensures now { (r : requests.Request) (words : List ℕ) → needs_no_memory r ≡ false → NowCall N.limits pass.now.number pass.now.seen r words (refused_by (refusal_of result)) pass.now.seen }
    ensures draft { (add : requests.Add) (drawn : ℕ) → DraftCall N.limits pass.now.number pass.now.seen add drawn (begun.Done (refused_by (refusal_of result))) pass.now.seen }
{
    let _known = pass.known();
    Refusal::NoMemory
}
