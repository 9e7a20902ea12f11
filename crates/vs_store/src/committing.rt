//! An addition with CAS in three steps: a draft, which takes the set of its key as it is, the choice of its links, which needs no store, and
//! the commit, which runs no beam.
ghost use Rattle.std.specs.Prelude.{◌≡◌, ◌<◌, ◌≤◌, ◌+◌, ◌^◌, ℕ, Bool, Err, IsTrue, true, length, None, Some, IfOk, IfErr, IfSome, OnOk, OnErr, unwrap_or, option_map};
ghost use Rattle.vs_defs.specs.Bounds.{IsAddInBounds};
ghost use Rattle.vs_defs.specs.Counts.{commit_reads};
ghost use Rattle.vs_defs.specs.Good.{GoodStore};
ghost use Rattle.vs_defs.specs.Refuse.{store_refusal};
ghost use Rattle.vs_defs.specs.Request as request;
ghost use Rattle.vs_defs.specs.Stale.{stale_by};
ghost use Rattle.vs_defs.specs.Store.{set_of, plain};
ghost use Rattle.vs_thread_defs.specs.Core.{IsDraftable};
ghost use Rattle.vs_thread_defs.specs.Interleaving.{can_draft_in};
ghost use Rattle.vs_bits.specs.Requests.{add_of};
ghost use Rattle.vs_command.specs.Answers.{answer_of};
ghost use Rattle.vs_command.specs.Refusals.{refusal_of};
ghost use Rattle.vs_command.specs.Scores.{HasScores};
ghost use Rattle.vs_set.specs.Drafted.{Commits, MayCommit as MayCommitDraft};
ghost use Rattle.vs_set.specs.Kept.{IsSound};
ghost use Rattle.vs_store.specs.Causes.{IsCause};
ghost use Rattle.vs_store.specs.Drafts.{IsPrepared, MayCommit, CommitsBy};

use crate::{CommitError, Drafting, Ready, Store};
use std::alloc::AllocError;
use std::sync::ledger::Ledger;
use vs_bits::Add;
use vs_command::{Answer, Refusal, level_of_word};
use vs_graph::{InlineBody, Steps};
use vs_insert::Draft;
use vs_outside::{NoMemory, Text};
use vs_set::{Kept, Set};
use vs_slot::Slot;

/// Adds the member of a draft that isn't stale to a set.
fn commit_to<L: Ledger>(
    set: &mut Set<Kept>,
    draft: Draft,
    text: Option<Text>,
    reads: &mut Steps<L>,
) -> Result<(), NoMemory>
    requires room { length set.old.contents.members < 2 ^ 20 }
    requires fresh { stale_by draft.cut draft.body.name (Some set.old) ≡ None }
    requires may { MayCommitDraft set.old draft }
    ensures committed { OnOk result (Commits draft text set.old set.new) }
    ensures sound { OnOk result (IsSound set.new) }
    ensures told { reads.new ≤ reads.old + commit_reads draft.level set.old.contents.m }
    ensures err { OnErr result (set.new ≡ set.old) }
{
    if set.try_commit(draft, text, reads).is_err() {
        return Err(AllocError);
    }
    let _count = set.count();
    Ok(())
}

impl Store {
    /// Whether the key is there and the name is no member. It takes no memory.
    pub fn can_draft(&self, add: &Add) -> bool
        ensures { result ≡ can_draft_in (add_of add.now) (set_of add.now.key self.now) }
    {
        match self.set_at(add.key.as_slice()) {
            None => false,
            Some(set) => !set.has(add.name.as_slice()),
        }
    }

    /// Drafts an addition: takes the set of its key as it is. The addition is copied.
    pub fn draft(&self, add: &Add, word: u32) -> Result<Drafting, Refusal>
        requires bounds { IsAddInBounds (add_of add.now) }
        requires cas { IsTrue add.now.cas }
        requires may { can_draft_in (add_of add.now) (set_of add.now.key self.now) ≡ true }
        ensures add { IfOk result (λ d. d.add ≡ add_of add.now) }
        ensures drawn { IfOk result (λ d. d.drawn ≡ word) }
        ensures set { IfOk result (λ d. set_of add.now.key self.now ≡ Some d.set) }
        ensures draftable { IfOk result (λ d. IsDraftable d.set d.add) }
        ensures unrefused { IfOk result (λ d. store_refusal (plain self.now) (request.Vadd (add_of add.now)) ≡ None) }
        ensures refused { IfErr result (λ e. IfSome (refusal_of e) (λ cause. store_refusal (plain self.now) (request.Vadd (add_of add.now)) ≡ Some cause)) }
    {
        self.draft_with(add.try_clone()?, word)
    }

    /// The same with an addition that is given up. Besides the snapshot it takes no memory.
    pub fn draft_with(&self, add: Add, word: u32) -> Result<Drafting, Refusal>
        requires bounds { IsAddInBounds (add_of add) }
        requires cas { IsTrue add.cas }
        requires may { can_draft_in (add_of add) (set_of add.key self.now) ≡ true }
        ensures add { IfOk result (λ d. d.add ≡ add_of add) }
        ensures drawn { IfOk result (λ d. d.drawn ≡ word) }
        ensures set { IfOk result (λ d. set_of add.key self.now ≡ Some d.set) }
        ensures draftable { IfOk result (λ d. IsDraftable d.set d.add) }
        ensures unrefused { IfOk result (λ d. store_refusal (plain self.now) (request.Vadd (add_of add)) ≡ None) }
        ensures refused { IfErr result (λ e. IfSome (refusal_of e) (λ cause. store_refusal (plain self.now) (request.Vadd (add_of add)) ≡ Some cause)) }
    {
        let Some(set) = self.set_at(add.key.as_slice()) else {
            unreachable!()
        };
        self.number_to_add(set, &add)?;
        let snap = set.snapshot()?;
        Ok(Drafting {
            alloc: self.alloc,
            add,
            word,
            set: snap,
        })
    }

    /// Chooses whom a drafted addition's member is to be linked to, in the set at the draft.
    pub fn prepare<L: Ledger>(
        drafting: Drafting,
        slot: &mut Slot,
        reads: &mut Steps<L>,
    ) -> Result<Ready, NoMemory>
        ensures { IfOk result (λ ready. IsPrepared drafting ready) }
    {
        let Drafting {
            alloc,
            add,
            word,
            set,
        } = drafting;
        let body = InlineBody::new(alloc, add.name.as_slice(), add.bits.words())?;
        let draft = set.prepare(body, level_of_word(word), add.ef, slot, reads)?;
        Ok(Ready { add, word, draft })
    }

    /// What a commit would report where it is stale: the cut of the key's set, 0 where the key is gone, and whether the name is a member.
    /// `None` where it isn't stale. It takes no memory.
    pub fn stale(&self, ready: &Ready) -> Option<(u64, bool)>
        ensures { result ≡ stale_by ready.now.cut ready.now.add.name (set_of ready.now.add.key self.now) }
    {
        match self.set_at(ready.add.key.as_slice()) {
            None => Some((0, false)),
            Some(set) => {
                let taken = set.has(ready.add.name.as_slice());
                if ready.draft.cut != set.cut() || taken {
                    Some((set.cut(), taken))
                } else {
                    None
                }
            }
        }
    }

    /// Whether a ready addition that isn't stale is refused: the first cause why.
    pub(crate) fn check_fresh(&self, ready: &Ready) -> Result<(), Refusal>
        requires { stale_by ready.now.cut ready.now.add.name (set_of ready.now.add.key self.now) ≡ None }
        ensures unrefused { OnOk result (store_refusal (plain self.now) (request.Vadd ready.now.add) ≡ None) }
        ensures refused { IfErr result (λ e. IsCause e (store_refusal (plain self.now) (request.Vadd ready.now.add))) }
    {
        let Some(set) = self.set_at(ready.add.key.as_slice()) else {
            unreachable!()
        };
        self.number_to_add(set, &ready.add)?;
        Ok(())
    }

    /// Commits a ready addition that is neither stale nor refused.
    fn commit_fresh<L: Ledger>(
        &mut self,
        ready: Ready,
        reads: &mut Steps<L>,
    ) -> Result<Answer, NoMemory>
        requires fresh { stale_by ready.cut ready.add.name (set_of ready.add.key self.old) ≡ None }
        requires unrefused { store_refusal (plain self.old) (request.Vadd ready.add) ≡ None }
        requires may { MayCommit self.old ready }
        ensures committed { IfOk result (λ answer. CommitsBy ready self.old (answer_of answer) self.new) }
        ensures scores { IfOk result HasScores }
        ensures good { GoodStore self.new }
        ensures told { reads.new ≤ reads.old + unwrap_or (option_map (λ x. commit_reads ready.level x.contents.m) (set_of ready.add.key self.old)) 0 }
        ensures err { OnErr result (self.new ≡ self.old) }
    {
        let Ready { add, draft, .. } = ready;
        let Some(place) = self.place_of(add.key.as_slice()) else {
            unreachable!()
        };
        commit_to(&mut self.sets[place], draft, add.attr, reads)?;
        self.members += 1;
        self.changes += 1;
        Ok(Answer::Int(1))
    }

    /// Commits a ready addition, by no search. Where it is stale or refused, or there is no memory, the store is as it was.
    pub fn commit<L: Ledger>(
        &mut self,
        _author: u64,
        ready: Ready,
        reads: &mut Steps<L>,
    ) -> Result<Answer, CommitError>
        requires may { MayCommit self.old ready }
        ensures committed { IfOk result (λ answer. CommitsBy ready self.old (answer_of answer) self.new) }
        ensures fresh { IfOk result (λ answer. stale_by ready.cut ready.add.name (set_of ready.add.key self.old) ≡ None) }
        ensures stale { (cut_now : ℕ) (taken : Bool) → result ≡ Err (CommitError.Stale cut_now taken) → stale_by ready.cut ready.add.name (set_of ready.add.key self.old) ≡ Some (cut_now, taken) }
        ensures refused { (e : Refusal) → result ≡ Err (CommitError.Refused e) → (stale_by ready.cut ready.add.name (set_of ready.add.key self.old) ≡ None) × IfSome (refusal_of e) (λ cause. store_refusal (plain self.old) (request.Vadd ready.add) ≡ Some cause) }
        ensures memory { result ≡ Err CommitError.NoMemory → stale_by ready.cut ready.add.name (set_of ready.add.key self.old) ≡ None }
        ensures scores { IfOk result HasScores }
        ensures good { GoodStore self.new }
        ensures told { reads.new ≤ reads.old + unwrap_or (option_map (λ x. commit_reads ready.level x.contents.m) (set_of ready.add.key self.old)) 0 }
        ensures err { OnErr result (self.new ≡ self.old) }
    {
        let _changes = self.changes();
        if let Some((cut_now, taken)) = self.stale(&ready) {
            return Err(CommitError::Stale { cut_now, taken });
        }
        if let Err(refusal) = self.check_fresh(&ready) {
            return Err(CommitError::Refused(refusal));
        }
        match self.commit_fresh(ready, reads) {
            Ok(answer) => Ok(answer),
            Err(_) => Err(CommitError::NoMemory),
        }
    }
}
