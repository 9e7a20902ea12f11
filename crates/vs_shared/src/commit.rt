//! A ready addition that is committed, or whose request is done again where it is stale.
ghost use Rattle.std.specs.Prelude.{◌≡◌, ◌<◌, None, IfOk};
ghost use Rattle.vs_defs.specs.Stale.{stale_by};
ghost use Rattle.vs_defs.specs.Store.{set_of};
ghost use Rattle.vs_command.specs.Outcomes.{outcome_of};
ghost use Rattle.vs_command.specs.Scores.{HasScores};
ghost use Rattle.vs_store.specs.Drafts.{MayCommit};
ghost use Rattle.vs_shared.specs.Done.{CommitsReady};

use crate::counted::Counted;
use std::marker::Brand;
use std::sync::ledger::{Blank, Ledger};
use vs_command::{Answer, Refusal, Request};
use vs_graph::Steps;
use vs_pass::Task;
use vs_slot::Slot;
use vs_store::{CommitError, Ready, Store};
use vs_thread_defs::draft_laws;

/// Commits a ready addition of the request, or does the request again.
#[derive(Drop)]
pub(crate) struct Commit<'a> {
    pub(crate) author: u64,
    pub(crate) request: &'a Request,
    pub(crate) ready: Ready,
    pub(crate) word: u32,
    pub(crate) slot: &'a mut Slot,
}

/// The outcome, and the ready addition where it was stale, which is dropped without the lock.
#[derive(Drop)]
pub(crate) struct CommitOutput {
    pub(crate) outcome: Result<Answer, Refusal>,
    pub(crate) stale: Option<Ready>,
}

impl<'a> Task<Counted> for Commit<'a> {
    ghost use Rattle.std.specs.Prelude.{◌≡◌, IfOk};
    ghost use Rattle.vs_defs.specs.Bounds.{IsAddInBounds};
    ghost use Rattle.vs_defs.specs.Request.{Vadd};
    ghost use Rattle.vs_thread_defs.specs.Passes.{CommitCall};
    ghost use Rattle.vs_command.specs.Outcomes.{outcome_of};
    ghost use Rattle.vs_command.specs.Requests.{request_of};
    ghost use Rattle.vs_command.specs.Scores.{HasScores};
    ghost use Rattle.vs_shared.specs.Calls.{IsReadyAfter, prepared_after};
    ghost use Rattle.vs_shared.specs.Done.{commit_work};

    type Output = CommitOutput;

    ghost needs = { λ commit limits s. (request_of commit.request.now ≡ Vadd commit.ready.add) × (commit.word ≡ commit.ready.drawn) × IsAddInBounds commit.ready.add × IsReadyAfter limits s commit.ready };

    ghost work = { λ commit known old output new. commit_work commit.ready known old (outcome_of output.outcome) new };

    ghost call = { λ commit limits k s output t. CommitCall limits k s commit.ready.add commit.ready.drawn (prepared_after s commit.ready) (outcome_of output.outcome) t × IfOk output.outcome HasScores };

    fn run(self, store: &mut Counted, _known: u64) -> CommitOutput {
        draft_laws();
        let store = &mut store.store;
        if store.stale(&self.ready).is_some() {
            return CommitOutput {
                outcome: store.do_now(self.author, self.request, &[self.word], self.slot),
                stale: Some(self.ready),
            };
        }
        CommitOutput {
            outcome: commit_fresh::<Brand>(store, self.author, self.ready, Blank::new(1)),
            stale: None,
        }
    }
}

// Commits a ready addition that isn't stale. The steps that are counted are nobody's.
fn commit_fresh<L: Ledger>(
    store: &mut Store,
    author: u64,
    ready: Ready,
    blank: Blank,
) -> Result<Answer, Refusal>
    requires name { blank.name ≡ L.name }
    requires parts { blank.parts ≡ L.parts }
    requires some { 0 < L.parts }
    requires may { MayCommit store.old ready }
    requires fresh { stale_by ready.cut ready.add.name (set_of ready.add.key store.old) ≡ None }
    ensures commits { CommitsReady ready store.old (outcome_of result) store.new }
    ensures scores { IfOk result HasScores }
{
    let mut reads = Steps::<L>::new(blank);
    match store.commit(author, ready, &mut reads) {
        Ok(answer) => Ok(answer),
        Err(CommitError::NoMemory) => Err(Refusal::NoMemory),
        Err(CommitError::Refused(refusal)) => Err(refusal),
        Err(CommitError::Stale { .. }) => unreachable!(),
    }
}
