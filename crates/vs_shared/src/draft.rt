//! An addition with CAS that is drafted, or done at once where it can't be.
use crate::Begun;
use crate::counted::Counted;
use vs_bits::Add;
use vs_command::{Refusal, Request};
use vs_pass::Task;
use vs_slot::Slot;
use vs_store::Drafting;

/// Drafts an addition, whose copy was taken before, or does its request.
#[derive(Drop)]
pub(crate) struct Draft<'a> {
    pub(crate) author: u64,
    pub(crate) request: &'a Request,
    pub(crate) add: Add,
    pub(crate) word: u32,
    pub(crate) slot: &'a mut Slot,
}

/// What was begun, and the copy of the addition where it wasn't used, which is dropped without the lock.
#[derive(Drop)]
pub(crate) struct DraftOutput {
    pub(crate) begun: Result<Begun, Refusal>,
    pub(crate) unused: Option<Add>,
}

impl<'a> Task<Counted> for Draft<'a> {
    ghost use Rattle.std.specs.Prelude.{◌≡◌, IsTrue, IfOk};
    ghost use Rattle.vs_defs.specs.Bounds.{IsAddInBounds};
    ghost use Rattle.vs_defs.specs.Request.{Vadd};
    ghost use Rattle.vs_bits.specs.Requests.{add_of};
    ghost use Rattle.vs_command.specs.Requests.{request_of};
    ghost use Rattle.vs_shared.specs.Calls.{DraftAnswers, BegunHasScores};
    ghost use Rattle.vs_shared.specs.Done.{draft_work};

    type Output = DraftOutput;

    ghost needs = { λ draft _ _. (request_of draft.request.now ≡ Vadd (add_of draft.add)) × IsAddInBounds (add_of draft.add) × IsTrue draft.add.cas };

    ghost work = { λ draft _ old output new. draft_work old (add_of draft.add) draft.word output.begun new };

    ghost call = { λ draft limits k s output t. DraftAnswers limits k s (add_of draft.add) draft.word output.begun t × IfOk output.begun BegunHasScores };

    fn run(self, store: &mut Counted, _known: u64) -> DraftOutput {
        let store = &mut store.store;
        if store.can_draft(&self.add) {
            return DraftOutput {
                begun: store.draft_with(self.add, self.word).map(Begun::Drafted),
                unused: None,
            };
        }
        DraftOutput {
            begun: store
                .do_now(self.author, self.request, &[self.word], self.slot)
                .map(Begun::Done),
            unused: Some(self.add),
        }
    }
}
