//! A request that is done at once.
use crate::counted::Counted;
use vs_command::{Answer, Refusal, Request};
use vs_pass::Task;
use vs_slot::Slot;

/// Does a request, for the author of that number, with its drawn words.
#[derive(Drop)]
pub(crate) struct Now<'a> {
    pub(crate) author: u64,
    pub(crate) request: &'a Request,
    pub(crate) words: &'a [u32],
    pub(crate) slot: &'a mut Slot,
}

impl<'a> Task<Counted> for Now<'a> {
    ghost use Rattle.std.specs.Prelude.{◌≡◌, length, IfOk};
    ghost use Rattle.vs_defs.specs.Bounds.{IsInBounds};
    ghost use Rattle.vs_defs.specs.Read.{draws};
    ghost use Rattle.vs_thread_defs.specs.Passes.{NowCall};
    ghost use Rattle.vs_command.specs.Outcomes.{outcome_of};
    ghost use Rattle.vs_command.specs.Requests.{request_of};
    ghost use Rattle.vs_command.specs.Scores.{HasScores};
    ghost use Rattle.vs_pass.specs.Task.{at_once};

    type Output = Result<Answer, Refusal>;

    ghost needs = { λ now _ _. IsInBounds (request_of now.request.now) × (length now.words.now ≡ draws (request_of now.request.now)) };

    ghost work = { λ now _ old result new. at_once old (request_of now.request.now) now.words.now (outcome_of result) new };

    ghost call = { λ now limits k s result t. NowCall limits k s (request_of now.request.now) now.words.now (outcome_of result) t × IfOk result HasScores };

    fn run(self, store: &mut Counted, _known: u64) -> Result<Answer, Refusal> {
        let store = &mut store.store;
        store.do_now(self.author, self.request, self.words, self.slot)
    }
}
