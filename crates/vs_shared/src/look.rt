//! A search that looks.
use crate::counted::Counted;
use vs_command::{Refusal, Search};
use vs_pass::Task;
use vs_store::Looked;

/// Takes the set of the search's key as it is.
#[derive(Drop)]
pub(crate) struct Look {
    pub(crate) search: Search,
}

impl Task<Counted> for Look {
    ghost use Rattle.vs_defs.specs.Bounds.{IsSearchInBounds};
    ghost use Rattle.vs_command.specs.Requests.{search_of};
    ghost use Rattle.vs_shared.specs.Calls.{LookAnswers};
    ghost use Rattle.vs_shared.specs.Done.{look_work};

    type Output = Result<Looked, Refusal>;

    ghost needs = { λ look _ _. IsSearchInBounds (search_of look.search) };

    ghost work = { λ look _ old result new. look_work old (search_of look.search) result new };

    ghost call = { λ look limits k s result t. LookAnswers limits k s (search_of look.search) result t };

    fn run(self, store: &mut Counted, _known: u64) -> Result<Looked, Refusal> {
        store.store.look_with(self.search)
    }
}
