//! A search in two steps: a look, which takes the set of its key as it is, and its answer, which needs no store.
ghost use Rattle.std.specs.Prelude.{◌≡◌, ◌-◌, false, true, None, Some, IfOk, IfErr, IfSome};
ghost use Rattle.vs_defs.specs.Answers.{FindsOf};
ghost use Rattle.vs_defs.specs.Bounds.{IsSearchInBounds};
ghost use Rattle.vs_defs.specs.Counts.{ReadsToFind};
ghost use Rattle.vs_defs.specs.Refuse.{search_refusal, store_refusal};
ghost use Rattle.vs_defs.specs.Request as request;
ghost use Rattle.vs_defs.specs.Store.{set_of, plain};
ghost use Rattle.vs_command.specs.Answers.{answer_of};
ghost use Rattle.vs_command.specs.Refusals.{refusal_of};
ghost use Rattle.vs_command.specs.Requests.{search_of, what_of};
ghost use Rattle.vs_command.specs.Scores.{HasScores};
ghost use Rattle.vs_query.specs.Found.{place_sought};
ghost use Rattle.vs_store.specs.Causes.{IsCause};

use crate::{Looked, Store};
use std::alloc::Global;
use std::sync::ledger::Ledger;
use std::thread::Threads;
use vs_command::{Answer, Refusal, Search, What};
use vs_graph::Steps;
use vs_outside::{List, NoMemory};
use vs_query::{find, find_wide};
use vs_set::{Kept, Set};
use vs_slot::Slot;

/// The place of the member whose vector is looked for, none for a vector of the search's own; or why the set refuses the search.
pub(crate) fn place_in(set: &Set<Kept>, what: &What) -> Result<Option<u32>, Refusal>
    ensures unrefused { IfOk result (λ place. search_refusal (what_of what.now) (Some set.now.contents) ≡ None) }
    ensures sought { IfOk result (λ place. place ≡ place_sought (what_of what.now) set.now.contents.members) }
    ensures refused { IfErr result (λ e. IsCause e (search_refusal (what_of what.now) (Some set.now.contents))) }
{
    match what {
        What::Ele(name) => match set.place_of(name.as_slice()) {
            Some(place) => Ok(Some(place)),
            None => Err(Refusal::NoSuchElement),
        },
        What::Values(bits) if bits.dim() != set.dim() => Err(Refusal::WrongDimension {
            given: bits.dim(),
            has: set.dim(),
        }),
        What::Values(_) => Ok(None),
    }
}

/// What a search of an absent key answers. It takes no memory.
fn no_hits(alloc: Global, search: &Search) -> Answer
    ensures found { FindsOf (search_of search.now) None (answer_of result) }
    ensures scores { HasScores result }
{
    Answer::Hits {
        dim: 1,
        scores: search.scores,
        attrs: search.attrs,
        hits: List::new(alloc),
    }
}

impl Store {
    /// Takes the set of the search's key as it is, or notes that the key is absent. The search is copied.
    pub fn look(&self, search: &Search) -> Result<Looked, Refusal>
        requires bounds { IsSearchInBounds (search_of search.now) }
        ensures search { IfOk result (λ l. l.search ≡ search_of search.now) }
        ensures set { IfOk result (λ l. l.set ≡ set_of search.now.key self.now) }
        ensures unrefused { IfOk result (λ l. store_refusal (plain self.now) (request.Vsim (search_of search.now)) ≡ None) }
        ensures refused { IfErr result (λ e. IfSome (refusal_of e) (λ cause. store_refusal (plain self.now) (request.Vsim (search_of search.now)) ≡ Some cause)) }
    {
        self.look_with(search.try_clone(self.alloc)?)
    }

    /// The same with a search that is given up. Besides the snapshot it takes no memory.
    pub fn look_with(&self, search: Search) -> Result<Looked, Refusal>
        requires bounds { IsSearchInBounds (search_of search) }
        ensures search { IfOk result (λ l. l.search ≡ search_of search) }
        ensures set { IfOk result (λ l. l.set ≡ set_of search.key self.now) }
        ensures unrefused { IfOk result (λ l. store_refusal (plain self.now) (request.Vsim (search_of search)) ≡ None) }
        ensures refused { IfErr result (λ e. IfSome (refusal_of e) (λ cause. store_refusal (plain self.now) (request.Vsim (search_of search)) ≡ Some cause)) }
    {
        let Some(set) = self.set_at(search.key.as_slice()) else {
            return Ok(Looked {
                alloc: self.alloc,
                search,
                set: None,
                place: None,
            });
        };
        let place = place_in(set, &search.what)?;
        let snap = set.snapshot()?;
        Ok(Looked {
            alloc: self.alloc,
            search,
            set: Some(snap),
            place,
        })
    }

    /// Answers a search in the set at its look.
    pub fn finish<L: Ledger>(
        looked: Looked,
        slot: &mut Slot,
        reads: &mut Steps<L>,
    ) -> Result<Answer, NoMemory>
        ensures found { IfOk result (λ answer. FindsOf looked.search looked.set (answer_of answer)) }
        ensures scores { IfOk result HasScores }
        ensures told { IfOk result (λ answer. looked.search.truth ≡ false → ReadsToFind looked.search looked.set (answer_of answer) (reads.new - reads.old)) }
    {
        let Looked {
            alloc,
            search,
            set,
            place,
        } = looked;
        match set {
            Some(snap) => find(alloc, &snap, &search, place, slot, reads),
            None => Ok(no_hits(alloc, &search)),
        }
    }

    /// Answers a search with TRUTH in the set at its look, by several threads where the set has many members.
    pub fn finish_wide(rt: &(impl Threads + Sync), looked: Looked) -> Result<Answer, NoMemory>
        requires truth { looked.search.truth ≡ true }
        ensures found { IfOk result (λ answer. FindsOf looked.search looked.set (answer_of answer)) }
        ensures scores { IfOk result HasScores }
    {
        let Looked {
            alloc,
            search,
            set,
            place,
        } = looked;
        match set {
            Some(snap) => find_wide(rt, alloc, &snap, &search, place),
            None => Ok(no_hits(alloc, &search)),
        }
    }
}
