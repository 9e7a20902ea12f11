//! Searches of a set as it was at the look.
ghost use Rattle.std.specs.Prelude.{◌≡◌, ◌<◌, ◌-◌, All, Option, None, Some, false, length, IfOk};
ghost use Rattle.vs_defs.specs.Answers.{FindsOf};
ghost use Rattle.vs_defs.specs.Bounds.{IsSearchInBounds};
ghost use Rattle.vs_defs.specs.Bytes.{Bytes};
ghost use Rattle.vs_defs.specs.Counts.{ReadsToFind};
ghost use Rattle.vs_defs.specs.FilterText.{passes_filter};
ghost use Rattle.vs_defs.specs.Refuse.{search_refusal};
ghost use Rattle.vs_command.specs.Answers.{answer_of};
ghost use Rattle.vs_command.specs.Requests.{what_of, search_of};
ghost use Rattle.vs_command.specs.Scores.{HasScores};
ghost use Rattle.vs_rank.specs.Tests.{Answers, AnswersOne};
ghost use Rattle.vs_query.specs.Found.{place_sought, HasHits, FindsVector};

use crate::hits::named;
use crate::vector::bits_at;
use std::alloc::Global;
use std::sync::ledger::Ledger;
use vs_bits::Bits;
use vs_command::{Answer, Search, What};
use vs_graph::{Nodes, Steps};
use vs_outside::{List, NoMemory};
use vs_rank::{Everyone, Testing, Wanted};
use vs_set::Snap;
use vs_slot::Slot;
use vs_truth::{Hit, nearest};

/// The hits among the members that pass a test.
fn hits_by<N: Nodes, F: Testing + Drop, L: Ledger>(
    alloc: Global,
    snap: &Snap<N>,
    search: &Search,
    query: &Bits,
    test: F,
    slot: &mut Slot,
    reads: &mut Steps<L>,
) -> Result<List<Hit>, NoMemory>
    requires single { IsProp (F.ready test) }
    requires callable { F.ready test }
    requires answers { AnswersOne (F.gives test) }
    requires bounds { IsSearchInBounds (search_of search.now) }
    requires some { 0 < length snap.now.contents.members }
    requires dim { length query.now ≡ snap.now.contents.dim }
    ensures { IfOk result (λ hits. (text : Option Bytes) → Answers (F.gives test) (passes_filter text) → HasHits (search_of search.now) text snap.now query.now hits (reads.new - reads.old)) }
{
    let _dim = snap.dim();
    let wanted = Wanted::new(test);
    if search.truth {
        nearest(alloc, snap, query, search.count, &wanted, reads)
    } else {
        let (count, ef, effort) = (search.count, search.ef, search.effort);
        snap.near(query, count, ef, effort, &wanted, slot, reads)
    }
}

/// The hits of a search for a vector, by its filter.
fn hits_of<N: Nodes, L: Ledger>(
    alloc: Global,
    snap: &Snap<N>,
    search: &Search,
    query: &Bits,
    slot: &mut Slot,
    reads: &mut Steps<L>,
) -> Result<List<Hit>, NoMemory>
    requires bounds { IsSearchInBounds (search_of search.now) }
    requires some { 0 < length snap.now.contents.members }
    requires dim { length query.now ≡ snap.now.contents.dim }
    ensures { IfOk result (λ hits. HasHits (search_of search.now) search.now.filter snap.now query.now hits (reads.new - reads.old)) }
{
    match &search.filter {
        None => hits_by(alloc, snap, search, query, Everyone, slot, reads),
        Some(filter) => {
            let by_filter = |attr: Option<&[u8]>| filter.passes(attr);
            hits_by(alloc, snap, search, query, by_filter, slot, reads)
        }
    }
}

/// What a search for a vector answers.
fn find_vector<N: Nodes, L: Ledger>(
    alloc: Global,
    snap: &Snap<N>,
    search: &Search,
    query: &Bits,
    slot: &mut Slot,
    reads: &mut Steps<L>,
) -> Result<Answer, NoMemory>
    requires bounds { IsSearchInBounds (search_of search.now) }
    requires some { 0 < length snap.now.contents.members }
    requires dim { length query.now ≡ snap.now.contents.dim }
    ensures found { IfOk result (λ answer. FindsVector (search_of search.now) snap.now query.now (answer_of answer) (reads.new - reads.old)) }
    ensures scores { IfOk result HasScores }
{
    let dim = snap.dim();
    let found = hits_of(alloc, snap, search, query, slot, reads)?;
    let hits = named(alloc, snap, found.as_slice(), search.attrs)?;
    Ok(Answer::Hits {
        dim,
        scores: search.scores,
        attrs: search.attrs,
        hits,
    })
}

/// What a search answers: with TRUTH the nearest members that pass, else the nearest that a beam finds. `place` is that of the member whose
/// vector is looked for, so that no name is looked up. Without TRUTH no node is read but by the descent and the beam, and one more.
pub fn find<N: Nodes, L: Ledger>(
    alloc: Global,
    snap: &Snap<N>,
    search: &Search,
    place: Option<u32>,
    slot: &mut Slot,
    reads: &mut Steps<L>,
) -> Result<Answer, NoMemory>
    requires bounds { IsSearchInBounds (search_of search.now) }
    requires some { 0 < length snap.now.contents.members }
    requires unrefused { search_refusal (what_of search.now.what) (Some snap.now.contents) ≡ None }
    requires sought { place ≡ place_sought (what_of search.now.what) snap.now.contents.members }
    ensures found { IfOk result (λ answer. FindsOf (search_of search.now) (Some snap.now) (answer_of answer)) }
    ensures scores { IfOk result HasScores }
    ensures told { IfOk result (λ answer. search.now.truth ≡ false → ReadsToFind (search_of search.now) (Some snap.now) (answer_of answer) (reads.new - reads.old)) }
{
    match (&search.what, place) {
        (What::Values(bits), _) => find_vector(alloc, snap, search, bits, slot, reads),
        (What::Ele(_), Some(place)) => {
            let bits = bits_at(alloc, snap, place, reads)?;
            find_vector(alloc, snap, search, &bits, slot, reads)
        }
        (What::Ele(_), None) => unreachable!(),
    }
}
