//! Searches with TRUTH of a set as it was at the look, by several threads where it has many members.
ghost use Rattle.std.specs.Prelude.{◌≡◌, ◌<◌, Option, None, Some, true, length, slice_get, IfOk, IsSomeAnd};
ghost use Rattle.vs_defs.specs.Answers.{FindsOf};
ghost use Rattle.vs_defs.specs.Bytes.{Bytes};
ghost use Rattle.vs_defs.specs.FilterText.{passes_filter};
ghost use Rattle.vs_defs.specs.Refuse.{search_refusal};
ghost use Rattle.vs_command.specs.Answers.{answer_of};
ghost use Rattle.vs_command.specs.Requests.{what_of, search_of};
ghost use Rattle.vs_command.specs.Scores.{HasScores};
ghost use Rattle.vs_rank.specs.Tests.{Answers, AnswersOne};
ghost use Rattle.vs_query.specs.Found.{place_sought, HasHits, FindsVector};

use crate::hits::named;
use crate::vector::bits_at;
use std::alloc::Global;
use std::marker::Brand;
use std::sync::ledger::{Blank, Ledger};
use std::thread::Threads;
use vs_bits::Bits;
use vs_command::{Answer, Search, What};
use vs_graph::{Nodes, Steps};
use vs_outside::{List, NoMemory};
use vs_rank::{Everyone, Testing, Wanted};
use vs_set::Snap;
use vs_truth::{Hit, nearest_in_pieces};

/// The nearest members that pass a test.
fn hits_by<N: Nodes + Sync, F: Testing + Drop + Sync>(
    rt: &(impl Threads + Sync),
    alloc: Global,
    snap: &Snap<N>,
    search: &Search,
    query: &Bits,
    test: F,
) -> Result<List<Hit>, NoMemory>
    requires single { IsProp (F.ready test) }
    requires callable { F.ready test }
    requires answers { AnswersOne (F.gives test) }
    requires truth { search.now.truth ≡ true }
    requires dim { length query.now ≡ snap.now.contents.dim }
    ensures { IfOk result (λ hits. (text : Option Bytes) → Answers (F.gives test) (passes_filter text) → HasHits (search_of search.now) text snap.now query.now hits 0) }
{
    let _dim = snap.dim();
    let wanted = Wanted::new(test);
    nearest_in_pieces(rt, alloc, snap, query, search.count, &wanted)
}

/// The nearest members that pass the search's filter.
fn hits_of<N: Nodes + Sync>(
    rt: &(impl Threads + Sync),
    alloc: Global,
    snap: &Snap<N>,
    search: &Search,
    query: &Bits,
) -> Result<List<Hit>, NoMemory>
    requires truth { search.now.truth ≡ true }
    requires dim { length query.now ≡ snap.now.contents.dim }
    ensures { IfOk result (λ hits. HasHits (search_of search.now) search.now.filter snap.now query.now hits 0) }
{
    match &search.filter {
        None => hits_by(rt, alloc, snap, search, query, Everyone),
        Some(filter) => {
            let by_filter = |attr: Option<&[u8]>| filter.passes(attr);
            hits_by(rt, alloc, snap, search, query, by_filter)
        }
    }
}

/// What a search with TRUTH for a vector answers.
fn find_vector<N: Nodes + Sync>(
    rt: &(impl Threads + Sync),
    alloc: Global,
    snap: &Snap<N>,
    search: &Search,
    query: &Bits,
) -> Result<Answer, NoMemory>
    requires truth { search.now.truth ≡ true }
    requires dim { length query.now ≡ snap.now.contents.dim }
    ensures found { IfOk result (λ answer. FindsVector (search_of search.now) snap.now query.now (answer_of answer) 0) }
    ensures scores { IfOk result HasScores }
{
    let dim = snap.dim();
    let found = hits_of(rt, alloc, snap, search, query)?;
    let hits = named(alloc, snap, found.as_slice(), search.attrs)?;
    Ok(Answer::Hits {
        dim,
        scores: search.scores,
        attrs: search.attrs,
        hits,
    })
}

/// The vector of the member at a place. It has a counter of its own.
fn bits_alone<N: Nodes, L: Ledger>(
    alloc: Global,
    snap: &Snap<N>,
    place: u32,
    blank: Blank,
) -> Result<Bits, NoMemory>
    requires place { place < length snap.now.contents.members }
    requires name { blank.name ≡ L.name }
    requires parts { blank.parts ≡ L.parts }
    requires some { 0 < L.parts }
    ensures bits { IfOk result (λ bits. IsSomeAnd (slice_get snap.now.contents.members place) (λ x. bits ≡ x.bits)) }
    ensures dim { IfOk result (λ bits. length bits ≡ snap.now.contents.dim) }
{
    let mut reads = Steps::<L>::new(blank);
    bits_at(alloc, snap, place, &mut reads)
}

/// What a search with TRUTH answers: the nearest members that pass. `place` is that of the member whose vector is looked for, so that no
/// name is looked up. Several threads scan the members where there are many.
pub fn find_wide<N: Nodes + Sync>(
    rt: &(impl Threads + Sync),
    alloc: Global,
    snap: &Snap<N>,
    search: &Search,
    place: Option<u32>,
) -> Result<Answer, NoMemory>
    requires truth { search.now.truth ≡ true }
    requires unrefused { search_refusal (what_of search.now.what) (Some snap.now.contents) ≡ None }
    requires sought { place ≡ place_sought (what_of search.now.what) snap.now.contents.members }
    ensures found { IfOk result (λ answer. FindsOf (search_of search.now) (Some snap.now) (answer_of answer)) }
    ensures scores { IfOk result HasScores }
{
    match (&search.what, place) {
        (What::Values(bits), _) => find_vector(rt, alloc, snap, search, bits),
        (What::Ele(_), Some(place)) => {
            let bits = bits_alone::<N, Brand>(alloc, snap, place, Blank::new(1))?;
            find_vector(rt, alloc, snap, search, &bits)
        }
        (What::Ele(_), None) => unreachable!(),
    }
}
