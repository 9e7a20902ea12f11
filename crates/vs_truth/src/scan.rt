//! Exact search: one scan over all members, in any order of their distances.
ghost use Rattle.std.specs.Prelude.{◌≡◌, ◌+◌, ◌-◌, ◌^◌, ◌<◌, ◌≤◌, ℕ, Bool, if◌then◌else◌, Option, length, map, take, slice_get, All, IfOk, IsSomeAnd};
ghost use Rattle.vs_defs.specs.Bytes.{Bytes, place_by};
ghost use Rattle.vs_defs.specs.FilterText.{passes_filter};
ghost use Rattle.vs_defs.specs.Truth as truth;
ghost use Rattle.vs_rank.specs.Tests.{Attribute, Answers};
ghost use Rattle.vs_truth.specs.Nearest.{AreHits, AreRunOf, nearest_passing};
ghost use Rattle.vs_truth.specs.Nears.{near_cmp, firsts, nears_between, candidate_hit};

use crate::candidate::Candidate;
use crate::nearest_heap::NearestHeap;
use crate::{Hit, Members, Run};
use std::alloc::{AllocError, Global};
use std::ops::Range;
use std::sync::ledger::Ledger;
use vs_bits::Bits;
use vs_graph::Steps;
use vs_hamming::distance;
use vs_outside::{List, NoMemory};
use vs_rank::{Testing, Wanted};

/// Offers a member where it passes. Its attribute and its name are looked at only where its distance is not beyond those that are kept.
fn offer_member<'a, M: Members, F: Testing>(
    few: &mut NearestHeap<'a>,
    members: &'a M,
    place: u32,
    dist: u32,
    wanted: &Wanted<F>,
)
    requires within { place < length (M.members members.now) }
    ensures most { few.new.most ≡ few.old.most }
    ensures offered { (passes : Attribute → Bool) → Answers (F.gives wanted.now.test) passes → IsSomeAnd (slice_get (M.members members.entry.now) place) (λ member. few.new.nears ≡ (if passes member.attr then take few.old.most (place_by near_cmp (record { dist = dist; name = member.name; place = place }) few.old.nears) else few.old.nears)) }
{
    if few.is_beyond(dist) {
        return;
    }
    if wanted.passes(members.attr(place)) {
        few.offer(Candidate {
            dist,
            name: members.name(place),
            place,
        });
    }
}

/// The members from a place on whose words lie beside one another, or the one there.
fn run_at<'a, M: Members, L: Ledger>(
    members: &'a M,
    place: u32,
    most: u32,
    reads: &mut Steps<L>,
) -> Run<'a>
    requires some { 0 < most }
    requires within { place + most ≤ length (M.members members.now) }
    ensures some { 0 < result.rows }
    ensures few { result.rows ≤ most }
    ensures run { AreRunOf (M.members members.entry.now) place result }
    ensures told { reads.new ≤ reads.old + result.rows }
{
    let run = members.beside(place, most, reads);
    if run.rows > 0 {
        return run;
    }
    Run::one(members.bits(place, reads))
}

/// Offers the members of a run that pass.
fn offer_run<'a, M: Members, F: Testing>(
    few: &mut NearestHeap<'a>,
    members: &'a M,
    place: u32,
    run: &Run,
    query: &Bits,
    wanted: &Wanted<F>,
)
    requires fits { All (λ member. length member.bits ≡ length query.now) (M.members members.now) }
    requires run { AreRunOf (M.members members.now) place run.now }
    requires last { place + run.now.rows < 2 ^ 32 }
    ensures most { few.new.most ≡ few.old.most }
    ensures offered { (passes : Attribute → Bool) → Answers (F.gives wanted.now.test) passes → (from : ℕ) → from ≤ place → few.old.nears ≡ firsts few.old.most (nears_between passes query.now (M.members members.entry.now) from place) → few.new.nears ≡ firsts few.old.most (nears_between passes query.now (M.members members.entry.now) from (place + run.now.rows)) }
{
    let words = query.words();
    for row in 0..run.rows {
        let dist = distance(words, run.row(row));
        offer_member(few, members, place + row, dist, wanted);
    }
}

/// The first `most` of the members at a range of places that pass.
pub(crate) fn first_passing<'a, M: Members, F: Testing, L: Ledger>(
    alloc: Global,
    members: &'a M,
    places: Range<u32>,
    query: &Bits,
    most: u32,
    wanted: &Wanted<F>,
    reads: &mut Steps<L>,
) -> Result<NearestHeap<'a>, AllocError>
    requires fits { All (λ member. length member.bits ≡ length query.now) (M.members members.now) }
    requires forwards { places.start ≤ places.end }
    requires within { places.end ≤ length (M.members members.now) }
    ensures nears { IfOk result (λ few. (passes : Attribute → Bool) → Answers (F.gives wanted.now.test) passes → few.nears ≡ firsts most (nears_between passes query.now (M.members members.entry.now) places.start places.end)) }
    ensures told { reads.new ≤ reads.old + (places.end - places.start) }
{
    let from = places.start;
    let to = places.end;
    let room = most.min(to - from);
    let mut few = NearestHeap::new(alloc, room)?;
    let mut place = from;
    while place < to {
        let run = run_at(members, place, to - place, reads);
        offer_run(&mut few, members, place, &run, query, wanted);
        place += run.rows;
    }
    Ok(few)
}

/// The places and the distances of candidates.
pub fn hits_of(alloc: Global, found: &[Candidate]) -> Result<Vec<Hit>, AllocError>
    ensures { IfOk result (λ hits. hits.items ≡ map candidate_hit found.now) }
{
    found
        .iter()
        .map(|candidate| Hit {
            place: candidate.place,
            dist: candidate.dist,
        })
        .collect(alloc)
}

/// The first `count` of the members that pass, by distance, then name: one scan, with a heap of at
/// most `count` entries. Members of one name, if there are any, keep their order.
pub fn nearest<M: Members, F: Testing, L: Ledger>(
    alloc: Global,
    members: &M,
    query: &Bits,
    count: u32,
    wanted: &Wanted<F>,
    reads: &mut Steps<L>,
) -> Result<List<Hit>, NoMemory>
    requires fits { All (λ member. length member.bits ≡ length query.now) (M.members members.now) }
    ensures hits { IfOk result (λ hits. (passes : Attribute → Bool) → Answers (F.gives wanted.now.test) passes → AreHits query.now (M.members members.now) (nearest_passing passes count query.now (M.members members.now)) hits) }
    ensures filter { IfOk result (λ hits. (text : Option Bytes) → Answers (F.gives wanted.now.test) (passes_filter text) → AreHits query.now (M.members members.now) (truth.nearest count query.now text (M.members members.now)) hits) }
    ensures told { reads.new ≤ reads.old + length (M.members members.now) }
{
    let all = members.count();
    let few = first_passing(alloc, members, 0..all, query, count, wanted, reads)?;
    let hits = hits_of(alloc, few.into_sorted().as_slice())?;
    Ok(List::from_vec(hits))
}
