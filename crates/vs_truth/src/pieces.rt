//! Exact search by several threads: the places are taken in pieces, and of each piece's first few the first few are those of all members.
ghost use Rattle.std.specs.Prelude.{◌≡◌, ◌*◌, ◌+◌, ◌/◌, ◌<◌, ◌≤◌, ℕ, Bool, List, Option, length, map, All, IfOk};
ghost use Rattle.std.specs.List.{AllZip, range_with_len, flat_map};
ghost use Rattle.vs_defs.specs.Bytes.{Bytes};
ghost use Rattle.vs_defs.specs.FilterText.{passes_filter};
ghost use Rattle.vs_defs.specs.Truth as truth;
ghost use Rattle.vs_rank.specs.Tests.{Attribute, Answers};
ghost use Rattle.vs_truth.specs.Nearest.{AreHits, nearest_passing};
ghost use Rattle.vs_truth.specs.Nears.{Near, near_of, firsts, nears_of_piece};

use crate::candidate::Candidate;
use crate::scan::{first_passing, hits_of, nearest};
use crate::{Hit, Members};
use rayon::prelude::*;
use std::alloc::{AllocError, Global};
use std::marker::Brand;
use std::sync::ledger::{Blank, Ledger};
use std::thread::Threads;
use vs_bits::Bits;
use vs_graph::Steps;
use vs_outside::{List, NoMemory};
use vs_rank::{Testing, Wanted};

/// How many places a piece has, but for the last.
const PIECE: u32 = 4096;

/// With fewer members a thread costs more than it saves, and one scans them all.
pub const LEAST_IN_PIECES: u32 = 16384;

/// The first `most` of the members of a piece that pass. The steps that are counted are nobody's.
fn first_of_piece<'a, M: Members, F: Testing, L: Ledger>(
    alloc: Global,
    members: &'a M,
    piece: u32,
    query: &Bits,
    most: u32,
    wanted: &Wanted<F>,
    blank: Blank,
) -> Result<Vec<Candidate<'a>>, AllocError>
    requires fits { All (λ member. length member.bits ≡ length query.now) (M.members members.now) }
    requires begins { piece * 4096 ≤ length (M.members members.now) }
    requires name { blank.name ≡ L.name }
    requires parts { blank.parts ≡ L.parts }
    requires some { 0 < L.parts }
    ensures { IfOk result (λ found. (passes : Attribute → Bool) → Answers (F.gives wanted.now.test) passes → map near_of found.items ≡ firsts most (nears_of_piece passes query.now (M.members members.entry.now) piece)) }
{
    let count = members.count();
    let from = piece * PIECE;
    let size = PIECE.min(count - from);
    let places = from..from + size;
    let mut reads = Steps::<L>::new(blank);
    let few = first_passing(alloc, members, places, query, most, wanted, &mut reads)?;
    Ok(few.into_sorted())
}

/// The same, with a counter of its own.
fn scan_piece<'a, M: Members, F: Testing>(
    alloc: Global,
    members: &'a M,
    piece: u32,
    query: &Bits,
    most: u32,
    wanted: &Wanted<F>,
) -> Result<Vec<Candidate<'a>>, AllocError>
    requires fits { All (λ member. length member.bits ≡ length query.now) (M.members members.now) }
    requires begins { piece * 4096 ≤ length (M.members members.now) }
    ensures { IfOk result (λ found. (passes : Attribute → Bool) → Answers (F.gives wanted.now.test) passes → map near_of found.items ≡ firsts most (nears_of_piece passes query.now (M.members members.entry.now) piece)) }
{
    let blank = Blank::new(1);
    first_of_piece::<M, F, Brand>(alloc, members, piece, query, most, wanted, blank)
}

/// The first `most` of each piece, in the order of the pieces.
fn firsts_of_pieces<'a, M: Members + Sync, F: Testing + Sync>(
    rt: &(impl Threads + Sync),
    alloc: Global,
    members: &'a M,
    query: &Bits,
    most: u32,
    wanted: &Wanted<F>,
) -> Result<Vec<Result<Vec<Candidate<'a>>, AllocError>>, AllocError>
    requires fits { All (λ member. length member.bits ≡ length query.now) (M.members members.now) }
    ensures { IfOk result (λ pieces. (passes : Attribute → Bool) → Answers (F.gives wanted.now.test) passes → AllZip (λ piece r. IfOk r (λ found. map near_of found.items ≡ firsts most (nears_of_piece passes query.now (M.members members.entry.now) piece))) (range_with_len 0 (length (M.members members.entry.now) / 4096 + 1)) pieces.items) }
{
    let count = members.count();
    let pieces = count / PIECE + 1;
    (0..pieces)
        .into_par_iter()
        .with_min_len(1)
        .map(
            |piece: u32| -> Result<Vec<Candidate>, AllocError>
                requires { (piece * 4096 ≤ length (M.members members.now)) × All (λ member. length member.bits ≡ length query.now) (M.members members.now) }
                ensures { IfOk result (λ found. (passes : Attribute → Bool) → Answers (F.gives wanted.entry.now.test) passes → map near_of found.items ≡ firsts most (nears_of_piece passes query.entry.now (M.members members.entry.now) piece)) }
            { scan_piece(alloc, members, piece, query, most, wanted) },
        )
        .collect(rt, alloc)
}

/// All that the pieces give, in their order.
fn together<'a>(
    alloc: Global,
    pieces: &[Result<Vec<Candidate<'a>>, AllocError>],
) -> Result<Vec<Candidate<'a>>, AllocError>
    ensures { IfOk result (λ all. (f : ℕ → List Near) (n : ℕ) → AllZip (λ piece r. IfOk r (λ found. map near_of found.items ≡ f piece)) (range_with_len 0 n) pieces.now → map near_of all.items ≡ flat_map f (range_with_len 0 n)) }
{
    let mut all = Vec::new(alloc);
    for piece in pieces {
        match piece {
            Ok(found) => all.extend_from_slice(found.as_slice())?,
            Err(_) => return Err(AllocError),
        }
    }
    Ok(all)
}

/// The first `most` of candidates, in order. It takes no memory.
fn first_of<'a>(found: Vec<Candidate<'a>>, most: u32) -> Vec<Candidate<'a>>
    ensures { map near_of result.items ≡ firsts most (map near_of found.entry.items) }
{
    let mut first = found;
    first.sort_unstable();
    first.truncate(most as usize);
    first
}

/// The same by one thread. The steps that are counted are nobody's.
fn nearest_alone<M: Members, F: Testing, L: Ledger>(
    alloc: Global,
    members: &M,
    query: &Bits,
    count: u32,
    wanted: &Wanted<F>,
    blank: Blank,
) -> Result<List<Hit>, NoMemory>
    requires fits { All (λ member. length member.bits ≡ length query.now) (M.members members.now) }
    requires name { blank.name ≡ L.name }
    requires parts { blank.parts ≡ L.parts }
    requires some { 0 < L.parts }
    ensures hits { IfOk result (λ hits. (passes : Attribute → Bool) → Answers (F.gives wanted.now.test) passes → AreHits query.now (M.members members.now) (nearest_passing passes count query.now (M.members members.now)) hits) }
    ensures filter { IfOk result (λ hits. (text : Option Bytes) → Answers (F.gives wanted.now.test) (passes_filter text) → AreHits query.now (M.members members.now) (truth.nearest count query.now text (M.members members.now)) hits) }
{
    let mut reads = Steps::<L>::new(blank);
    nearest(alloc, members, query, count, wanted, &mut reads)
}

/// What `nearest` gives, by several threads where there are many members. Each thread takes memory for at most `count` candidates a piece.
pub fn nearest_in_pieces<M: Members + Sync, F: Testing + Sync>(
    rt: &(impl Threads + Sync),
    alloc: Global,
    members: &M,
    query: &Bits,
    count: u32,
    wanted: &Wanted<F>,
) -> Result<List<Hit>, NoMemory>
    requires fits { All (λ member. length member.bits ≡ length query.now) (M.members members.now) }
    ensures hits { IfOk result (λ hits. (passes : Attribute → Bool) → Answers (F.gives wanted.now.test) passes → AreHits query.now (M.members members.now) (nearest_passing passes count query.now (M.members members.now)) hits) }
    ensures filter { IfOk result (λ hits. (text : Option Bytes) → Answers (F.gives wanted.now.test) (passes_filter text) → AreHits query.now (M.members members.now) (truth.nearest count query.now text (M.members members.now)) hits) }
{
    if members.count() < LEAST_IN_PIECES {
        return nearest_alone::<M, F, Brand>(alloc, members, query, count, wanted, Blank::new(1));
    }
    let pieces = firsts_of_pieces(rt, alloc, members, query, count, wanted)?;
    let all = together(alloc, pieces.as_slice())?;
    let few = first_of(all, count);
    let hits = hits_of(alloc, few.as_slice())?;
    Ok(List::from_vec(hits))
}
