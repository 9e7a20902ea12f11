//! The nearest candidates so far, at most as many as are asked for.
ghost use Rattle.std.specs.Prelude.{◌≡◌, ◌≤◌, ◌<◌, ◌+◌, ◌-◌, [], take, length, map, slice_get, false, IfOk, IsTrue};
ghost use Rattle.std.specs.Option.{option_map_or};
ghost use Rattle.std.specs.Ordering.{is_gt};
ghost use Rattle.vs_defs.specs.Bytes.{place_by};
ghost use Rattle.vs_truth.specs.Nears.{Near, near_of, near_cmp, is_beyond};

use crate::candidate::Candidate;
use std::alloc::{AllocError, Global};
use std::collections::BinaryHeap;
use std::marker::Model;

/// The first few of the candidates that were offered, by distance, then name, in a heap with the last of them on top. Its room is taken at
/// the start.
#[derive(Drop)]
pub struct NearestHeap<'a> {
    heap: BinaryHeap<Candidate<'a>>,
    most: u32,
}

impl<'a> Model for NearestHeap<'a> {
    ghost use Rattle.std.specs.Prelude.{◌≤◌, map};
    ghost use Rattle.std.specs.BinaryHeap.{heap_items, heap_len, heap_capacity, IsHeap};
    ghost use Rattle.vs_defs.specs.Bytes.{sort_by};
    ghost use Rattle.vs_truth.specs.Nears.{First, near_of, near_cmp, candidate_cmp};

    ghost Value = { First };

    ghost view = { λ f. record { most = f.most; nears = sort_by near_cmp (map near_of (heap_items f.heap)) } };

    ghost invariant = { λ f. IsHeap candidate_cmp (heap_items f.heap) × (heap_len f.heap ≤ f.most) × (f.most ≤ heap_capacity f.heap) };
}

impl<'a> NearestHeap<'a> {
    /// Room for so many.
    pub fn new(alloc: Global, most: u32) -> Result<NearestHeap<'a>, AllocError>
        ensures most { IfOk result (λ few. few.most ≡ most) }
        ensures nears { IfOk result (λ few. few.nears ≡ []) }
    {
        let heap = BinaryHeap::with_capacity(alloc, most as usize)?;
        Ok(NearestHeap { heap, most })
    }

    /// Keeps the candidate where it is among the first, in the place of the last. It takes no memory.
    pub fn offer(&mut self, candidate: Candidate<'a>)
        ensures nears { self.new.nears ≡ take self.old.most (place_by near_cmp (near_of candidate.entry) self.old.nears) }
        ensures most { self.new.most ≡ self.old.most }
    {
        if self.heap.len() < self.most as usize {
            self.insert(candidate);
        } else if self.is_before_last(&candidate) {
            self.remove_last();
            self.insert(candidate);
        }
    }

    fn insert(&mut self, candidate: Candidate<'a>)
        requires { length self.old.nears < self.old.most }
        ensures nears { self.new.nears ≡ place_by near_cmp (near_of candidate.entry) self.old.nears }
        ensures most { self.new.most ≡ self.old.most }
    {
        match self.heap.push(candidate) {
            Ok(()) => {}
            Err(_) => unreachable!(),
        }
    }

    fn remove_last(&mut self)
        requires { 0 < length self.old.nears }
        ensures nears { self.new.nears ≡ take (length self.old.nears - 1) self.old.nears }
        ensures most { self.new.most ≡ self.old.most }
    {
        self.heap.pop();
    }

    fn is_before_last(&self, candidate: &Candidate) -> bool
        ensures { result ≡ option_map_or (λ last. is_gt (near_cmp last (near_of candidate.now))) (slice_get self.now.nears (length self.now.nears - 1)) false }
    {
        match self.heap.peek() {
            Some(last) => last.cmp(candidate).is_gt(),
            None => false,
        }
    }

    /// Whether every place is taken by a candidate at a lesser distance. What comes at this one is then not kept.
    pub fn is_beyond(&self, dist: u32) -> bool
        ensures value { result ≡ is_beyond self.now dist }
        ensures kept { IsTrue result → (near : Near) → near.dist ≡ dist → take self.now.most (place_by near_cmp near self.now.nears) ≡ self.now.nears }
    {
        match self.heap.peek() {
            Some(last) => self.heap.len() >= self.most as usize && last.dist < dist,
            None => false,
        }
    }

    /// The candidates in order. It takes no memory.
    pub fn into_sorted(self) -> Vec<Candidate<'a>>
        ensures { map near_of result.items ≡ self.entry.nears }
    {
        let NearestHeap { heap, most: _ } = self;
        heap.into_sorted_vec()
    }
}
