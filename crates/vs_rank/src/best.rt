//! The least keys of those offered, as many as are asked for. An offer takes no memory once there is spare room, and what is beyond a full
//! list stays beyond it.
ghost use Rattle.std.specs.Prelude.{◌≡◌, ◌≤◌, ◌<◌, ◌+◌, ◌-◌, [], take, length, map, OnOk, true, false};
ghost use Rattle.std.specs.Option.{option_map_or, option_map, option_copied};
ghost use Rattle.std.specs.Ordering.{nat_cmp};
ghost use Rattle.std.specs.BinaryHeap.{heap_items, heap_len, heap_capacity, IsHeap};
ghost use Rattle.vs_rank.specs.declared.Key.{Key};
ghost use Rattle.vs_rank.specs.Ranked.{Least, TopIsReplaced, key_lt, with_key, worst_of, is_beyond, unpacked};

use crate::Key;
use crate::packed::{key_of, packed};
use std::alloc::{AllocError, Global};
use std::collections::BinaryHeap;
use std::marker::Model;

/// The least few of the keys that were offered: a heap with the greatest of them on top, so that
/// an offer costs a number of steps that grows as the logarithm of their number. The heap keeps each
/// key in one number.
#[derive(Drop)]
pub struct Best {
    heap: BinaryHeap<u64>,
    /// Empty, with room for the keys of the heap: `into_sorted` gives it out.
    sorted: Vec<Key>,
    most: u32,
}

impl Model for Best {
    ghost use Rattle.std.specs.Prelude.{◌≡◌, ◌-◌, ◌≤◌, [], map, min};
    ghost use Rattle.std.specs.Vec.{vec_len, vec_capacity};
    ghost use Rattle.std.specs.Ordering.{nat_cmp};
    ghost use Rattle.std.specs.BinaryHeap.{heap_items, heap_len, heap_capacity, IsHeap};
    ghost use Rattle.vs_rank.specs.Ranked.{Least, sorted_keys, unpacked};

    ghost Value = { Least };

    ghost view = { λ b. record { most = b.most; keys = sorted_keys (map unpacked (heap_items b.heap)); spare = min (heap_capacity b.heap) (vec_capacity b.sorted) - heap_len b.heap } };

    ghost invariant = { λ b. IsHeap nat_cmp (heap_items b.heap) × (heap_len b.heap ≤ b.most) × (heap_len b.heap ≤ vec_capacity b.sorted) × (b.sorted.items ≡ []) };
}

fn key_seen(top: Option<&u64>) -> Option<Key>
    ensures { result ≡ option_map unpacked (option_copied top.entry) }
{
    match top {
        Some(top) => Some(key_of(*top)),
        None => None,
    }
}

/// Puts a number in the place of the greatest.
fn replace_top(heap: &mut BinaryHeap<u64>, item: u64)
    requires { 0 < heap_len heap.old }
    ensures replaced { TopIsReplaced (heap_items heap.old) (heap_items heap.new) item }
    ensures heap_order { IsHeap nat_cmp (heap_items heap.old) → IsHeap nat_cmp (heap_items heap.new) }
    ensures len { heap_len heap.new ≡ heap_len heap.old }
    ensures capacity { heap_capacity heap.new ≡ heap_capacity heap.old }
{
    let mut top = heap.peek_mut().unwrap();
    *top = item;
}

impl Best {
    /// Keeps at most `most` keys. It takes no memory.
    pub fn new(alloc: Global, most: u32) -> Best
        ensures most { result.most ≡ most }
        ensures keys { result.keys ≡ [] }
    {
        Best {
            heap: BinaryHeap::new(alloc),
            sorted: Vec::new(alloc),
            most,
        }
    }

    pub fn reserve(&mut self, more: u32) -> Result<(), AllocError>
        ensures keys { self.new.keys ≡ self.old.keys }
        ensures most { self.new.most ≡ self.old.most }
        ensures ok { OnOk result (more ≤ self.new.spare) }
        ensures room { self.old.spare ≤ self.new.spare }
    {
        self.heap.reserve(more as usize)?;
        self.sorted.reserve(self.heap.len() + more as usize)
    }

    /// It takes no memory. What is beyond the kept keys stays beyond them.
    pub fn offer(&mut self, key: Key)
        requires { 0 < self.old.spare }
        ensures keys { self.new.keys ≡ take self.old.most (with_key self.old.keys key) }
        ensures most { self.new.most ≡ self.old.most }
        ensures room { self.old.spare ≤ self.new.spare + 1 }
        ensures beyond { (other : Key) → is_beyond self.old other ≡ true → is_beyond self.new other ≡ true }
    {
        if self.heap.len() < self.most as usize {
            self.insert(key);
        } else if self.is_below_worst(key) {
            self.replace_worst(key);
        }
    }

    fn insert(&mut self, key: Key)
        requires room { 0 < self.old.spare }
        requires place { length self.old.keys < self.old.most }
        ensures keys { self.new.keys ≡ with_key self.old.keys key }
        ensures most { self.new.most ≡ self.old.most }
        ensures room { self.old.spare ≤ self.new.spare + 1 }
    {
        match self.heap.push(packed(key)) {
            Ok(()) => {}
            Err(_) => unreachable!(),
        }
    }

    fn replace_worst(&mut self, key: Key)
        requires { 0 < length self.old.keys }
        ensures keys { self.new.keys ≡ with_key (take (length self.old.keys - 1) self.old.keys) key }
        ensures most { self.new.most ≡ self.old.most }
        ensures room { self.old.spare ≤ self.new.spare }
    {
        replace_top(&mut self.heap, packed(key));
    }

    fn is_below_worst(&self, key: Key) -> bool
        ensures { result ≡ option_map_or (λ worst. key_lt key worst) (worst_of self.now.keys) false }
    {
        match self.heap.peek() {
            Some(worst) => packed(key) < *worst,
            None => false,
        }
    }

    /// The greatest of the kept keys.
    pub fn worst(&self) -> Option<Key>
        ensures { result ≡ worst_of self.now.keys }
    {
        key_seen(self.heap.peek())
    }

    /// Whether every place is taken by a lesser key.
    pub fn is_beyond(&self, key: Key) -> bool
        ensures { result ≡ is_beyond self.now key }
    {
        match self.heap.peek() {
            Some(worst) => self.heap.len() >= self.most as usize && *worst < packed(key),
            None => false,
        }
    }

    /// The kept keys, the least first. It takes no memory.
    pub fn into_sorted(self) -> Vec<Key>
        ensures { result.items ≡ self.keys }
    {
        let Best {
            heap,
            mut sorted,
            most: _,
        } = self;
        for number in &heap.into_sorted_vec() {
            sorted.push_reserved(key_of(*number));
        }
        sorted
    }
}
