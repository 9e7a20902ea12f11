//! A queue that gives the least key first.
ghost use Rattle.std.specs.Prelude.{◌≡◌, ◌≤◌, ◌<◌, ◌+◌, [], ◌∷◌, false, All, IfSome, IfNone, OnOk, IsPermutation};
ghost use Rattle.vs_rank.specs.Ranked.{Queue, key_lt};

use crate::Key;
use crate::packed::{key_of, packed};
use std::alloc::{AllocError, Global};
use std::cmp::Reverse;
use std::collections::BinaryHeap;
use std::marker::Model;

/// Keys of which the least comes first. The heap keeps each key in one number.
#[derive(Drop)]
pub struct Frontier {
    heap: BinaryHeap<Reverse<u64>>,
}

impl Model for Frontier {
    ghost use Rattle.std.specs.Prelude.{◌-◌, map};
    ghost use Rattle.std.specs.BinaryHeap.{heap_items, heap_len, heap_capacity, IsHeap};
    ghost use Rattle.vs_rank.specs.Ranked.{Queue, reverse_cmp, unpacked};

    ghost Value = { Queue };

    ghost view = { λ f. record { keys = map (λ x. unpacked x.0) (heap_items f.heap); spare = heap_capacity f.heap - heap_len f.heap } };

    ghost invariant = { λ f. IsHeap (λ x y. reverse_cmp x.0 y.0) (heap_items f.heap) };
}

impl Frontier {
    pub fn new(alloc: Global) -> Frontier
        ensures { result.keys ≡ [] }
    {
        Frontier {
            heap: BinaryHeap::new(alloc),
        }
    }

    pub fn reserve(&mut self, more: u32) -> Result<(), AllocError>
        ensures keys { self.new.keys ≡ self.old.keys }
        ensures ok { OnOk result (more ≤ self.new.spare) }
        ensures room { self.old.spare ≤ self.new.spare }
    {
        self.heap.reserve(more as usize)
    }

    pub fn offer(&mut self, key: Key)
        requires { 0 < self.old.spare }
        ensures keys { IsPermutation (key ∷ self.old.keys) self.new.keys }
        ensures room { self.old.spare ≤ self.new.spare + 1 }
    {
        match self.heap.push(Reverse(packed(key))) {
            Ok(()) => {}
            Err(_) => unreachable!(),
        }
    }

    pub fn pop(&mut self) -> Option<Key>
        ensures taken { IfSome result (λ key. IsPermutation self.old.keys (key ∷ self.new.keys)) }
        ensures least { IfSome result (λ key. All (λ other. key_lt other key ≡ false) self.old.keys) }
        ensures none { IfNone result (self.old.keys ≡ []) }
        ensures kept { IfNone result (self.new.keys ≡ []) }
        ensures room { self.old.spare ≤ self.new.spare }
    {
        match self.heap.pop() {
            Some(Reverse(number)) => Some(key_of(number)),
            None => None,
        }
    }
}
