//! Marks on ids, emptied in one step: each search begins a new epoch, and an id is marked where the number kept for it is the epoch's.
#![tactic(auto)]

ghost use Rattle.std.specs.Prelude.{◌≡◌, ◌<◌, ◌≤◌, ℕ, [], false, true, not, length, max, slice_index, vec_len, IfOk, OnOk, OnErr, slice_set};
ghost use Rattle.vs_slot.specs.Marks.{Marks, is_marked, IsEmptied, next_epoch};

#[cfg(test)]
mod tests;

use std::alloc::{AllocError, Global};
use std::marker::Model;

/// The marked ids of one search at a time. It is kept between searches, so that only the first of a length takes memory.
#[derive(Drop)]
pub struct Slot {
    marks: Vec<u32>,
    epoch: u32,
}

impl Model for Slot {
    ghost use Rattle.std.specs.Prelude.{ℕ, ◌<◌, ◌≤◌, ◌==◌, map, slice_index};
    ghost use Rattle.vs_slot.specs.Marks.{Marks};

    ghost Value = { Marks };

    ghost view = { λ s. record { epoch = s.epoch; marked = map (λ mark. mark == s.epoch) s.marks.items } };

    ghost invariant = { λ s. 0 < s.epoch → (k : ℕ) → slice_index s.marks.items k ≤ s.epoch };
}

impl Slot {
    /// A slot with limit 0. It takes no memory.
    pub fn new(alloc: Global) -> Slot
        ensures { result ≡ record { epoch = 1; marked = [] } }
    {
        Slot {
            marks: Vec::new(alloc),
            epoch: 1,
        }
    }

    /// A slot at an epoch, with nothing marked. Any epoch may be given, 0 and the last one too.
    pub fn with_epoch(alloc: Global, epoch: u32, limit: u32) -> Result<Slot, AllocError>
        ensures epoch { IfOk result (λ slot. slot.epoch ≡ epoch) }
        ensures limit { IfOk result (λ slot. length slot.marked ≡ limit) }
        ensures empty { IfOk result IsEmptied }
    {
        let unmarked = if epoch == 0 { 1 } else { 0 };
        let mut marks = Vec::new(alloc);
        marks.resize(limit as usize, unmarked)?;
        Ok(Slot { marks, epoch })
    }

    /// Empties the marks, and makes the limit at least the given one. It takes memory only where the limit grows, and time only for the
    /// ids by which it grows, but at the last epoch (4,294,967,295), where each number is cleared. After an error the slot is as it was.
    pub fn begin(&mut self, limit: u32) -> Result<(), AllocError>
        ensures empty { OnOk result (IsEmptied self.new) }
        ensures limit { OnOk result (length self.new.marked ≡ max (length self.old.marked) limit) }
        ensures epoch { OnOk result (self.new.epoch ≡ next_epoch self.old.epoch) }
        ensures err { OnErr result (self.new ≡ self.old) }
    {
        let length = self.marks.len().max(limit as usize);
        self.marks.resize(length, self.epoch)?;
        if self.epoch == 0 || self.epoch == u32::MAX {
            clear(&mut self.marks);
            self.epoch = 1;
        } else {
            self.epoch += 1;
        }
        Ok(())
    }

    /// Marks an id, and answers whether it was unmarked. It takes no memory.
    pub fn mark(&mut self, id: u32) -> bool
        requires { id < length self.old.marked }
        ensures answer { result ≡ not (is_marked self.old id) }
        ensures marked { self.new ≡ record self.old { marked = slice_set self.old.marked id true } }
    {
        let fresh = self.marks[id as usize] != self.epoch;
        self.marks[id as usize] = self.epoch;
        fresh
    }

    /// Whether an id is marked. It takes no memory.
    pub fn seen(&self, id: u32) -> bool
        requires { id < length self.now.marked }
        ensures { result ≡ is_marked self.now id }
    {
        self.marks[id as usize] == self.epoch
    }
}

/// Makes each number 0, which is no epoch's from 1 on.
fn clear(marks: &mut Vec<u32>)
    ensures zero { (k : ℕ) → slice_index marks.new.items k ≡ 0 }
    ensures same { vec_len marks.new ≡ vec_len marks.old }
{
    for mark in marks.iter_mut() {
        *mark = 0;
    }
}
