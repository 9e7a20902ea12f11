//! A list in pages: places are the ids of a map. A copy takes nothing that grows with it, and a change copies what it touches.
ghost use Rattle.std.specs.Prelude.{◌≡◌, ◌<◌, ◌++◌, ◌∷◌, [], length, slice_get, swap_remove, IfOk, OnOk, OnErr};
ghost use Rattle.std.specs.Option.{option_copied};

use crate::{Copied, PageMap};
use std::alloc::Global;
use std::marker::Model;
use vs_outside::NoMemory;

/// Items in order, in pages that copies share. Contracts see the list. A refused change leaves it as it was.
#[derive(Drop)]
pub struct PageList<T> {
    map: PageMap<T>,
    len: u32,
}

impl<T> Model for PageList<T> {
    ghost use Rattle.std.specs.Prelude.{List};
    ghost use Rattle.vs_page.specs.Changes.{items_of};
    ghost use Rattle.vs_page.specs.FirstItems.{first, IsFull};

    ghost Value = { List T };

    ghost view = { λ l. first (items_of l.map) l.len };

    ghost invariant = { λ l. IsFull (items_of l.map) l.len };
}

impl<T: Copied> PageList<T> {
    /// No items.
    pub fn new(alloc: Global) -> Result<PageList<T>, NoMemory>
        ensures { IfOk result (λ list. list ≡ []) }
    {
        Ok(PageList {
            map: PageMap::new(alloc)?,
            len: 0,
        })
    }

    /// The same list, which later changes to this one leave as it is.
    pub fn try_clone(&self) -> Result<PageList<T>, NoMemory>
        ensures { IfOk result (λ copy. copy ≡ self.now) }
    {
        Ok(PageList {
            map: self.map.try_clone()?,
            len: self.len,
        })
    }

    /// How many items.
    pub fn len(&self) -> u32
        ensures { result ≡ length self.now }
    {
        self.len
    }

    /// The item at a place, counted from 0; None where there is none.
    pub fn get(&self, place: u32) -> Option<&T>
        ensures { option_copied result ≡ slice_get self.now place }
    {
        if place >= self.len {
            return None;
        }
        self.map.get(place)
    }

    /// Puts an item last.
    pub fn push(&mut self, item: T) -> Result<(), NoMemory>
        requires { length self.old < 4294967295 }
        ensures ok { OnOk result (self.new ≡ self.old ++ item ∷ []) }
        ensures err { OnErr result (self.new ≡ self.old) }
    {
        self.map.put(self.len, Some(item))?;
        self.len += 1;
        Ok(())
    }

    /// Takes the item at a place away; the last one takes its place.
    pub fn swap_remove(&mut self, place: u32) -> Result<(), NoMemory>
        requires { place < length self.old }
        ensures ok { OnOk result ((d : T) → self.new ≡ swap_remove self.old place d) }
        ensures err { OnErr result (self.new ≡ self.old) }
    {
        let last = self.len - 1;
        self.map.take_to(last, place)?;
        self.len = last;
        Ok(())
    }
}
