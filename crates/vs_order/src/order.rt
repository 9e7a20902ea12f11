//! What a snapshot keeps of a set's order: by each place the id and the name of its member, and by each id the place. Both are in pages
//! that copies share, so that whoever holds the old order sees it as it was, and a change copies what it touches and no more.
ghost use Rattle.std.specs.Prelude.{◌≡◌, ◌<◌, ◌≤◌, ◌++◌, ◌∷◌, [], true, false, length, IfOk, slice_get, IsSomeAnd};
ghost use Rattle.vs_defs.specs.Limits.{max_members};
ghost use Rattle.vs_order.specs.Entries.{is_taken, place_of, place_of_id, without_place};

use crate::Name;
use std::alloc::Global;
use std::marker::Model;
use vs_outside::NoMemory;
use vs_page::{Copied, PageList, PageMap};

/// A member at its place.
#[derive(Drop)]
pub(crate) struct Listed {
    pub(crate) id: u32,
    pub(crate) name: Name,
}

impl Copied for Listed {
    fn copied(&self, _alloc: Global) -> Result<Listed, NoMemory> {
        Ok(Listed {
            id: self.id,
            name: self.name.try_clone()?,
        })
    }
}

/// The members in their order, in pages shared with copies. A copy takes nothing that grows with their number.
#[derive(Drop)]
pub struct Order {
    members: PageList<Listed>,
    // by id; nothing is said of those that no member has
    places: PageMap<u32>,
}

impl Model for Order {
    ghost use Rattle.std.specs.Prelude.{◌≤◌, length};
    ghost use Rattle.vs_page.specs.Changes.{items_of};
    ghost use Rattle.vs_defs.specs.Limits.{max_members};
    ghost use Rattle.vs_order.specs.Entries.{Entries, ids_of};
    ghost use Rattle.vs_order.specs.Listed.{entries_of, ArePlaces};

    ghost Value = { Entries };

    ghost view = { λ o. entries_of o.members };

    ghost invariant = { λ o. ArePlaces (ids_of (entries_of o.members)) (items_of o.places) × (length o.members ≤ max_members) };
}

impl Order {
    /// No members.
    pub fn new(alloc: Global) -> Result<Order, NoMemory>
        ensures { IfOk result (λ order. order ≡ []) }
    {
        Ok(Order {
            members: PageList::new(alloc)?,
            places: PageMap::new(alloc)?,
        })
    }

    /// The same order.
    pub fn try_clone(&self) -> Result<Order, NoMemory>
        ensures { IfOk result (λ copy. copy ≡ self.now) }
    {
        Ok(Order {
            members: self.members.try_clone()?,
            places: self.places.try_clone()?,
        })
    }

    /// How many members.
    pub fn len(&self) -> u32
        ensures value { result ≡ length self.now }
        ensures few { result ≤ max_members }
    {
        self.members.len()
    }

    /// The id of the member at a place.
    pub fn id_at(&self, place: u32) -> u32
        requires { place < length self.now }
        ensures { IsSomeAnd (slice_get self.now place) (λ e. result ≡ e.1) }
    {
        match self.members.get(place) {
            Some(member) => member.id,
            None => unreachable!(),
        }
    }

    /// The name of the member at a place.
    pub fn name_at(&self, place: u32) -> &[u8]
        requires { place < length self.now }
        ensures { IsSomeAnd (slice_get self.now place) (λ e. result.now ≡ e.0) }
    {
        match self.members.get(place) {
            Some(member) => member.name.as_slice(),
            None => unreachable!(),
        }
    }

    /// The place of a name. It goes through the members.
    pub fn place_of_name(&self, name: &[u8]) -> Option<u32>
        ensures { result ≡ place_of name.now self.now }
    {
        for place in 0..self.len() {
            if name == self.name_at(place) {
                return Some(place);
            }
        }
        None
    }

    /// The place of the member of an id.
    pub fn place_of(&self, id: u32) -> u32
        requires { is_taken id self.now ≡ true }
        ensures value { result ≡ place_of_id id self.now }
        ensures there { IsSomeAnd (slice_get self.now result) (λ e. id ≡ e.1) }
    {
        match self.places.get(id) {
            Some(place) => *place,
            None => unreachable!(),
        }
    }

    /// The order with one more member, who goes last.
    pub fn with_last(&self, name: &Name, id: u32) -> Result<Order, NoMemory>
        requires free { is_taken id self.now ≡ false }
        requires few { length self.now < max_members }
        ensures { IfOk result (λ order. order ≡ self.now ++ (name.now, id) ∷ []) }
    {
        let mut members = self.members.try_clone()?;
        let place = members.len();
        members.push(Listed {
            id,
            name: name.try_clone()?,
        })?;
        let mut places = self.places.try_clone()?;
        places.put(id, Some(place))?;
        Ok(Order { members, places })
    }

    /// The order without the member at a place; the last one takes the place.
    pub fn without(&self, place: u32) -> Result<Order, NoMemory>
        requires { place < length self.now }
        ensures { IfOk result (λ order. order ≡ without_place place self.now) }
    {
        let last = self.id_at(self.len() - 1);
        let mut members = self.members.try_clone()?;
        members.swap_remove(place)?;
        let mut places = self.places.try_clone()?;
        places.put(last, Some(place))?;
        Ok(Order { members, places })
    }
}
