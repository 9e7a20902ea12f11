//! Names with the ids of their members, changed in place, and the ids that are free: together the ids are the numbers below a bound, each
//! once.
ghost use Rattle.std.specs.Prelude.{◌≡◌, ◌<◌, ◌≤◌, ◌-◌, ◌++◌, ◌∷◌, [], false, length, take, None, OnOk, vec_capacity};
ghost use Rattle.vs_defs.specs.Limits.{max_members};
ghost use Rattle.vs_order.specs.Entries.{place_of, id_of, is_taken, without_place};
ghost use Rattle.vs_order.specs.Ids.{next_id, next_after};

use crate::Name;
use indexmap::IndexMap;
use std::alloc::Global;
use std::marker::Model;
use vs_outside::NoMemory;

/// The names of a set's members in their order, each with its id. A new name goes last, and the last one takes the place of a removed one.
/// Only `reserve` takes memory.
#[derive(Drop)]
pub struct Names {
    map: IndexMap<Name, u32>,
    free: Vec<u32>,
    next: u32,
}

impl Model for Names {
    ghost use Rattle.std.specs.Prelude.{◌≤◌, ◌-◌, min, vec_capacity};
    ghost use Rattle.indexmap.specs.IndexMap.{spare};
    ghost use Rattle.vs_order.specs.Entries.{Named, ids_of};
    ghost use Rattle.vs_order.specs.Ids.{AreSplit, next_id};

    ghost Value = { Named };

    ghost view = { λ n. record { entries = n.map.entries; next = next_id n.free.items n.next; room = min (spare n.map) (vec_capacity n.free - n.next) } };

    ghost invariant = { λ n. AreSplit (ids_of n.map.entries) n.free.items n.next × (n.next ≤ vec_capacity n.free) };
}

/// The id that the next name takes.
fn next_of(free: &[u32], next: u32) -> u32
    ensures { result ≡ next_id free.now next }
{
    match free.last() {
        Some(id) => *id,
        None => next,
    }
}

/// Takes that id.
fn take_id(free: &mut Vec<u32>, next: &mut u32) -> u32
    requires { next.old < 4294967295 }
    ensures id { result ≡ next_id free.old.items next.old }
    ensures free { free.new.items ≡ take (length free.old.items - 1) free.old.items }
    ensures next { next.new ≡ next_after free.old.items next.old }
    ensures capacity { vec_capacity free.new ≡ vec_capacity free.old }
{
    match free.pop() {
        Some(id) => id,
        None => {
            *next += 1;
            *next - 1
        }
    }
}

impl Names {
    /// No names.
    pub fn new(alloc: Global) -> Names
        ensures { result.entries ≡ [] }
    {
        Names {
            map: IndexMap::new(alloc),
            free: Vec::new(alloc),
            next: 0,
        }
    }

    /// How many names.
    pub fn len(&self) -> u32
        ensures value { result ≡ length self.now.entries }
        ensures few { result ≤ max_members }
    {
        self.map.len() as u32
    }

    /// The place of a name, from 0 on.
    pub fn place_of(&self, name: &[u8]) -> Option<u32>
        ensures { result ≡ place_of name.now self.now.entries }
    {
        match self.map.get_index_of(name) {
            Some(place) => Some(place as u32),
            None => None,
        }
    }

    /// The id of a name.
    pub fn id_of(&self, name: &[u8]) -> Option<u32>
        ensures { result ≡ id_of name.now self.now.entries }
    {
        self.map.get(name).copied()
    }

    /// The id that the next name takes.
    pub fn next_id(&self) -> u32
        requires { length self.now.entries < max_members }
        ensures value { result ≡ self.now.next }
        ensures free { is_taken result self.now.entries ≡ false }
        ensures small { result < max_members }
    {
        next_of(&self.free, self.next)
    }

    /// Makes room for one more name, and for each id to be free one day.
    pub fn reserve(&mut self) -> Result<(), NoMemory>
        ensures entries { self.new.entries ≡ self.old.entries }
        ensures next { self.new.next ≡ self.old.next }
        ensures room { OnOk result (0 < self.new.room) }
    {
        self.map.reserve(1)?;
        let unused = self.next as usize + 1 - self.free.len();
        self.free.reserve(unused)
    }

    /// Puts a new name last, with the id that `next_id` told.
    pub fn push(&mut self, name: Name)
        requires room { 0 < self.old.room }
        requires new { id_of name self.old.entries ≡ None }
        requires few { length self.old.entries < max_members }
        ensures { self.new.entries ≡ self.old.entries ++ (name, self.old.next) ∷ [] }
    {
        let id = take_id(&mut self.free, &mut self.next);
        match self.map.insert(name, id) {
            Ok(_) => {}
            Err(_) => unreachable!(),
        }
    }

    /// Takes the name at a place away, and puts the last one there. Its id is free then.
    pub fn swap_remove(&mut self, place: u32)
        requires { place < length self.old.entries }
        ensures { self.new.entries ≡ without_place place self.old.entries }
    {
        if let Some((_, id)) = self.map.swap_remove_index(place as usize) {
            self.free.push_reserved(id);
        }
    }
}
