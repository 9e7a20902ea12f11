//! The plain list: all members of all sets in the order in which they were added, each with the shape of its set.
use std::alloc::Global;
use vs_outside::{List, NoMemory};

/// A member. Keys and names are letters; of its vector's components the lowest bit is the first; the number is that of its attribute, 0 for
/// none.
#[derive(Clone, Copy, Debug, PartialEq, Eq)]
pub struct Member {
    pub key: u8,
    pub name: u8,
    pub dim: u32,
    pub m: u16,
    pub vector: u32,
    pub level: u8,
    pub number: u8,
}

impl Member {
    pub fn is_at(&self, key: u8, name: u8) -> bool {
        self.key == key && self.name == name
    }

    /// In how many components two vectors differ.
    pub fn distance(&self, vector: u32) -> u32 {
        (self.vector ^ vector).count_ones()
    }

    /// Whether the attribute passes a filter for numbers from `least` on.
    pub fn passes(&self, least: u8) -> bool {
        least == 0 || (self.number != 0 && least <= self.number)
    }
}

/// How many these are.
pub fn count_of(members: &[Member]) -> u32 {
    u32::try_from(members.len()).unwrap_or(u32::MAX)
}

/// How many of these have an attribute.
pub fn count_attributes(members: &[Member]) -> u32 {
    let mut count: u32 = 0;
    for member in members {
        if member.number != 0 {
            count = count.saturating_add(1);
        }
    }
    count
}

/// The greatest level of these.
pub fn greatest_level(members: &[Member]) -> u8 {
    let mut greatest = 0;
    for member in members {
        greatest = greatest.max(member.level);
    }
    greatest
}

#[derive(Drop)]
pub struct Plain {
    alloc: Global,
    members: List<Member>,
}

impl Plain {
    pub fn new(alloc: Global) -> Plain {
        Plain {
            alloc,
            members: List::new(alloc),
        }
    }

    /// How many members all sets have.
    pub fn count_all(&self) -> u32 {
        count_of(self.members.as_slice())
    }

    /// How many members a set has.
    pub fn count(&self, key: u8) -> u32 {
        let mut count: u32 = 0;
        for member in self.members.as_slice() {
            if member.key == key {
                count = count.saturating_add(1);
            }
        }
        count
    }

    /// The members of a set in their places.
    pub fn members_of(&self, key: u8) -> Result<List<Member>, NoMemory> {
        let mut found = List::new(self.alloc);
        for member in self.members.as_slice() {
            if member.key == key {
                found.push(*member)?;
            }
        }
        Ok(found)
    }

    /// A set's first member.
    pub fn first_of(&self, key: u8) -> Option<Member> {
        for member in self.members.as_slice() {
            if member.key == key {
                return Some(*member);
            }
        }
        None
    }

    /// A set's last member.
    fn last_of(&self, key: u8) -> Option<Member> {
        let mut last = None;
        for member in self.members.as_slice() {
            if member.key == key {
                last = Some(*member);
            }
        }
        last
    }

    pub fn find(&self, key: u8, name: u8) -> Option<Member> {
        for member in self.members.as_slice() {
            if member.is_at(key, name) {
                return Some(*member);
            }
        }
        None
    }

    pub fn has(&self, key: u8, name: u8) -> bool {
        self.find(key, name).is_some()
    }

    /// How many of these keys are there.
    pub fn count_keys(&self, keys: &[u8]) -> u32 {
        let mut count: u32 = 0;
        for key in keys {
            if self.first_of(*key).is_some() {
                count = count.saturating_add(1);
            }
        }
        count
    }

    /// Adds a member last, or puts it in the place of the one of its name.
    pub fn put(&mut self, member: Member) -> Result<(), NoMemory> {
        for place in 0..self.members.len() {
            if let Some(old) = self.members.get(place).copied() {
                if old.is_at(member.key, member.name) {
                    self.members.set(place, member);
                    return Ok(());
                }
            }
        }
        self.members.push(member)
    }

    /// Takes a member out. The last one of its set takes its place.
    pub fn remove(&mut self, key: u8, name: u8) -> Result<(), NoMemory> {
        let (Some(gone), Some(last)) = (self.find(key, name), self.last_of(key)) else {
            return Ok(());
        };
        let mut kept = List::new(self.alloc);
        for member in self.members.as_slice() {
            if *member == last {
                continue;
            }
            kept.push(if *member == gone { last } else { *member })?;
        }
        self.members = kept;
        Ok(())
    }

    pub fn remove_key(&mut self, key: u8) -> Result<(), NoMemory> {
        let mut kept = List::new(self.alloc);
        for member in self.members.as_slice() {
            if member.key != key {
                kept.push(*member)?;
            }
        }
        self.members = kept;
        Ok(())
    }
}
