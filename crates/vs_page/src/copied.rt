//! What a map keeps: items of which equal ones can be made, since a page that is shared is copied before it is changed.
ghost use Rattle.std.specs.Prelude.{◌≡◌, IfOk};

use crate::shared_list::SharedList;
use std::alloc::Global;
use vs_graph::Node;
use vs_outside::NoMemory;

/// Items of which an equal one can be made.
pub trait Copied: Drop + Sized {
    fn copied(&self, alloc: Global) -> Result<Self, NoMemory>
        ensures { IfOk result (λ copy. copy ≡ self.now) };
}

impl<T: Copied> Copied for Option<T> {
    fn copied(&self, alloc: Global) -> Result<Option<T>, NoMemory> {
        match self {
            Some(item) => Ok(Some(item.copied(alloc)?)),
            None => Ok(None),
        }
    }
}

impl<X: Drop> Copied for SharedList<X> {
    fn copied(&self, _alloc: Global) -> Result<SharedList<X>, NoMemory> {
        self.try_clone()
    }
}

impl Copied for Node {
    fn copied(&self, alloc: Global) -> Result<Node, NoMemory> {
        self.try_clone(alloc)
    }
}

impl Copied for u32 {
    fn copied(&self, _alloc: Global) -> Result<u32, NoMemory> {
        Ok(*self)
    }
}
