//! A list behind an `Arc`. It is written only where nobody else has it.
ghost use Rattle.std.specs.Prelude.{◌≡◌, IfOk, IfSome, slice_get, slice_set};
ghost use Rattle.std.specs.Borrow.{LendsIf, sem};
ghost use Rattle.vs_page.specs.contracts.shared_list.SharedList.{the_row};

use std::alloc::Global;
use std::marker::Model;
use std::sync::Arc;
use vs_outside::NoMemory;

/// Items in order, shared with copies. Contracts see the list.
#[derive(Drop)]
pub struct SharedList<X> {
    arc: Arc<Vec<X>>,
}

impl<X> Model for SharedList<X> {
    ghost use Rattle.std.specs.Prelude.{List};
    ghost use Rattle.std.specs.Arc.{arc_value};

    ghost Value = { List X };

    ghost view = { λ s. (arc_value s.arc).items };
}

impl<X> SharedList<X> {
    pub fn as_slice(&self) -> &[X]
        ensures { result.now ≡ self.now }
    {
        &self.arc
    }

    /// Whether nobody else has the list. No clause tells it.
    pub fn is_own(&self) -> bool {
        Arc::strong_count(&self.arc) == 1
    }

    /// The item at a place, to write to. None where somebody else has the list, and past its end.
    pub fn get_mut(&mut self, place: usize) -> Option<&mut X>
        ensures* writes_back { sem 𝓛 (LendsIf (the_row X.row) X.row self.entry result (slice_set self.entry.now place) self.entry.now) }
        ensures value { IfSome result (λ x. slice_get self.old place ≡ Some x.now) }
    {
        match Arc::get_mut(&mut self.arc) {
            Some(items) => items.get_mut(place),
            None => None,
        }
    }
}

impl<X: Drop> SharedList<X> {
    pub fn new(alloc: Global, items: Vec<X>) -> Result<SharedList<X>, NoMemory>
        ensures { IfOk result (λ list. list ≡ items.items) }
    {
        let arc = Arc::new(alloc, items)?;
        Ok(SharedList { arc })
    }

    /// The same list, which copies no item.
    pub fn try_clone(&self) -> Result<SharedList<X>, NoMemory>
        ensures { IfOk result (λ copy. copy ≡ self.now) }
    {
        let arc = Arc::try_clone(&self.arc)?;
        Ok(SharedList { arc })
    }
}
