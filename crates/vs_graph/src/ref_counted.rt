//! A shared value that contracts see as the value: std's `Arc` compares by its pointer there.
ghost use Rattle.std.specs.Prelude.{◌≡◌, IfOk};

use std::alloc::Global;
use std::marker::Model;
use std::sync::Arc;
use vs_outside::NoMemory;

/// An `Arc` that contracts see as its value, so that a copy equals what it copies.
#[derive(Drop)]
pub struct RefCounted<T> {
    arc: Arc<T>,
}

impl<T> Model for RefCounted<T> {
    ghost use Rattle.std.specs.Arc.{arc_value};

    ghost Value = { T };

    ghost coded = { T.code };

    ghost view = { λ s. arc_value s.arc };
}

impl<T> RefCounted<T> {
    pub fn get(&self) -> &T
        ensures { result.now ≡ self.now }
    {
        &self.arc
    }
}

impl<T: Drop> RefCounted<T> {
    pub fn new(alloc: Global, value: T) -> Result<RefCounted<T>, NoMemory>
        ensures { IfOk result (λ counted. counted ≡ value) }
    {
        let arc = Arc::new(alloc, value)?;
        Ok(RefCounted { arc })
    }

    pub fn try_clone(&self) -> Result<RefCounted<T>, NoMemory>
        ensures { IfOk result (λ copy. copy ≡ self.now) }
    {
        let arc = Arc::try_clone(&self.arc)?;
        Ok(RefCounted { arc })
    }
}
