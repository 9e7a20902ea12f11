//! The summary of a set of generated members: the store is built by the generated requests, asked for its facts, its links and the nearest
//! members of the first one, and the text of it is made whole before any of it is written.
#![tactic(auto)]

ghost use Rattle.std.specs.Prelude.{◌≡◌, IfOk};
ghost use Rattle.vs_defs.specs.Bounds.{IsFrom};
ghost use Rattle.vs_thread_defs.specs.Generator.{Generates};

mod asking;
mod building;
mod linking;
mod printing;
#[cfg(test)]
mod tests;

use crate::asking::{facts, nearest_first};
use crate::building::build;
use crate::linking::links_of_all;
use crate::printing::summary_text;
use std::alloc::Global;
use vs_outside::{NoMemory, Text};
use vs_slot::Slot;

/// The seven lines of the set of so many generated members. Only want of memory is refused.
pub fn summary(alloc: Global, seed: u64, members: u32, dim: u32) -> Result<Text, NoMemory>
    requires members { IsFrom 1 1048576 members }
    requires dim { IsFrom 1 4096 dim }
    ensures { IfOk result (λ text. Generates seed members dim text) }
{
    let mut slot = Slot::new(alloc);
    let mut store = build(alloc, seed, members, dim, &mut slot)?;
    let facts = facts(alloc, &mut store, &mut slot)?;
    let links = links_of_all(alloc, &mut store, members, &mut slot)?;
    let truth = nearest_first(alloc, &mut store, true, &mut slot)?;
    let beam = nearest_first(alloc, &mut store, false, &mut slot)?;
    summary_text(alloc, &facts, links / 2, &truth, &beam)
}
