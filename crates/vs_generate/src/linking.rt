//! Counts the links of all members at layer 0, which are each pair's two.
ghost use Rattle.std.specs.Prelude.{◌≡◌, Some, codes, IfOk, OnOk};
ghost use Rattle.vs_defs.specs.Store.{Set, set_of};
ghost use Rattle.vs_generate.specs.Asked.{links_of_name, links_below};
ghost use Rattle.vs_thread_defs.specs.Generator.{member_name};

use crate::asking::{KEY, ask, name_of};
use std::alloc::{AllocError, Global};
use vs_command::{Answer, Request};
use vs_outside::{NoMemory, Text};
use vs_slot::Slot;
use vs_store::Store;

/// How many links a member has at layer 0, which VLINKS answers last.
fn links_of_one(
    alloc: Global,
    store: &mut Store,
    number: u32,
    slot: &mut Slot,
) -> Result<usize, NoMemory>
    ensures same { OnOk result (store.new ≡ store.old) }
    ensures links { IfOk result (λ links. (x : Set) → set_of (codes "g") store.old ≡ Some x → links ≡ links_of_name x (member_name number)) }
{
    let key = Text::from_slice(alloc, KEY)?;
    let name = name_of(alloc, number)?;
    let request = Request::Vlinks {
        key,
        name,
        scores: false,
    };
    let answer = ask(store, &request, slot)?;
    match answer {
        Answer::Layers { layers, .. } => match layers.as_slice() {
            [.., lowest] => Ok(lowest.len()),
            [] => Err(AllocError),
        },
        _ => Err(AllocError),
    }
}

/// How many links the first members have at layer 0, so many of them together.
pub fn links_of_all(
    alloc: Global,
    store: &mut Store,
    members: u32,
    slot: &mut Slot,
) -> Result<u64, NoMemory>
    ensures same { OnOk result (store.new ≡ store.old) }
    ensures links { IfOk result (λ links. (x : Set) → set_of (codes "g") store.old ≡ Some x → links ≡ links_below members x) }
{
    let mut total: u64 = 0;
    for number in 0..members {
        let links = links_of_one(alloc, store, number, slot)? as u64;
        let Some(more) = total.checked_add(links) else {
            return Err(AllocError);
        };
        total = more;
    }
    Ok(total)
}
