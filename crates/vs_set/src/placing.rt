//! What a new member needs in the order of the members, made ready before the graph changes: its name, a free id, the order with it, and
//! room among the names. After it, putting the name last takes no memory.
ghost use Rattle.std.specs.Prelude.{◌≡◌, ◌<◌, ◌^◌, None, IfOk, OnOk, length};
ghost use Rattle.vs_order.specs.Entries.{id_of};
ghost use Rattle.vs_set.specs.Placed.{IsPlaced};

use std::alloc::Global;
use vs_order::{Name, Names, Order};
use vs_outside::NoMemory;

/// A new member's name and id, and the members' order with it.
#[derive(Drop)]
pub(crate) struct Place {
    pub(crate) name: Name,
    pub(crate) id: u32,
    pub(crate) order: Order,
}

/// A place for a new name, behind all members. The names are as they were, with room for one more.
pub(crate) fn place_for(
    alloc: Global,
    names: &mut Names,
    order: &Order,
    name: &[u8],
) -> Result<Place, NoMemory>
    requires same { order.now ≡ names.old.entries }
    requires new { id_of name.now names.old.entries ≡ None }
    requires few { length names.old.entries < 2 ^ 20 }
    ensures placed { IfOk result (λ place. IsPlaced names.old.entries names.old.next name.now place) }
    ensures entries { names.new.entries ≡ names.old.entries }
    ensures next { names.new.next ≡ names.old.next }
    ensures room { OnOk result (0 < names.new.room) }
{
    let name = Name::new(alloc, name)?;
    let id = names.next_id();
    names.reserve()?;
    let order = order.with_last(&name, id)?;
    Ok(Place { name, id, order })
}
