//! The words of a graph's members by their ids: what they tell of an id is what its node has.
ghost use Rattle.std.specs.Prelude.{◌≡◌, ◌⊎◌, ℕ, true, Contains, IfSome, IfOk, OnOk};
ghost use Rattle.vs_page.specs.Changes.{items_of, says};
ghost use Rattle.vs_page.specs.PagedWords.{TellsAt, IsToldAs};

use crate::page_map::Change;
use crate::{PageMap, Rows};
use std::alloc::Global;
use vs_graph::Node;
use vs_outside::NoMemory;

/// Whether the words of a changed node are those that are told of its id; so they are where it has none.
fn is_told(rows: &Rows, change: &Change<Node>) -> bool
    ensures { result ≡ true → IsToldAs rows.now change.now.id change.now.item }
{
    match &change.item {
        Some(node) => match rows.get(change.id) {
            Some(words) => words == node.body.bits(),
            None => false,
        },
        None => true,
    }
}

/// Lists the id of a change whose words are not told.
fn list_untold(ids: &mut Vec<u32>, rows: &Rows, change: &Change<Node>) -> Result<(), NoMemory>
    ensures more { OnOk result ((q : ℕ) → Contains ids.old.items q → Contains ids.new.items q) }
    ensures here { OnOk result (Contains ids.new.items change.now.id ⊎ IsToldAs rows.now change.now.id change.now.item) }
{
    if !is_told(rows, change) {
        ids.push(change.id)?;
    }
    Ok(())
}

/// The ids of changes whose words are not told.
pub(crate) fn untold_ids(
    alloc: Global,
    rows: &Rows,
    changes: &[Change<Node>],
) -> Result<Vec<u32>, NoMemory>
    ensures { IfOk result (λ ids. (q : ℕ) → IfSome (says changes.now q) (λ item. Contains ids.items q ⊎ IsToldAs rows.now q item)) }
{
    let mut ids = Vec::new(alloc);
    for change in changes {
        list_untold(&mut ids, rows, change)?;
    }
    Ok(ids)
}

/// Has the words of an id told, or nothing of it.
fn tell(map: &PageMap<Node>, rows: &mut Rows, id: u32)
    ensures there { TellsAt rows.new (items_of map.now) id }
    ensures others { (q : ℕ) → TellsAt rows.old (items_of map.now) q → TellsAt rows.new (items_of map.now) q }
{
    if let Some(node) = map.get(id) {
        rows.put(id, Some(node.body.bits()));
    }
}

/// Has the words of ids told, or nothing of them.
pub(crate) fn tell_all(map: &PageMap<Node>, rows: &mut Rows, ids: &[u32])
    ensures there { (q : ℕ) → Contains ids.now q → TellsAt rows.new (items_of map.now) q }
    ensures others { (q : ℕ) → TellsAt rows.old (items_of map.now) q → TellsAt rows.new (items_of map.now) q }
{
    for id in ids {
        tell(map, rows, *id);
    }
}
