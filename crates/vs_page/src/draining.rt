//! An edit's changes as a list, of which the first at an id counts.
ghost use Rattle.std.specs.Prelude.{◌≡◌, ℕ, length, IfOk, OnOk};
ghost use Rattle.std.specs.Option.{option_or};
ghost use Rattle.std.specs.Ordering.{nat_cmp};
ghost use Rattle.std.specs.BTreeMap.{get};
ghost use Rattle.vs_graph.specs.Said.{listed};
ghost use Rattle.vs_graph.specs.Edits.{changed};
ghost use Rattle.vs_page.specs.Changes.{says};

use crate::Change;
use std::alloc::Global;
use std::collections::BTreeMap;
use vs_graph::{Edit, Node};
use vs_outside::NoMemory;

/// The listed changes, the last first.
fn listed_changes(
    alloc: Global,
    ids: Vec<u32>,
    nodes: Vec<Option<Node>>,
) -> Result<Vec<Change<Node>>, NoMemory>
    requires { length ids.items ≡ length nodes.items }
    ensures { IfOk result (λ list. (q : ℕ) → says list.items q ≡ listed ids.items nodes.items q) }
{
    let (mut ids, mut nodes) = (ids, nodes);
    let mut list = Vec::with_capacity(alloc, ids.len())?;
    while let Some(id) = ids.pop() {
        match nodes.pop() {
            Some(item) => list.push(Change { id, item })?,
            None => unreachable!(),
        }
    }
    Ok(list)
}

/// Puts the changes that a map has after those of a list.
fn add_mapped<T: Drop>(
    list: &mut Vec<Change<T>>,
    more: BTreeMap<u32, Option<T>>,
) -> Result<(), NoMemory>
    ensures { OnOk result ((q : ℕ) → says list.new.items q ≡ option_or (says list.old.items q) (get nat_cmp more q)) }
{
    let mut more = more;
    while let Some((id, item)) = more.pop_first() {
        list.push(Change { id, item })?;
    }
    Ok(())
}

/// What an edit says, in one list.
pub(crate) fn edit_changes(alloc: Global, edit: Edit) -> Result<Vec<Change<Node>>, NoMemory>
    ensures { IfOk result (λ list. (q : ℕ) → says list.items q ≡ changed edit q) }
{
    let changes = edit.into_changes();
    let mut list = listed_changes(alloc, changes.ids, changes.nodes)?;
    add_mapped(&mut list, changes.more)?;
    Ok(list)
}
