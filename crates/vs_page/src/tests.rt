//! Maps of pages and their snapshots: what a snapshot shares stays as it was, and a refused publish changes nothing.
ghost use Rattle.std.specs.Prelude.{◌≡◌, ◌<◌};

use crate::{Copied, PageList, PageNodes};
use std::alloc::{AllocError, Global};
use std::marker::Brand;
use std::sync::ledger::{Blank, Ledger};
use vs_graph::{Edit, FreshNodes, InlineBody, LayerLinks, Node, Nodes, Steps};
use vs_outside::NoMemory;

/// A member of level 0 with one word and no links.
fn member(alloc: Global, word: u64) -> Result<Node, NoMemory> {
    Ok(Node {
        body: InlineBody::new(alloc, b"a", &[word])?,
        attr: None,
        level: 0,
        links: LayerLinks::new(alloc, 0)?,
    })
}

/// The first word of the member at an id, where it is told as the node has it.
fn word_by<L: Ledger>(nodes: &PageNodes, id: u32, blank: Blank) -> Option<u64>
    requires name { blank.name ≡ L.name }
    requires parts { blank.parts ≡ L.parts }
    requires some { 0 < L.parts }
{
    let mut reads = Steps::<L>::new(blank);
    match nodes.get(id, &mut reads) {
        Some(node) => {
            let word = node.body.bits().first().copied();
            let told = nodes.words(id, &mut reads).first().copied();
            if word == told { word } else { None }
        }
        None => None,
    }
}

fn word_of(nodes: &PageNodes, id: u32) -> Option<u64> {
    word_by::<Brand>(nodes, id, Blank::new(1))
}

/// Publishes an edit of ids that a graph may have.
fn publish(nodes: &mut PageNodes, edit: Edit) -> Result<(), NoMemory> {
    let end = edit.end();
    let limit = nodes.limit();
    if end > 1048576 {
        return Err(AllocError);
    }
    if limit > 1048576 {
        return Err(AllocError);
    }
    nodes.publish(edit)
}

/// An edit that puts a member with its id as its word at each id of some ranges.
fn members_at(alloc: Global, ranges: &[(u32, u32)]) -> Result<Edit, NoMemory> {
    let mut edit = Edit::new(alloc);
    for (first, end) in ranges {
        for id in *first..*end {
            edit.put(id, member(alloc, u64::from(id))?)?;
        }
    }
    Ok(edit)
}

/// An edit that puts a member with the word 7 at some ids, and frees others.
fn sevens_at(alloc: Global, ids: &[u32], freed: &[u32]) -> Result<Edit, NoMemory> {
    let mut edit = Edit::new(alloc);
    for id in ids {
        edit.put(*id, member(alloc, 7)?)?;
    }
    for id in freed {
        edit.free(*id)?;
    }
    Ok(edit)
}

/// Whether the map has at each id of some ranges a member with this word: the id, or what a change by `sevens_at` says where it was made.
fn has_words(
    nodes: &PageNodes,
    ranges: &[(u32, u32)],
    sevens: &[u32],
    freed: &[u32],
    is_changed: bool,
) -> bool {
    let mut all = true;
    for (first, end) in ranges {
        for id in *first..*end {
            let expected = if is_changed && sevens.contains(&id) {
                Some(7)
            } else if is_changed && freed.contains(&id) {
                None
            } else {
                Some(u64::from(id))
            };
            all = all && word_of(nodes, id) == expected;
        }
    }
    all
}

/// Forty members in two pages of each of two branches, and a change: whether it is made or refused as a whole, and whether a snapshot
/// that is held keeps what it had.
fn is_whole(alloc: Global, is_held: bool) -> Result<bool, NoMemory> {
    let ranges: &[(u32, u32)] = &[(4, 24), (4086, 4106)];
    let sevens: &[u32] = &[4, 15, 16, 4095, 4096];
    let freed: &[u32] = &[5, 4097];
    let mut nodes: PageNodes = FreshNodes::fresh(alloc)?;
    publish(&mut nodes, members_at(alloc, ranges)?)?;
    let held = if is_held {
        Some(nodes.snapshot()?)
    } else {
        None
    };
    let edit = sevens_at(alloc, sevens, freed)?;
    let is_changed = publish(&mut nodes, edit).is_ok();
    let is_kept = match held {
        Some(held) => has_words(&held, ranges, sevens, freed, false),
        None => true,
    };
    Ok(is_kept && has_words(&nodes, ranges, sevens, freed, is_changed) && nodes.limit() == 4106)
}

#[test]
fn a_change_is_whole_or_not_at_all(rt: HostRuntime) -> Result<(), NoMemory> {
    let alloc = rt.alloc();
    assert!(rt; is_whole(alloc, false)?);
    assert!(rt; is_whole(alloc, true)?);
    Ok(())
}

#[test]
fn a_snapshot_of_many_stays_as_it_was(rt: HostRuntime) -> Result<(), NoMemory> {
    let alloc = rt.alloc();
    let ranges: &[(u32, u32)] = &[(0, 5000)];
    let sevens: &[u32] = &[0, 15, 16, 4095, 4096];
    let mut nodes = PageNodes::new(alloc)?;
    publish(&mut nodes, members_at(alloc, ranges)?)?;
    let before = nodes.snapshot()?;
    publish(&mut nodes, sevens_at(alloc, sevens, &[])?)?;
    assert!(rt; has_words(&nodes, ranges, sevens, &[], true));
    assert!(rt; has_words(&before, ranges, sevens, &[], false));
    // and by a change in place, once nobody else has the pages
    let after = nodes.snapshot()?;
    drop(before);
    drop(after);
    publish(&mut nodes, sevens_at(alloc, &[], sevens)?)?;
    assert!(rt; has_words(&nodes, ranges, &[], sevens, true));
    assert!(rt; word_of(&nodes, 5000).is_none());
    assert!(rt; nodes.limit() == 5000);
    Ok(())
}

/// An item of which a copy is refused where it is stiff.
#[derive(Drop)]
struct Item {
    number: u32,
    is_stiff: bool,
}

impl Copied for Item {
    fn copied(&self, _alloc: Global) -> Result<Item, NoMemory> {
        if self.is_stiff {
            return Err(AllocError);
        }
        Ok(Item {
            number: self.number,
            is_stiff: false,
        })
    }
}

/// Whether a list has the numbers from 0 on in their order, but for one place.
fn has_numbers(list: &PageList<Item>, len: u32, place: u32, number: u32) -> bool {
    let mut all = list.len() == len && list.get(len).is_none();
    for at in 0..len {
        let expected = if at == place { number } else { at };
        all = all
            && match list.get(at) {
                Some(item) => item.number == expected,
                None => false,
            };
    }
    all
}

#[test]
fn a_list_is_changed_or_stays(rt: HostRuntime) -> Result<(), NoMemory> {
    let alloc = rt.alloc();
    let mut list = PageList::new(alloc)?;
    for number in 0..40 {
        if list.len() == number {
            list.push(Item {
                number,
                is_stiff: number == 20,
            })?;
        }
    }
    let held = list.try_clone()?;
    // the pages of places 3 and 39 are copied, the stiff item's page is not
    if list.len() == 40 {
        list.swap_remove(3)?;
    }
    // no copy can be made of the page of place 17, so nothing changes
    if list.len() == 39 {
        assert!(rt; list.swap_remove(17).is_err());
    }
    assert!(rt; has_numbers(&list, 39, 3, 39));
    assert!(rt; has_numbers(&held, 40, 40, 0));
    // nobody else has it now, so it is changed in place
    drop(held);
    if list.len() == 39 {
        list.swap_remove(38)?;
    }
    if list.len() == 38 {
        list.swap_remove(17)?;
    }
    assert!(rt; list.len() == 37);
    assert!(rt; list.get(17).map(|item| item.number) == Some(37));
    Ok(())
}
