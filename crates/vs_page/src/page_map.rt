//! A map whose pages copies share. A change first makes the ways to its places its own, which changes nothing of what the map means,
//! and then takes the changes over at one stroke; only then they move into their places. So a refused change leaves the map as it was,
//! and a copy keeps what it had, since what it shares is never written.
ghost use Rattle.std.specs.Prelude.{◌≡◌, ◌≢◌, ◌<◌, ℕ, length, unwrap_or, None, IsTrue, IfOk, OnOk, OnErr};
ghost use Rattle.std.specs.Option.{option_copied};
ghost use Rattle.vs_page.specs.Tree.{at_root};
ghost use Rattle.vs_page.specs.Changes.{says, shown, items_of};

use crate::Copied;
use crate::opening::open_in_root;
use crate::placing::put_in_root;
use crate::reading::{change_at, item_at_id};
use crate::shared_list::SharedList;
use std::alloc::Global;
use vs_outside::NoMemory;

/// The items of 16 ids.
pub(crate) type Page<T> = SharedList<Option<T>>;

/// The pages of 4,096 ids, 256 of them.
pub(crate) type Branch<T> = SharedList<Page<T>>;

/// The branches of all ids.
pub(crate) type Root<T> = SharedList<Branch<T>>;

/// What is to be at an id: an item, or none.
#[derive(Drop)]
pub struct Change<T> {
    pub id: u32,
    pub item: Option<T>,
}

impl<T: Copied> Copied for Change<T> {
    fn copied(&self, alloc: Global) -> Result<Change<T>, NoMemory> {
        Ok(Change {
            id: self.id,
            item: Copied::copied(&self.item, alloc)?,
        })
    }
}

/// Moves the last change into the root, where nobody else has the way to its place.
fn settle_last<T: Drop>(root: &mut Root<T>, late: &mut Vec<Change<T>>) -> bool
    ensures same { (q : ℕ) → shown late.new.items root.new q ≡ shown late.old.items root.old q }
    ensures fewer { IsTrue result → length late.new.items < length late.old.items }
{
    let Some(Change { id, item }) = late.pop() else {
        return false;
    };
    let mut item = item;
    let branch = (id / 4096) as usize;
    let page = (id / 16 % 256) as usize;
    if put_in_root(root, branch, page, (id % 16) as usize, &mut item) {
        return true;
    }
    late.push_reserved(Change { id, item });
    false
}

/// Moves changes into the root, the last first, as long as nobody else has the ways to their places.
fn settle<T: Drop>(root: &mut Root<T>, late: &mut Vec<Change<T>>)
    ensures { (q : ℕ) → shown late.new.items root.new q ≡ shown late.old.items root.old q }
{
    while settle_last(root, late) {}
}

/// Makes the ways to the ids of the changes nobody else's. The root means the same, also after a refusal.
fn open_all<T: Copied>(
    alloc: Global,
    root: &mut Root<T>,
    changes: &[Change<T>],
) -> Result<(), NoMemory>
    ensures { (q : ℕ) → at_root root.new q ≡ at_root root.old q }
{
    for change in changes {
        open_in_root(
            alloc,
            root,
            (change.id / 4096) as usize,
            (change.id / 16 % 256) as usize,
        )?;
    }
    Ok(())
}

fn changes_copied<T: Copied>(
    alloc: Global,
    changes: &[Change<T>],
) -> Result<Vec<Change<T>>, NoMemory>
    ensures { IfOk result (λ copies. copies.items ≡ changes.now) }
{
    let mut copies = Vec::new(alloc);
    for change in changes {
        copies.push(change.copied(alloc)?)?;
    }
    Ok(copies)
}

fn item_copied<T: Copied>(alloc: Global, item: Option<&T>) -> Result<Option<T>, NoMemory>
    ensures { IfOk result (λ copy. copy ≡ option_copied item.entry) }
{
    match item {
        Some(item) => Ok(Some(item.copied(alloc)?)),
        None => Ok(None),
    }
}

/// A map from ids to items. Its pages are shared with copies until a change touches them; a page that no copy has is changed in place.
#[derive(Drop)]
pub struct PageMap<T> {
    root: Root<T>,
    // changes whose places somebody else had: none, since a change makes the ways to its places its own before, which no contract can say
    late: Vec<Change<T>>,
    alloc: Global,
}

impl<T: Copied> PageMap<T> {
    /// The map without items.
    pub fn new(alloc: Global) -> Result<PageMap<T>, NoMemory>
        ensures { IfOk result (λ map. (q : ℕ) → items_of map q ≡ None) }
    {
        Ok(PageMap {
            root: SharedList::new(alloc, Vec::new(alloc))?,
            late: Vec::new(alloc),
            alloc,
        })
    }

    /// The allocator of the map.
    pub fn alloc(&self) -> Global {
        self.alloc
    }

    /// The same map, which later changes to this one leave as it is. It takes nothing that grows with the map.
    pub fn try_clone(&self) -> Result<PageMap<T>, NoMemory>
        ensures { IfOk result (λ map. (q : ℕ) → items_of map q ≡ items_of self.now q) }
    {
        Ok(PageMap {
            root: self.root.try_clone()?,
            late: changes_copied(self.alloc, &self.late)?,
            alloc: self.alloc,
        })
    }

    /// The item at an id.
    pub fn get(&self, id: u32) -> Option<&T>
        ensures { option_copied result ≡ items_of self.now id }
    {
        match change_at(&self.late, id) {
            Some(item) => item.as_ref(),
            None => item_at_id(&self.root, id),
        }
    }

    /// Makes the map what the changes mean over it, or changes nothing. Of two changes at an id the first counts.
    pub fn publish(&mut self, changes: Vec<Change<T>>) -> Result<(), NoMemory>
        ensures ok { OnOk result ((q : ℕ) → items_of self.new q ≡ unwrap_or (says changes.items q) (items_of self.old q)) }
        ensures err { OnErr result ((q : ℕ) → items_of self.new q ≡ items_of self.old q) }
    {
        let mut changes = changes;
        open_all(self.alloc, &mut self.root, &changes)?;
        changes.append(&mut self.late)?;
        self.late = changes;
        settle(&mut self.root, &mut self.late);
        Ok(())
    }

    /// Puts an item at an id, or none, or changes nothing.
    pub fn put(&mut self, id: u32, item: Option<T>) -> Result<(), NoMemory>
        ensures there { OnOk result (items_of self.new id ≡ item) }
        ensures others { OnOk result ((q : ℕ) → q ≢ id → items_of self.new q ≡ items_of self.old q) }
        ensures err { OnErr result ((q : ℕ) → items_of self.new q ≡ items_of self.old q) }
    {
        let mut changes = Vec::with_capacity(self.alloc, 1)?;
        changes.push_reserved(Change { id, item });
        self.publish(changes)
    }

    /// Puts a copy of the item at one id at another, and none at the one, or changes nothing. Where they are the same id, none is there.
    pub fn take_to(&mut self, from: u32, to: u32) -> Result<(), NoMemory>
        ensures from { OnOk result (items_of self.new from ≡ None) }
        ensures to { OnOk result (to ≢ from → items_of self.new to ≡ items_of self.old from) }
        ensures others { OnOk result ((q : ℕ) → q ≢ from → q ≢ to → items_of self.new q ≡ items_of self.old q) }
        ensures err { OnErr result ((q : ℕ) → items_of self.new q ≡ items_of self.old q) }
    {
        let item = item_copied(self.alloc, self.get(from))?;
        let mut changes = Vec::with_capacity(self.alloc, 2)?;
        changes.push_reserved(Change {
            id: from,
            item: None,
        });
        changes.push_reserved(Change { id: to, item });
        self.publish(changes)
    }
}
