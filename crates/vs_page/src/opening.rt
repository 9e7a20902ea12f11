//! Ways to pages made nobody else's: what somebody else has is copied, and what is short is filled up. The map means the same
//! throughout, so whatever is refused, nothing has changed. This is all that takes memory when a map is changed.
ghost use Rattle.std.specs.Prelude.{◌≡◌, ◌≤◌, ◌<◌, ℕ, length, slice_index_or, IfOk};
ghost use Rattle.vs_page.specs.Tree.{item_at, list_at, at_digits};

use crate::Copied;
use crate::page_map::{Branch, Page, Root};
use crate::shared_list::SharedList;
use std::alloc::Global;
use vs_outside::NoMemory;

/// How many items a page has.
const PAGE_ITEMS: usize = 16;

fn copy_or<X: Copied>(alloc: Global, items: &[X], place: usize, blank: &X) -> Result<X, NoMemory>
    ensures { IfOk result (λ copy. copy ≡ slice_index_or items.now place blank.now) }
{
    match items.get(place) {
        Some(item) => item.copied(alloc),
        None => blank.copied(alloc),
    }
}

/// Copies of the items, and then of a blank one, so many in all.
fn padded<X: Copied>(alloc: Global, items: &[X], end: usize, blank: &X) -> Result<Vec<X>, NoMemory>
    requires { length items.now ≤ end }
    ensures long { IfOk result (λ copies. length copies.items ≡ end) }
    ensures same { IfOk result (λ copies. (k : ℕ) → slice_index_or copies.items k blank.now ≡ slice_index_or items.now k blank.now) }
{
    let mut copies = Vec::with_capacity(alloc, end)?;
    for place in 0..end {
        copies.push_reserved(copy_or(alloc, items, place, blank)?);
    }
    Ok(copies)
}

/// Copies of the lists, with the place among them.
fn lists_with<X: Drop>(
    alloc: Global,
    lists: &[SharedList<X>],
    place: usize,
) -> Result<Vec<SharedList<X>>, NoMemory>
    ensures long { IfOk result (λ copies. place < length copies.items) }
    ensures same { IfOk result (λ copies. (p : ℕ) → list_at copies.items p ≡ list_at lists.now p) }
{
    let blank = SharedList::new(alloc, Vec::new(alloc))?;
    padded(
        alloc,
        lists,
        lists.len().max(place.saturating_add(1)),
        &blank,
    )
}

/// Makes a page whole and nobody else's.
fn open_page<T: Copied>(alloc: Global, page: &mut Page<T>) -> Result<(), NoMemory>
    ensures { (i : ℕ) → item_at page.new i ≡ item_at page.old i }
{
    let len = page.as_slice().len();
    if len >= PAGE_ITEMS && page.is_own() {
        return Ok(());
    }
    let copies = padded(alloc, page.as_slice(), len.max(PAGE_ITEMS), &None)?;
    *page = SharedList::new(alloc, copies)?;
    Ok(())
}

/// Makes a branch and its page at a place nobody else's.
fn open_in_branch<T: Copied>(
    alloc: Global,
    branch: &mut Branch<T>,
    page: usize,
) -> Result<(), NoMemory>
    ensures { (p i : ℕ) → item_at (list_at branch.new p) i ≡ item_at (list_at branch.old p) i }
{
    if let Some(own) = branch.get_mut(page) {
        return open_page(alloc, own);
    }
    let mut copies = lists_with(alloc, branch.as_slice(), page)?;
    open_page(alloc, &mut copies[page])?;
    *branch = SharedList::new(alloc, copies)?;
    Ok(())
}

/// Makes a root, its branch at a place and the page there nobody else's.
pub(crate) fn open_in_root<T: Copied>(
    alloc: Global,
    root: &mut Root<T>,
    branch: usize,
    page: usize,
) -> Result<(), NoMemory>
    ensures { (b p i : ℕ) → at_digits root.new b p i ≡ at_digits root.old b p i }
{
    if let Some(own) = root.get_mut(branch) {
        return open_in_branch(alloc, own, page);
    }
    let mut copies = lists_with(alloc, root.as_slice(), branch)?;
    open_in_branch(alloc, &mut copies[branch], page)?;
    *root = SharedList::new(alloc, copies)?;
    Ok(())
}
