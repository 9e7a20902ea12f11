//! An item put into its place where nobody else has the way to it. Nothing else is changed, and no memory is taken.
ghost use Rattle.std.specs.Prelude.{◌≡◌, ◌<◌, length, IsTrue, IsFalse};
ghost use Rattle.vs_page.specs.Tree.{list_at, page_with, branch_with, root_with};

use crate::page_map::{Branch, Page, Root};

/// Puts the item into a page in its place, where nobody else has the page.
fn put_in_page<T: Drop>(page: &mut Page<T>, place: usize, item: &mut Option<T>) -> bool
    ensures put { IsTrue result → page.new ≡ page_with page.old place item.old }
    ensures inside { IsTrue result → place < length page.old }
    ensures kept { IsFalse result → page.new ≡ page.old }
    ensures left { IsFalse result → item.new ≡ item.old }
{
    let Some(slot) = page.get_mut(place) else {
        return false;
    };
    *slot = item.take();
    true
}

/// Puts the item into the page at a place of a branch, where nobody else has them.
fn put_in_branch<T: Drop>(
    branch: &mut Branch<T>,
    page: usize,
    place: usize,
    item: &mut Option<T>,
) -> bool
    ensures put { IsTrue result → branch.new ≡ branch_with branch.old page place item.old }
    ensures inside { IsTrue result → page < length branch.old }
    ensures deeper { IsTrue result → place < length (list_at branch.old page) }
    ensures kept { IsFalse result → branch.new ≡ branch.old }
    ensures left { IsFalse result → item.new ≡ item.old }
{
    let Some(page) = branch.get_mut(page) else {
        return false;
    };
    put_in_page(page, place, item)
}

/// Puts the item into a page of a branch of a root, where nobody else has them.
pub(crate) fn put_in_root<T: Drop>(
    root: &mut Root<T>,
    branch: usize,
    page: usize,
    place: usize,
    item: &mut Option<T>,
) -> bool
    ensures put { IsTrue result → root.new ≡ root_with root.old branch page place item.old }
    ensures inside { IsTrue result → branch < length root.old }
    ensures deeper { IsTrue result → page < length (list_at root.old branch) }
    ensures deepest { IsTrue result → place < length (list_at (list_at root.old branch) page) }
    ensures kept { IsFalse result → root.new ≡ root.old }
    ensures left { IsFalse result → item.new ≡ item.old }
{
    let Some(branch) = root.get_mut(branch) else {
        return false;
    };
    put_in_branch(branch, page, place, item)
}
