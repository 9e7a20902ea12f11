//! Look-ups: an item by the three places of its id.
ghost use Rattle.std.specs.Prelude.{◌≡◌};
ghost use Rattle.std.specs.Option.{option_copied};
ghost use Rattle.vs_page.specs.Tree.{at_root, item_at, list_at};
ghost use Rattle.vs_page.specs.Changes.{says};

use crate::page_map::{Change, Root};
use crate::shared_list::SharedList;

/// What the changes say of an id; the first at an id counts.
pub(crate) fn change_at<T>(changes: &[Change<T>], id: u32) -> Option<&Option<T>>
    ensures { option_copied result ≡ says changes.now id }
{
    let mut rest = changes;
    while let [first, after @ ..] = rest {
        if first.id == id {
            return Some(&first.item);
        }
        rest = after;
    }
    None
}

#[tactic(auto, using(crate::proofs::Trees::got_some, crate::proofs::Trees::got_none))]
fn list_in<X>(lists: &[SharedList<X>], place: usize) -> &[X]
    ensures { result.now ≡ list_at lists.now place }
{
    match lists.get(place) {
        Some(list) => list.as_slice(),
        None => &[],
    }
}

#[tactic(auto, using(crate::proofs::Trees::got_some, crate::proofs::Trees::got_none))]
fn item_in<T>(items: &[Option<T>], place: usize) -> Option<&T>
    ensures { option_copied result ≡ item_at items.now place }
{
    match items.get(place) {
        Some(item) => item.as_ref(),
        None => None,
    }
}

/// The item at an id of a root.
pub(crate) fn item_at_id<T>(root: &Root<T>, id: u32) -> Option<&T>
    ensures { option_copied result ≡ at_root root.now id }
{
    let branch = list_in(root.as_slice(), (id / 4096) as usize);
    let page = list_in(branch, (id / 16 % 256) as usize);
    item_in(page, (id % 16) as usize)
}
