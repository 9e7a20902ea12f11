//! An attribute as its node keeps it, and how many members have one.
ghost use Rattle.std.specs.Prelude.{◌≡◌, ◌+◌, ◌≤◌, ◌^◌, None, IfOk, option_map};
ghost use Rattle.vs_defs.specs.PlainStep.{attr_after};
ghost use Rattle.vs_set.specs.Kept.{one_if};

use std::alloc::Global;
use vs_graph::{Attr, RefCounted};
use vs_outside::{NoMemory, Text};

/// The attribute of a text; the empty one gives none.
pub(crate) fn attr_of(
    alloc: Global,
    text: Option<Text>,
) -> Result<Option<RefCounted<Attr>>, NoMemory>
    ensures { IfOk result (λ attr. option_map (λ a. a.text) attr ≡ attr_after text None) }
{
    match text {
        Some(text) if text.len() > 0 => {
            let attr = RefCounted::new(alloc, Attr { text })?;
            Ok(Some(attr))
        }
        _ => Ok(None),
    }
}

/// The same attribute.
pub(crate) fn attr_copy(
    attr: &Option<RefCounted<Attr>>,
) -> Result<Option<RefCounted<Attr>>, NoMemory>
    ensures { IfOk result (λ copy. copy ≡ attr.now) }
{
    match attr {
        None => Ok(None),
        Some(attr) => {
            let copy = attr.try_clone()?;
            Ok(Some(copy))
        }
    }
}

/// How many members have an attribute after a change of one: whether it had one, and whether it has one now.
pub(crate) fn count_after(count: u32, had: bool, has: bool) -> u32
    requires counted { one_if had ≤ count }
    requires few { count ≤ 2 ^ 20 }
    ensures { result + one_if had ≡ count + one_if has }
{
    count - u32::from(had) + u32::from(has)
}
