//! The items of an array.
#![tactic(auto)]

ghost use Rattle.std.specs.Prelude.{◌≡◌, List, Option, Some, None, option_map, option_copied, drop};
ghost use Rattle.vs_defs.specs.AttributeField.{One, Single};
ghost use Rattle.vs_defs.specs.Bytes.{first_in};
ghost use Rattle.vs_attr.specs.Listed.{item_next, items_inside, IsArrayInside};
ghost use Rattle.vs_attr.specs.Fields.{field_seen};

use crate::find::MAX_JSON_DEPTH;
use crate::kind::{Field, single};
use crate::space::mark_at;
use crate::value::value_end;
use std::marker::Model;

/// How many objects and arrays may be open in an item of a list, which is in
/// an array in an object.
const ITEM_DEPTH: u32 = MAX_JSON_DEPTH - 2;

/// The text from the item behind the first on, if there is one.
fn next_text(text: &[u8]) -> Option<&[u8]>
    ensures { option_copied result ≡ item_next text.now }
{
    mark_at(b',', value_end(ITEM_DEPTH, text)?)
}

/// An array, of which items are handed out one by one.
#[derive(Drop)]
pub struct JsonList<'a> {
    /// the text from the next item on
    rest: Option<&'a [u8]>,
}

impl<'a> Model for JsonList<'a> {
    ghost use Rattle.std.specs.Prelude.{List, option_copied};
    ghost use Rattle.vs_defs.specs.AttributeField.{Single};
    ghost use Rattle.vs_attr.specs.Listed.{items_left, AreItems};

    ghost Value = { List Single };

    ghost view = { λ s. items_left (option_copied s.rest) };

    ghost invariant = { λ s. AreItems (option_copied s.rest) };
}

impl<'a> JsonList<'a> {
    /// The list whose inside begins here, behind its bracket.
    pub(crate) fn new(inside: &'a [u8]) -> JsonList<'a>
        requires { IsArrayInside inside.now }
        ensures { result ≡ items_inside inside.now }
    {
        let rest = match mark_at(b']', inside) {
            Some(_) => None,
            None => Some(inside),
        };
        JsonList { rest }
    }

    /// The next item, or `None` at the list's end. An array in a list has no
    /// kind.
    pub fn next_item(&mut self) -> Option<Field<'a>>
        ensures value { option_map field_seen result ≡ option_map One (first_in self.old) }
        ensures rest { self.new ≡ drop 1 self.old }
    {
        let text = self.rest?;
        self.rest = next_text(text);
        Some(single(text))
    }
}
