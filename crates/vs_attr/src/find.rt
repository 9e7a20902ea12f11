//! What stands under a name in a JSON object.
#![tactic(auto)]

ghost use Rattle.std.specs.Prelude.{◌≡◌, cond, Some, None, IsSome, IfSome, option_map, option_copied};
ghost use Rattle.std.specs.Str.{is_utf8 as is_utf8_text};
ghost use Rattle.vs_defs.specs.AttributeField.{field_of_value, field_of, is_object as is_object_text};
ghost use Rattle.vs_attr.specs.Reading.{value_at, members_at, value_of, member_depth};
ghost use Rattle.vs_attr.specs.Fields.{field_seen, found_value, found_seen, named_in, member_found, found_whole, IsReadable};

use crate::kind::{Field, single};
use crate::list::JsonList;
use crate::space::{mark_at, skip_space};
use crate::text::is_named;
use crate::value::{member_at, value_end};
use std::str;

/// How many objects and arrays may be open in a text.
pub(crate) const MAX_JSON_DEPTH: u32 = 64;

/// How many may be open in a member's value, which is in an object.
const MEMBER_DEPTH: u32 = MAX_JSON_DEPTH - 1;

/// The value of a member, which stands in front.
fn member_value<'a>(text: &'a [u8]) -> Field<'a>
    requires { IsSome (value_of (value_at member_depth text.now)) }
    ensures { Some (field_seen result) ≡ option_map field_of_value (value_of (value_at member_depth text.now)) }
{
    match mark_at(b'[', text) {
        Some(inside) => Field::List(JsonList::new(inside)),
        None => single(text),
    }
}

/// Where the value that was found last begins, once this member's is seen.
fn latest<'a>(is_named: bool, value: &'a [u8], found: Option<&'a [u8]>) -> Option<&'a [u8]>
    ensures { option_copied result ≡ cond is_named (Some value.now) (option_copied found.entry) }
{
    if is_named { Some(value) } else { found }
}

/// Where the value of the last member of this name begins, if there is one,
/// and the text behind the object, which has one member at least.
fn last_member<'a>(text: &'a [u8], name: &[u8]) -> Option<(Option<&'a [u8]>, &'a [u8])>
    ensures value { found_seen result ≡ named_in name.now None (members_at member_depth text.now) }
    ensures readable { IfSome result (λ r. IsReadable (option_copied r.0)) }
{
    let mut text = text;
    let mut found = None;
    loop {
        let (raw, value) = member_at(text)?;
        let rest = value_end(MEMBER_DEPTH, value)?;
        found = latest(is_named(name, raw), value, found);
        match mark_at(b',', rest) {
            Some(more) => text = more,
            None => {
                let after = mark_at(b'}', rest)?;
                return Some((found, after));
            }
        }
    }
}

/// Where the value of the last member of this name begins in an object with
/// one member at least, behind which nothing but white space stands.
fn whole_member<'a>(inside: &'a [u8], name: &[u8]) -> Option<&'a [u8]>
    ensures value { found_value (option_copied result) ≡ found_whole (named_in name.now None (members_at member_depth inside.now)) }
    ensures readable { IsReadable (option_copied result) }
{
    let (found, rest) = last_member(inside, name)?;
    if !skip_space(rest).is_empty() {
        return None;
    }
    found
}

/// Where the value of the last member of this name begins in the object that
/// a whole text is.
fn member_in<'a>(text: &'a [u8], name: &[u8]) -> Option<&'a [u8]>
    ensures value { found_value (option_copied result) ≡ member_found name.now text.now }
    ensures readable { IsReadable (option_copied result) }
{
    let inside = mark_at(b'{', text)?;
    match mark_at(b'}', inside) {
        Some(_) => None,
        None => whole_member(inside, name),
    }
}

fn is_utf8(text: &[u8]) -> bool
    ensures { result ≡ is_utf8_text text.now }
{
    str::from_utf8(text).is_ok()
}

/// The value under a name in a JSON object: `None` where the text is no JSON
/// object (RFC 8259, in valid UTF-8, with no more than 64 objects and arrays
/// within one another), or has no member of this name at its top level. Of
/// several members of one name the last counts. Names are compared after
/// their escapes are decoded.
pub fn field<'a>(text: &'a [u8], name: &[u8]) -> Option<Field<'a>>
    ensures { option_map field_seen result ≡ field_of text.now name.now }
{
    if !is_utf8(text) {
        return None;
    }
    let value = member_in(text, name)?;
    Some(member_value(value))
}

/// Whether a text is a JSON object (RFC 8259, in valid UTF-8, with no more
/// than 64 objects and arrays within one another).
pub fn is_object(text: &[u8]) -> bool
    ensures { result ≡ is_object_text text.now }
{
    if !is_utf8(text) {
        return false;
    }
    let Some(_) = mark_at(b'{', text) else {
        return false;
    };
    match value_end(MAX_JSON_DEPTH, text) {
        Some(rest) => skip_space(rest).is_empty(),
        None => false,
    }
}
