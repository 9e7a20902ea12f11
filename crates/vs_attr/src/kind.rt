//! The kinds of a value.
#![tactic(auto)]

ghost use Rattle.std.specs.Prelude.{◌≡◌, ◌≤◌, length};
ghost use Rattle.vs_defs.specs.Json.{skip_space as past_space};
ghost use Rattle.vs_defs.specs.AttributeField.{One, text_field};
ghost use Rattle.vs_attr.specs.Reading.{string_at};
ghost use Rattle.vs_attr.specs.Fields.{field_seen, number_single, plain_single as plain_kind, single_from};

use crate::list::JsonList;
use crate::number::after_number;
use crate::space::skip_space;
use crate::text::JsonText;
use vs_decimal::read_fixed;

/// A value of an attribute, by its kind.
#[derive(Drop)]
pub enum Field<'a> {
    /// a number, in billionths
    Number(i128),
    Text(JsonText<'a>),
    Truth(bool),
    List(JsonList<'a>),
    /// `null`, an object, an array in a list, a number that isn't read as a
    /// fixed one, or a text with an unpaired surrogate
    NoKind,
}

/// The number that stands in front.
fn number<'a>(text: &'a [u8]) -> Field<'a>
    ensures { field_seen result ≡ One (number_single text.now) }
{
    let Some(rest) = after_number(text) else {
        return Field::NoKind;
    };
    match read_fixed(&text[..text.len() - rest.len()]) {
        Some(billionths) => Field::Number(billionths),
        None => Field::NoKind,
    }
}

/// The value that stands in front, which is neither text, array nor object.
fn plain_single<'a>(text: &'a [u8]) -> Field<'a>
    ensures { field_seen result ≡ One (plain_kind text.now) }
{
    match text {
        [] => Field::NoKind,
        [b'n', ..] => Field::NoKind,
        [b't', ..] => Field::Truth(true),
        [b'f', ..] => Field::Truth(false),
        _ => number(text),
    }
}

/// The text whose inside begins here.
fn text_single<'a>(raw: &'a [u8]) -> Field<'a>
    ensures { field_seen result ≡ One (text_field (string_at raw.now)) }
{
    match JsonText::new(raw) {
        Some(text) => Field::Text(text),
        None => Field::NoKind,
    }
}

/// The value that stands in front, before which no white space stands.
fn unspaced_single<'a>(text: &'a [u8]) -> Field<'a>
    ensures { field_seen result ≡ One (single_from text.now) }
{
    match text {
        [b'"', raw @ ..] => text_single(raw),
        [b'[' | b'{', ..] => Field::NoKind,
        _ => plain_single(text),
    }
}

/// The value that stands in front, where it is no array: an array has no kind.
pub fn single<'a>(text: &'a [u8]) -> Field<'a>
    ensures { field_seen result ≡ One (single_from (past_space text.now)) }
{
    unspaced_single(skip_space(text))
}
