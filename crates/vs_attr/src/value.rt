//! Where a value ends: RFC 8259, sections 3 to 5.
#![tactic(auto)]

ghost use Rattle.std.specs.Prelude.{◌≡◌, ◌≤◌, ◌<◌, length, option_map, IfSome, cond, drop, Some, None};
ghost use Rattle.std.specs.List.{starts_with};
ghost use Rattle.std.specs.Bool.{nat_eq};
ghost use Rattle.vs_defs.specs.Numeral.{begins_with as front_is};
ghost use Rattle.vs_defs.specs.Json.{plain_value_at};
ghost use Rattle.vs_attr.specs.Reading.{value_at, value_from, array_at, object_at, items_at, members_at, rest_of, member_at as member_in};
ghost use Rattle.vs_attr.specs.Seen.{member_seen};

use crate::number::after_number;
use crate::piece::text_end;
use crate::space::{mark_at, skip_space};

fn begins_with(byte: u8, text: &[u8]) -> bool
    ensures { result ≡ front_is byte text.now }
{
    match text {
        [front, ..] => *front == byte,
        [] => false,
    }
}

/// The text behind a word, if it stands in front.
fn word_end<'a>(word: &[u8], text: &'a [u8]) -> Option<&'a [u8]>
    ensures { option_map (λ r. r.now) result ≡ cond (starts_with nat_eq text.now word.now) (Some (drop (length word.now) text.now)) None }
{
    if !text.starts_with(word) {
        return None;
    }
    Some(&text[word.len()..])
}

/// The text behind a value that is neither text, array nor object.
fn plain_value_end(text: &[u8]) -> Option<&[u8]>
    ensures { option_map (λ r. r.now) result ≡ rest_of (plain_value_at text.now) }
{
    if begins_with(b'n', text) {
        return word_end(b"null", text);
    }
    if begins_with(b't', text) {
        return word_end(b"true", text);
    }
    if begins_with(b'f', text) {
        return word_end(b"false", text);
    }
    after_number(text)
}

/// A member's beginning: where the inside of its name begins, and the text
/// behind its colon.
pub fn member_at(text: &[u8]) -> Option<(&[u8], &[u8])>
    ensures value { member_seen result ≡ member_in text.now }
    ensures bound { IfSome result (λ m. length m.1.now < length text.now) }
{
    let name = mark_at(b'"', text)?;
    let rest = text_end(name)?;
    let value = mark_at(b':', rest)?;
    Some((name, value))
}

/// The text behind a value. No more than `depth` objects and arrays may be
/// open within one another there, which bounds the recursion.
#[cycle(values)]
pub fn value_end(depth: u32, text: &[u8]) -> Option<&[u8]>
    ensures { option_map (λ r. r.now) result ≡ rest_of (value_at depth text.now) }
{
    unspaced_end(depth, skip_space(text))
}

/// The text behind a value, before which no white space stands.
#[cycle(values)]
fn unspaced_end(depth: u32, text: &[u8]) -> Option<&[u8]>
    ensures { option_map (λ r. r.now) result ≡ rest_of (value_from depth text.now) }
{
    match text {
        [b'"', inside @ ..] => text_end(inside),
        [b'[', inside @ ..] => array_end(depth, inside),
        [b'{', inside @ ..] => object_end(depth, inside),
        plain => plain_value_end(plain),
    }
}

/// The text behind an array, whose inside begins here.
#[cycle(values)]
fn array_end(depth: u32, inside: &[u8]) -> Option<&[u8]>
    ensures { option_map (λ r. r.now) result ≡ rest_of (array_at depth inside.now) }
{
    if depth == 0 {
        return None;
    }
    match mark_at(b']', inside) {
        Some(rest) => Some(rest),
        None => items_end(depth - 1, inside),
    }
}

/// The text behind an object, whose inside begins here.
#[cycle(values)]
fn object_end(depth: u32, inside: &[u8]) -> Option<&[u8]>
    ensures { option_map (λ r. r.now) result ≡ rest_of (object_at depth inside.now) }
{
    if depth == 0 {
        return None;
    }
    match mark_at(b'}', inside) {
        Some(rest) => Some(rest),
        None => members_end(depth - 1, inside),
    }
}

#[cycle(values)]
fn items_end(depth: u32, text: &[u8]) -> Option<&[u8]>
    ensures { option_map (λ r. r.now) result ≡ rest_of (items_at depth text.now) }
{
    let mut text = text;
    loop {
        let rest = value_end(depth, text)?;
        match mark_at(b',', rest) {
            Some(more) => text = more,
            None => return mark_at(b']', rest),
        }
    }
}

#[cycle(values)]
fn members_end(depth: u32, text: &[u8]) -> Option<&[u8]>
    ensures { option_map (λ r. r.now) result ≡ rest_of (members_at depth text.now) }
{
    let mut text = text;
    loop {
        let (_, value) = member_at(text)?;
        let rest = value_end(depth, value)?;
        match mark_at(b',', rest) {
            Some(more) => text = more,
            None => return mark_at(b'}', rest),
        }
    }
}
