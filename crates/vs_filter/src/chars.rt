//! The bytes of a text, from a filter or from an attribute, handed out one by one.
ghost use Rattle.std.specs.Prelude.{◌≡◌, drop};
ghost use Rattle.vs_defs.specs.Bytes.{first_in, name_cmp, same_name};
ghost use Rattle.vs_filter.specs.Values.{chars_seen};

use std::cmp::Ordering;
use vs_attr::JsonText;

#[derive(Drop)]
pub enum Chars<'a> {
    Plain(&'a [u8]),
    Json(JsonText<'a>),
}

impl<'a> Chars<'a> {
    fn copied(&self) -> Chars<'a>
        ensures { chars_seen result ≡ chars_seen self.now }
    {
        match self {
            Chars::Plain(bytes) => Chars::Plain(*bytes),
            Chars::Json(text) => Chars::Json(text.copied()),
        }
    }

    fn next_byte(&mut self) -> Option<u8>
        ensures value { result ≡ first_in (chars_seen self.old) }
        ensures rest { chars_seen self.new ≡ drop 1 (chars_seen self.old) }
    {
        match self {
            Chars::Plain(bytes) => {
                let (first, rest) = bytes.split_first()?;
                *bytes = rest;
                Some(*first)
            }
            Chars::Json(text) => text.next_byte(),
        }
    }
}

/// The first byte that differs decides, and else the lengths do.
pub fn order(a: &Chars<'_>, b: &Chars<'_>) -> Ordering
    ensures { result ≡ name_cmp (chars_seen a.now) (chars_seen b.now) }
{
    let mut a = a.copied();
    let mut b = b.copied();
    loop {
        match (a.next_byte(), b.next_byte()) {
            (None, None) => return Ordering::Equal,
            (None, Some(_)) => return Ordering::Less,
            (Some(_), None) => return Ordering::Greater,
            (Some(x), Some(y)) if x < y => return Ordering::Less,
            (Some(x), Some(y)) if x > y => return Ordering::Greater,
            (Some(_), Some(_)) => {}
        }
    }
}

#[tactic(auto, using(crate::proofs::Texts::text_equal))]
pub fn same(a: &Chars<'_>, b: &Chars<'_>) -> bool
    ensures { result ≡ same_name (chars_seen a.now) (chars_seen b.now) }
{
    order(a, b).is_eq()
}
