//! The items of a list, from a filter or from an attribute, handed out one by one.
ghost use Rattle.std.specs.Prelude.{◌≡◌, drop, option_map};
ghost use Rattle.vs_defs.specs.AttributeField.{One};
ghost use Rattle.vs_defs.specs.Bytes.{first_in};
ghost use Rattle.vs_attr.specs.Fields.{field_seen};
ghost use Rattle.vs_filter.specs.Code.{single_seen};
ghost use Rattle.vs_filter.specs.Values.{items_seen, value_seen};

use crate::chars::Chars;
use crate::code::Literal;
use crate::value::Value;
use vs_attr::{Field, JsonList};

#[derive(Drop)]
pub enum Items<'a> {
    Plain(&'a [Literal]),
    Json(JsonList<'a>),
}

/// A literal as a value.
pub fn literal_value(literal: &Literal) -> Value<'_>
    ensures { value_seen result ≡ One (single_seen literal.now) }
{
    match literal {
        Literal::Number(n) => Value::Number(*n),
        Literal::Text(text) => Value::Text(Chars::Plain(text.as_slice())),
        Literal::Truth(truth) => Value::Truth(*truth),
        Literal::NoKind => Value::NoKind,
    }
}

/// A field of an attribute as a value.
pub fn field_value<'a>(field: Field<'a>) -> Value<'a>
    ensures { value_seen result ≡ field_seen field.entry }
{
    match field {
        Field::Number(n) => Value::Number(n),
        Field::Text(text) => Value::Text(Chars::Json(text)),
        Field::Truth(truth) => Value::Truth(truth),
        Field::List(list) => Value::List(Items::Json(list)),
        Field::NoKind => Value::NoKind,
    }
}

impl<'a> Items<'a> {
    pub fn next_item(&mut self) -> Option<Value<'a>>
        ensures value { option_map value_seen result ≡ option_map One (first_in (items_seen self.old)) }
        ensures rest { items_seen self.new ≡ drop 1 (items_seen self.old) }
    {
        match self {
            Items::Plain(items) => {
                let (first, rest) = items.split_first()?;
                *items = rest;
                Some(literal_value(first))
            }
            Items::Json(list) => {
                let item = list.next_item()?;
                Some(field_value(item))
            }
        }
    }
}
