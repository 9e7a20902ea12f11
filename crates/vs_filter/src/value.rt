//! The values of expressions, and the operators on them. None is a failure.
ghost use Rattle.std.specs.Prelude.{◌≡◌, option_map};
ghost use Rattle.std.specs.List.{list_any};
ghost use Rattle.vs_defs.specs.AttributeField.{One};
ghost use Rattle.vs_defs.specs.Filter.{of_values as values_joined, not_of as not_in, negative_of as negative_in, with_kind as kind_in, answer_of, opposite as opposite_of, unwrap_or_false};
ghost use Rattle.vs_filter.specs.Seen.{operator_seen};
ghost use Rattle.vs_filter.specs.Values.{value_seen, truth_of, number_of, equal_of, less_of, among_of, truths_of, numbers_of, items_seen};
ghost use Rattle.vs_filter.specs.Numbers.{number_seen};

use crate::chars::{Chars, order, same};
use crate::items::Items;
use crate::number;
use crate::operator::Operator;

#[derive(Drop)]
pub enum Value<'a> {
    /// In billionths.
    Number(i128),
    Text(Chars<'a>),
    Truth(bool),
    List(Items<'a>),
    NoKind,
}

/// A value that has no kind is a failure.
pub fn with_kind(value: Value<'_>) -> Option<Value<'_>>
    ensures { option_map value_seen result ≡ kind_in (value_seen value.entry) }
{
    match value {
        Value::NoKind => None,
        kind => Some(kind),
    }
}

/// Truth values, and numbers, of which 0 alone is false.
pub fn truth_in(value: &Value<'_>) -> Option<bool>
    ensures { result ≡ truth_of (value_seen value.now) }
{
    match value {
        Value::Number(n) => Some(!number::is_zero(*n)),
        Value::Truth(truth) => Some(*truth),
        Value::Text(_) | Value::List(_) | Value::NoKind => None,
    }
}

fn number_in(value: &Value<'_>) -> Option<i128>
    ensures { result ≡ number_of (value_seen value.now) }
{
    match value {
        Value::Number(n) => Some(*n),
        Value::Text(_) | Value::Truth(_) | Value::List(_) | Value::NoKind => None,
    }
}

/// Whether two values of one kind are equal.
pub fn are_equal(a: &Value<'_>, b: &Value<'_>) -> Option<bool>
    ensures { result ≡ equal_of (value_seen a.now) (value_seen b.now) }
{
    match (a, b) {
        (Value::Number(m), Value::Number(n)) => Some(*m == *n),
        (Value::Text(s), Value::Text(t)) => Some(same(s, t)),
        (Value::Truth(p), Value::Truth(q)) => Some(*p == *q),
        _ => None,
    }
}

/// Whether the one is less than the other: numbers, and texts by bytes.
fn is_less(a: &Value<'_>, b: &Value<'_>) -> Option<bool>
    ensures { result ≡ less_of (value_seen a.now) (value_seen b.now) }
{
    match (a, b) {
        (Value::Number(m), Value::Number(n)) => Some(*m < *n),
        (Value::Text(s), Value::Text(t)) => Some(order(s, t).is_lt()),
        _ => None,
    }
}

pub fn not_of<'a>(value: &Value<'_>) -> Option<Value<'a>>
    ensures { option_map value_seen result ≡ not_in (value_seen value.now) }
{
    let truth = truth_in(value)?;
    Some(Value::Truth(!truth))
}

pub fn negative_of<'a>(value: &Value<'_>) -> Option<Value<'a>>
    ensures { option_map value_seen result ≡ negative_in (value_seen value.now) }
{
    let number = number_in(value)?;
    Some(Value::Number(number::negative(number)?))
}

fn truths(a: &Value<'_>, b: &Value<'_>) -> Option<(bool, bool)>
    ensures { result ≡ truths_of (value_seen a.now) (value_seen b.now) }
{
    let p = truth_in(a)?;
    let q = truth_in(b)?;
    Some((p, q))
}

fn numbers(a: &Value<'_>, b: &Value<'_>) -> Option<(i128, i128)>
    ensures { result ≡ numbers_of (value_seen a.now) (value_seen b.now) }
{
    let m = number_in(a)?;
    let n = number_in(b)?;
    Some((m, n))
}

fn truth<'a>(answer: Option<bool>) -> Option<Value<'a>>
    ensures { option_map value_seen result ≡ answer_of answer }
{
    Some(Value::Truth(answer?))
}

fn opposite(answer: Option<bool>) -> Option<bool>
    ensures { result ≡ opposite_of answer }
{
    Some(!answer?)
}

fn numeric<'a>(number: Option<i128>) -> Option<Value<'a>>
    ensures { option_map value_seen result ≡ number_seen number }
{
    Some(Value::Number(number?))
}

/// Whether some item is of the value's kind and equal to it.
fn is_listed(value: &Value<'_>, items: Items<'_>) -> bool
    ensures { result ≡ list_any (λ item. unwrap_or_false (equal_of (value_seen value.now) (One item))) (items_seen items.entry) }
{
    let mut items = items;
    while let Some(item) = items.next_item() {
        if matches!(are_equal(value, &item), Some(true)) {
            return true;
        }
    }
    false
}

fn is_among<'a>(a: &Value<'_>, b: Value<'_>) -> Option<Value<'a>>
    ensures { option_map value_seen result ≡ among_of (value_seen a.now) (value_seen b.entry) }
{
    let Value::List(items) = b else {
        return None;
    };
    match a {
        Value::Number(_) | Value::Text(_) | Value::Truth(_) => Some(Value::Truth(is_listed(
            a, items,
        ))),
        Value::List(_) | Value::NoKind => None,
    }
}

/// Both values are there, whatever the operator makes of them.
pub fn of_values<'a>(op: Operator, a: Value<'a>, b: Value<'a>) -> Option<Value<'a>>
    ensures { option_map value_seen result ≡ values_joined (operator_seen op) (value_seen a.entry) (value_seen b.entry) }
{
    match op {
        Operator::Or => {
            let (p, q) = truths(&a, &b)?;
            Some(Value::Truth(p || q))
        }
        Operator::And => {
            let (p, q) = truths(&a, &b)?;
            Some(Value::Truth(p && q))
        }
        Operator::Equal => truth(are_equal(&a, &b)),
        Operator::NotEqual => truth(opposite(are_equal(&a, &b))),
        Operator::Less => truth(is_less(&a, &b)),
        Operator::LessEqual => truth(opposite(is_less(&b, &a))),
        Operator::Greater => truth(is_less(&b, &a)),
        Operator::GreaterEqual => truth(opposite(is_less(&a, &b))),
        Operator::In => is_among(&a, b),
        Operator::Add => {
            let (m, n) = numbers(&a, &b)?;
            numeric(number::sum(m, n))
        }
        Operator::Subtract => {
            let (m, n) = numbers(&a, &b)?;
            numeric(number::difference(m, n))
        }
        Operator::Multiply => {
            let (m, n) = numbers(&a, &b)?;
            numeric(number::product(m, n))
        }
        Operator::Divide => {
            let (m, n) = numbers(&a, &b)?;
            numeric(number::quotient(m, n))
        }
        Operator::Remainder => {
            let (m, n) = numbers(&a, &b)?;
            numeric(number::remainder(m, n))
        }
    }
}
