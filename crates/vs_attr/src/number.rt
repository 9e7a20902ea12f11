//! Where a number ends: RFC 8259, section 6.
#![tactic(auto)]

ghost use Rattle.std.specs.Prelude.{◌≡◌, ◌≤◌, length, option_map, cond, Some, None};
ghost use Rattle.vs_defs.specs.Numeral.{digits_of, after_digits, is_empty};
ghost use Rattle.vs_defs.specs.Json.{is_whole_part as is_whole, after_fraction as past_fraction, after_exponent as past_exponent, after_number as past_number};

use vs_decimal::digits::{split_digits, unsigned, without_minus};

/// Whether digits are those of a whole number: one or more, of which only a
/// lone one is a leading zero.
fn is_whole_part(digits: &[u8]) -> bool
    ensures { result ≡ is_whole digits.now }
{
    match digits {
        [] => false,
        [b'0', rest @ ..] => rest.is_empty(),
        _ => true,
    }
}

/// The text after one or more digits.
fn after_some_digits(text: &[u8]) -> Option<&[u8]>
    ensures { option_map (λ r. r.now) result ≡ cond (is_empty (digits_of text.now)) None (Some (after_digits text.now)) }
{
    let (digits, rest) = split_digits(text);
    if digits.is_empty() {
        return None;
    }
    Some(rest)
}

/// The text after a fraction; all of it where there is none.
fn after_fraction(text: &[u8]) -> Option<&[u8]>
    ensures { option_map (λ r. r.now) result ≡ past_fraction text.now }
{
    match text {
        [b'.', rest @ ..] => after_some_digits(rest),
        _ => Some(text),
    }
}

/// The text after an exponent; all of it where there is none.
fn after_exponent(text: &[u8]) -> Option<&[u8]>
    ensures { option_map (λ r. r.now) result ≡ past_exponent text.now }
{
    match text {
        [b'e' | b'E', rest @ ..] => after_some_digits(unsigned(rest)),
        _ => Some(text),
    }
}

/// The text after a number.
pub fn after_number(text: &[u8]) -> Option<&[u8]>
    ensures { option_map (λ r. r.now) result ≡ past_number text.now }
{
    let (whole, rest) = split_digits(without_minus(text));
    if !is_whole_part(whole) {
        return None;
    }
    after_exponent(after_fraction(rest)?)
}
