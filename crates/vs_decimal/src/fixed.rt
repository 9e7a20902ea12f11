//! Numbers with at most nine decimals.
#![tactic(auto)]

ghost use Rattle.std.specs.Prelude.{◌≡◌, ◌≤◌, ◌<◌, ◌^◌, ◌&&◌, true, cond, nat_le, nat_lt, Some, None, length, IfSome, unsigned_abs};
ghost use Rattle.std.specs.List.{list_all};
ghost use Rattle.std.specs.Char.{is_ascii_digit};
ghost use Rattle.vs_defs.specs.Numeral.{without};
ghost use Rattle.vs_defs.specs.Decimal.{read_fixed as fixed_in, billionths_of, is_fraction_part as is_fraction, negated};

use crate::digits::{is_digits_within, is_negative, number, split_digits, without_minus};

/// How many billionths one is.
const BILLION: u64 = 1_000_000_000;

fn without_point(text: &[u8]) -> &[u8]
    ensures { result.now ≡ without 46 text.now }
{
    match text {
        [b'.', rest @ ..] => rest,
        _ => text,
    }
}

/// Whether nothing stands there, or a point and 1 to 9 digits.
fn is_fraction_part(text: &[u8]) -> bool
    ensures { result ≡ is_fraction text.now }
{
    match text {
        [] => true,
        [b'.', digits @ ..] => is_digits_within(9, digits),
        _ => false,
    }
}

/// The billionths that nothing, or a point and 1 to 9 digits, spell.
fn billionths(fraction: &[u8]) -> u64
    requires { is_fraction fraction.now ≡ true }
    ensures value { result ≡ billionths_of fraction.now }
    ensures bound { result < 10 ^ 9 }
{
    let digits = without_point(fraction);
    let missing = 9 - digits.len();
    number(digits) * 10u64.pow(missing as u32)
}

fn signed(negative: bool, size: u128) -> i128
    requires { size < 2 ^ 127 }
    ensures value { result ≡ negated negative size }
    ensures bound { unsigned_abs result ≡ size }
{
    let value = size as i128;
    if negative { -value } else { value }
}

/// Reads a number with at most nine decimals, in billionths: an optional `-`,
/// 1 to 18 digits, and optionally a point and 1 to 9 digits; `None` for any
/// other text. This is the form of numbers in attributes and filters.
pub fn read_fixed(text: &[u8]) -> Option<i128>
    ensures value { result ≡ fixed_in text.now }
    ensures bound { IfSome result (λ number. unsigned_abs number < 2 ^ 127) }
{
    let (whole, fraction) = split_digits(without_minus(text));
    if !is_digits_within(18, whole) || !is_fraction_part(fraction) {
        return None;
    }
    let size = u128::from(number(whole)) * u128::from(BILLION) + u128::from(billionths(fraction));
    Some(signed(is_negative(text), size))
}
