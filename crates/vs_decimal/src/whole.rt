//! Whole numbers within 64 bits.
#![tactic(auto)]

ghost use Rattle.std.specs.Prelude.{◌≡◌, ◌≤◌, ◌<◌, ◌^◌, ◌&&◌, cond, nat_le, nat_lt, Some, None};
ghost use Rattle.vs_defs.specs.Decimal.{read_int as int_in, negated};

use crate::digits::{is_digits_within, is_negative, number, without_minus};

/// The number of this size and sign, where 64 bits hold it.
fn signed(negative: bool, size: u64) -> Option<i64>
    ensures { result ≡ cond (cond negative (nat_le size (2 ^ 63)) (nat_lt size (2 ^ 63))) (Some (negated negative size)) None }
{
    let value = i128::from(size);
    i64::try_from(if negative { -value } else { value }).ok()
}

/// Reads a whole number: an optional `-` and 1 to 19 digits, leading zeros
/// among them; `None` for any other text, and past 64 bits. This is the form
/// of counts and other whole numbers in requests.
pub fn read_int(text: &[u8]) -> Option<i64>
    ensures { result ≡ int_in text.now }
{
    let digits = without_minus(text);
    if !is_digits_within(19, digits) {
        return None;
    }
    signed(is_negative(text), number(digits))
}
