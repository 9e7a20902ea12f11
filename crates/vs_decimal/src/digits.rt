//! Digits and signs at the front of a text: the one scanner of numbers for components, counts, JSON, filters and the program's words.
//! Each function is the definitions' function of its name; none takes memory.
#![tactic(auto)]

ghost use Rattle.std.specs.Prelude.{◌≡◌, ℕ, ◌+◌, ◌*◌, ◌<◌, ◌≤◌, ◌^◌, ◌==◌, ◌&&◌, true, length, nat_le};
ghost use Rattle.std.specs.List.{list_all};
ghost use Rattle.std.specs.Char.{is_ascii_digit};
ghost use Rattle.vs_defs.specs.Numeral.{digits_of, after_digits, begins_with, without, unsigned as unsigned_of, is_digits as are_digits};
ghost use Rattle.vs_defs.specs.Decimal.{number_of, is_digits_within as digits_within};

/// Whether a text begins with a minus sign.
pub fn is_negative(text: &[u8]) -> bool
    ensures { result ≡ begins_with 45 text.now }
{
    match text {
        [b'-', ..] => true,
        _ => false,
    }
}

/// The text after a minus sign, or the whole text where it begins with none.
pub fn without_minus(text: &[u8]) -> &[u8]
    ensures { result.now ≡ without 45 text.now }
{
    match text {
        [b'-', rest @ ..] => rest,
        _ => text,
    }
}

/// The text after a plus or a minus sign, or the whole text where it begins with none.
pub fn unsigned(text: &[u8]) -> &[u8]
    ensures value { result.now ≡ unsigned_of text.now }
    ensures bound { length result.now ≤ length text.now }
{
    match text {
        [b'+' | b'-', rest @ ..] => rest,
        _ => text,
    }
}

/// How many digits a text begins with.
pub fn digits_len(text: &[u8]) -> usize
    ensures value { result ≡ length (digits_of text.now) }
    ensures bound { result ≤ length text.now }
{
    text.iter().take_while(|c| c.is_ascii_digit()).count()
}

/// The digits that a text begins with, and the text after them.
pub fn split_digits(text: &[u8]) -> (&[u8], &[u8])
    ensures digits { result.0.now ≡ digits_of text.now }
    ensures rest { result.1.now ≡ after_digits text.now }
{
    text.split_at(digits_len(text))
}

/// Whether each byte of a text is a digit, as in the empty text.
pub fn has_digits_alone(text: &[u8]) -> bool
    ensures { result ≡ list_all is_ascii_digit text.now }
{
    text.iter().all(|c| c.is_ascii_digit())
}

/// Whether a text is one or more digits.
pub fn is_digits(text: &[u8]) -> bool
    ensures { result ≡ are_digits text.now }
{
    !text.is_empty() && has_digits_alone(text)
}

/// Whether a text is one or more digits, and no more than `most`.
pub fn is_digits_within(most: usize, text: &[u8]) -> bool
    ensures { result ≡ digits_within 1 most text.now }
{
    !text.is_empty() && text.len() <= most && has_digits_alone(text)
}

/// The number that digits spell.
pub fn number(digits: &[u8]) -> u64
    requires digits { list_all is_ascii_digit digits.now ≡ true }
    requires short { length digits.now ≤ 19 }
    ensures value { result ≡ number_of digits.now }
    ensures bound { result < 10 ^ length digits.now }
{
    let mut size: u64 = 0;
    for digit in digits {
        size = size * 10 + u64::from(*digit - b'0');
    }
    size
}
