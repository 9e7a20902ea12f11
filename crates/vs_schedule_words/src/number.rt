//! Numbers of a line: decimal digits without a leading zero.
ghost use Rattle.std.specs.Prelude.{◌≡◌, ◌≤◌, ◌-◌, ◌^◌, ◌&&◌, true, cond, nat_le, Some, None};
ghost use Rattle.std.specs.List.{list_all};
ghost use Rattle.std.specs.Char.{is_ascii_digit};
ghost use Rattle.vs_defs.specs.Decimal.{number_of};
ghost use Rattle.vs_defs.specs.Numeral.{begins_with};
ghost use Rattle.vs_defs.specs.ProgramWords.{is_plain_number};
ghost use Rattle.vs_thread_defs.specs.Schedule.{number_within as within, u32_of};

use vs_decimal::digits::is_digits;

fn begins_with_zero(text: &[u8]) -> bool
    ensures { result ≡ begins_with 48 text.now }
{
    match text {
        [b'0', ..] => true,
        _ => false,
    }
}

// Whether a text is digits without a leading zero, or `0`.
fn is_plain(text: &[u8]) -> bool
    ensures { result ≡ is_plain_number text.now }
{
    is_digits(text) && (!begins_with_zero(text) || text.len() == 1)
}

// The number that digits spell, where 32 bits hold it.
fn number(digits: &[u8]) -> Option<u32>
    requires { list_all is_ascii_digit digits.now ≡ true }
    ensures { result ≡ cond (nat_le (number_of digits.now) (2 ^ 32 - 1)) (Some (number_of digits.now)) None }
{
    let mut size: u32 = 0;
    for digit in digits {
        size = size.checked_mul(10)?.checked_add(u32::from(*digit - b'0'))?;
    }
    Some(size)
}

/// The number that a word spells, where it is from `least` to `most`.
pub fn number_within(least: u32, most: u32, word: &[u8]) -> Option<u32>
    ensures { result ≡ within least most word.now }
{
    if is_plain(word) {
        number(word).filter(|value| least <= *value && *value <= most)
    } else {
        None
    }
}

/// The number that a word spells, where 32 bits hold it.
pub fn word_number(word: &[u8]) -> Option<u32>
    ensures { result ≡ u32_of word.now }
{
    number_within(0, u32::MAX, word)
}
