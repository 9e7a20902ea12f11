//! Numbers of the command line.
ghost use Rattle.std.specs.Prelude.{◌≡◌, ◌≤◌, ◌-◌, ◌^◌, ◌&&◌, true, cond, nat_le, Some, None, is_some};
ghost use Rattle.std.specs.List.{list_all};
ghost use Rattle.std.specs.Char.{is_ascii_digit};
ghost use Rattle.vs_defs.specs.Numeral.{begins_with};
ghost use Rattle.vs_defs.specs.Decimal.{number_of};
ghost use Rattle.vs_defs.specs.ProgramWords.{is_plain_number};

use vs_decimal::digits::is_digits;

fn begins_with_zero(text: &[u8]) -> bool
    ensures { result ≡ begins_with 48 text.now }
{
    match text {
        [b'0', ..] => true,
        _ => false,
    }
}

/// Whether a text is digits without a leading zero, or `0`.
fn is_plain(text: &[u8]) -> bool
    ensures { result ≡ is_plain_number text.now }
{
    is_digits(text) && (!begins_with_zero(text) || text.len() == 1)
}

/// The number that digits spell, where 64 bits hold it.
fn number(digits: &[u8]) -> Option<u64>
    requires { list_all is_ascii_digit digits.now ≡ true }
    ensures { result ≡ cond (nat_le (number_of digits.now) (2 ^ 64 - 1)) (Some (number_of digits.now)) None }
{
    let mut size: u64 = 0;
    for digit in digits {
        size = size.checked_mul(10)?.checked_add(u64::from(*digit - b'0'))?;
    }
    Some(size)
}

/// Reads decimal digits without a leading zero, or `0`; `None` for any other
/// text, and past 64 bits.
pub fn read_number(text: &[u8]) -> Option<u64>
    ensures { result ≡ cond (is_plain_number text.now && nat_le (number_of text.now) (2 ^ 64 - 1)) (Some (number_of text.now)) None }
{
    if is_plain(text) { number(text) } else { None }
}
