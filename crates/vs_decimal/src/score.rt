//! The printed score of a search.
#![tactic(auto)]

ghost use Rattle.std.specs.Prelude.{◌≡◌, List, ℕ, ◌+◌, ◌-◌, ◌*◌, ◌/◌, ◌%◌, ◌≤◌, ◌<◌, ◌++◌, ◌∷◌, [], take, length, codes};
ghost use Rattle.vs_defs.specs.Decimal.{score_text as score_of, nine_digits};
ghost use Rattle.vs_defs.specs.Limits.{max_dimension};

use std::marker::Model;

/// A score as text: `1`, `0`, or `0.` and nine digits.
#[derive(Drop)]
pub struct ScoreText {
    bytes: [u8; 11],
    len: u8,
}

impl Model for ScoreText {
    ghost Value = { List ℕ };

    ghost view = { λ s. take s.len s.bytes };

    ghost invariant = { λ s. s.len ≤ 11 };
}

impl ScoreText {
    /// The bytes to print, which are ASCII.
    pub fn as_slice(&self) -> &[u8]
        ensures { result.now ≡ self.now }
    {
        &self.bytes[..usize::from(self.len)]
    }

    /// One character.
    fn single(digit: u8) -> ScoreText
        ensures { result ≡ digit ∷ [] }
    {
        ScoreText {
            bytes: [digit; 11],
            len: 1,
        }
    }
}

/// The decimal digit of a number at a power of ten.
fn digit(number: u64, power: u64) -> u8
    requires { 0 < power }
    ensures { result ≡ 48 + number / power % 10 }
{
    b'0' + (number / power % 10) as u8
}

/// A number of billionths below one, as `0.` and nine digits.
fn fraction(billionths: u64) -> ScoreText
    ensures { result ≡ codes "0." ++ nine_digits billionths }
{
    let bytes = [
        b'0',
        b'.',
        digit(billionths, 100_000_000),
        digit(billionths, 10_000_000),
        digit(billionths, 1_000_000),
        digit(billionths, 100_000),
        digit(billionths, 10_000),
        digit(billionths, 1_000),
        digit(billionths, 100),
        digit(billionths, 10),
        digit(billionths, 1),
    ];
    ScoreText { bytes, len: 11 }
}

/// The share of the `dim` bits that are equal, where `differ` of them differ,
/// rounded down to nine decimals.
pub fn score_text(differ: u32, dim: u32) -> ScoreText
    requires within { differ ≤ dim }
    requires some { 1 ≤ dim }
    requires most { dim ≤ max_dimension }
    ensures { result ≡ score_of differ dim }
{
    if differ == 0 {
        return ScoreText::single(b'1');
    }
    if differ == dim {
        return ScoreText::single(b'0');
    }
    fraction(u64::from(dim - differ) * 1_000_000_000 / u64::from(dim))
}
