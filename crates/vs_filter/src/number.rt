//! Arithmetic on numbers in billionths within 128 bits. None is a failure.
ghost use Rattle.std.specs.Prelude.{◌≡◌, ◌+ℤ◌, ◌-ℤ◌, neg_ℤ};
ghost use Rattle.vs_defs.specs.Filter.{number, product, quotient, remainder, is_zero};
ghost use Rattle.vs_filter.specs.Numbers.{number_seen};

/// One, in billionths.
const BILLION: i128 = 1_000_000_000;

#[tactic(auto, using(crate::proofs::Numbers::checked_is))]
pub fn sum(a: i128, b: i128) -> Option<i128>
    ensures { number_seen result ≡ number (a +ℤ b) }
{
    a.checked_add(b)
}

#[tactic(auto, using(crate::proofs::Numbers::checked_is))]
pub fn difference(a: i128, b: i128) -> Option<i128>
    ensures { number_seen result ≡ number (a -ℤ b) }
{
    a.checked_sub(b)
}

#[tactic(auto, using(crate::proofs::Numbers::checked_is))]
pub fn negative(a: i128) -> Option<i128>
    ensures { number_seen result ≡ number (neg_ℤ a) }
{
    a.checked_neg()
}

/// The product of the billionths has to fit before it is divided, cut towards zero.
pub fn product(a: i128, b: i128) -> Option<i128>
    ensures { number_seen result ≡ product a b }
{
    let whole = a.checked_mul(b)?;
    Some(whole / BILLION)
}

/// The left side times a billion has to fit before it is divided, cut towards zero.
pub fn quotient(a: i128, b: i128) -> Option<i128>
    ensures { number_seen result ≡ quotient a b }
{
    let whole = a.checked_mul(BILLION)?;
    whole.checked_div(b)
}

/// The remainder has the left side's sign.
pub fn remainder(a: i128, b: i128) -> Option<i128>
    ensures { number_seen result ≡ remainder a b }
{
    if b == 0 {
        return None;
    }
    Some(a.wrapping_rem(b))
}

pub fn is_zero(a: i128) -> bool
    ensures { result ≡ is_zero a }
{
    a == 0
}
