//! A vector from its components, which are numerals: each one's sign is read straight into its place of a word.
ghost use Rattle.std.specs.Prelude.{◌≡◌, ◌≤◌, length, map, Some, IfOk, IfErr, OnOk};
ghost use Rattle.std.specs.List.{prefix_len};
ghost use Rattle.vs_defs.specs.Limits.{max_dimension};
ghost use Rattle.vs_defs.specs.Numeral.{bits_of, is_numeral};
ghost use Rattle.vs_bits.specs.Components.{plus_in, IsFirstBad, Refuses};
ghost use Rattle.vs_bits.specs.Packed.{IsWordOf};

use crate::bits::{Bits, bit_for};
use crate::sign_of;
use std::alloc::Global;
use vs_outside::{NoMemory, Text};

/// Why components are refused.
#[derive(Clone, Copy, Debug, PartialEq, Eq)]
pub enum ComponentsError {
    NoMemory,
    /// The first of them that is no numeral is at this place, counted from 0.
    BadComponent { place: u32 },
}

impl From<NoMemory> for ComponentsError {
    ghost use Rattle.vs_bits.specs.declared.components.ComponentsError.TheVariants.{NoMemory as OutOfMemory};

    ghost from_gives = { λ _ e. e ≡ OutOfMemory };

    fn from(_error: NoMemory) -> ComponentsError {
        ComponentsError::NoMemory
    }
}

// The bits of up to 64 numerals as one word, the first at the lowest place; or the place of the first text that is no numeral.
fn word_of_numerals(numerals: &[Text]) -> Result<u64, usize>
    requires { length numerals.now ≤ 64 }
    ensures word { IfOk result (λ word. IsWordOf word (map plus_in numerals.now)) }
    ensures all { OnOk result (prefix_len is_numeral numerals.now ≡ length numerals.now) }
    ensures bad { IfErr result (IsFirstBad numerals.now) }
{
    let mut word: u64 = 0;
    for (place, numeral) in numerals.iter().enumerate() {
        let Some(sign) = sign_of(numeral.as_slice()) else {
            return Err(place);
        };
        word |= u64::from(bit_for(sign)) << place;
    }
    Ok(word)
}

impl Bits {
    /// A bit for each numeral, 1 exactly for those greater than zero. It takes memory once.
    pub fn from_numerals(alloc: Global, numerals: &[Text]) -> Result<Bits, ComponentsError>
        requires some { 1 ≤ length numerals.now }
        requires few { length numerals.now ≤ max_dimension }
        ensures bits { IfOk result (λ bits. bits_of numerals.now ≡ Some bits) }
        ensures len { IfOk result (λ bits. length bits ≡ length numerals.now) }
        ensures refused { IfErr result (λ error. Refuses error numerals.now) }
    {
        let mut words = Vec::with_capacity(alloc, numerals.len().div_ceil(64))?;
        for at in 0..numerals.len().div_ceil(64) {
            let end = numerals.len().min(at * 64 + 64);
            match word_of_numerals(&numerals[at * 64..end]) {
                Ok(word) => words.push_reserved(word),
                Err(place) => {
                    return Err(ComponentsError::BadComponent {
                        place: (at * 64 + place) as u32,
                    });
                }
            }
        }
        Ok(Bits {
            dim: numerals.len() as u32,
            words,
        })
    }
}
