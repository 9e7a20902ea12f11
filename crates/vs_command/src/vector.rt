//! The vector of a request: its dimension, and its components.
ghost use Rattle.std.specs.Prelude.{◌≡◌, ◌<◌, ◌≤◌, ◌+◌, length, IfOk};
ghost use Rattle.vs_command.specs.Readings.{Gives, AreShort};
ghost use Rattle.vs_defs.specs.Bounds.{IsVectorInBounds};
ghost use Rattle.vs_defs.specs.Limits.{max_components};
ghost use Rattle.vs_defs.specs.Read.{read_components as components_in, read_vector as vector_in};

use crate::Refusal;
use crate::limits::MAX_COMPONENTS;
use crate::word::{number_within, word};
use std::alloc::Global;
use vs_bits::{Bits, ComponentsError};
use vs_outside::Text;

/// The place of the first component in a message.
const FIRST_COMPONENT: usize = 4;

// The bits of the components, each of which has to be a numeral.
fn read_components(alloc: Global, components: &[Text]) -> Result<Bits, Refusal>
    requires some { 1 ≤ length components.now }
    requires few { length components.now ≤ max_components }
    ensures bits { Gives (λ bits. bits) result (components_in 4 components.now) }
    ensures len { IfOk result (λ bits. length bits ≡ length components.now) }
{
    match Bits::from_numerals(alloc, components) {
        Ok(bits) => Ok(bits),
        Err(ComponentsError::NoMemory) => Err(Refusal::NoMemory),
        Err(ComponentsError::BadComponent { place }) => Err(Refusal::BadComponent {
            at: FIRST_COMPONENT as u32 + place,
        }),
    }
}

/// The vector from word 3 on: its dimension, and as many components, with `more` words or more after them.
pub(crate) fn read_vector(alloc: Global, more: usize, words: &[Text]) -> Result<Bits, Refusal>
    requires dim { 4 ≤ length words.now }
    requires more { more ≤ 1 }
    requires short { AreShort words.now }
    ensures bits { Gives (λ bits. bits) result (vector_in more words.now) }
    ensures bounds { IfOk result IsVectorInBounds }
    ensures room { IfOk result (λ bits. 4 + length bits + more ≤ length words.now) }
{
    let Some(dim) = number_within(word(words, 3), 1, MAX_COMPONENTS) else {
        return Err(Refusal::BadDimension { at: 3 });
    };
    let want = dim as usize + more;
    let have = words.len() - FIRST_COMPONENT;
    if have < want {
        return Err(Refusal::ShortVector {
            want: want as u32,
            have: have as u32,
        });
    }
    read_components(
        alloc,
        &words[FIRST_COMPONENT..FIRST_COMPONENT + dim as usize],
    )
}
