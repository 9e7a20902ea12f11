//! The drawn words that a line gives.
ghost use Rattle.std.specs.Prelude.{◌≡◌, IfOk};
ghost use Rattle.vs_thread_defs.specs.Schedule.{drawn_of};

use crate::cut::cut;
use crate::number::word_number;
use std::alloc::Global;
use vs_outside::{List, NoMemory};

/// The numbers that a word gives: none in `-`, else those between its commas. `None` where one is no 32-bit number.
pub fn drawn_words(alloc: Global, word: &[u8]) -> Result<Option<List<u32>>, NoMemory>
    ensures { IfOk result (λ numbers. numbers ≡ drawn_of word.now) }
{
    let mut numbers = List::new(alloc);
    if word == b"-".as_slice() {
        return Ok(Some(numbers));
    }
    let mut rest = Some(word);
    while let Some(text) = rest {
        let (piece, behind) = cut(text, b',');
        let Some(number) = word_number(piece) else {
            return Ok(None);
        };
        numbers.push(number)?;
        rest = behind;
    }
    Ok(Some(numbers))
}
