//! The words of a line.
ghost use Rattle.std.specs.Prelude.{◌≡◌, ◌==◌, ◌≤◌, not, length, IfOk, IfSome};
ghost use Rattle.std.specs.List.{list_all};
ghost use Rattle.vs_command.specs.Readings.{AreShort};
ghost use Rattle.vs_thread_defs.specs.Schedule.{line_words as words_in, is_line_word as line_word};

use crate::cut::{cut, is_too_long};
use std::alloc::Global;
use vs_outside::{List, NoMemory, Text};

// Whether there is no CR in a word.
fn has_no_return(word: &[u8]) -> bool
    ensures { result ≡ list_all (λ b. not (b == 13)) word.now }
{
    word.iter().all(|byte| *byte != b'\r')
}

// Whether it is a word, and one without a CR.
fn is_line_word(word: &[u8]) -> bool
    ensures { result ≡ line_word word.now }
{
    !word.is_empty() && has_no_return(word)
}

/// The words of a line, parted by single spaces. None where one is empty or has a CR, or where the line is too long.
pub fn line_words(alloc: Global, line: &[u8]) -> Result<Option<List<Text>>, NoMemory>
    ensures words { IfOk result (λ words. words ≡ words_in line.now) }
    ensures some { IfOk result (λ words. IfSome words (λ all. 1 ≤ length all)) }
    ensures short { IfOk result (λ words. IfSome words AreShort) }
{
    if is_too_long(line) {
        return Ok(None);
    }
    let mut words = List::new(alloc);
    let mut rest = Some(line);
    while let Some(text) = rest {
        let (word, behind) = cut(text, b' ');
        if !is_line_word(word) {
            return Ok(None);
        }
        words.push(Text::from_slice(alloc, word)?)?;
        rest = behind;
    }
    Ok(Some(words))
}
