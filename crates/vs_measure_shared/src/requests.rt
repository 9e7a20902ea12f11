//! Requests by the words of a message.
ghost use Rattle.std.specs.Prelude.{◌≡◌, ◌<◌, IfOk, IsTrue};
ghost use Rattle.vs_defs.specs.Bounds.{IsInBounds};
ghost use Rattle.vs_command.specs.Readings.{AreShort};
ghost use Rattle.vs_command.specs.Requests.{request_of};

use crate::error::MeasureError;
use std::alloc::Global;
use vs_command::{Request, read_request};
use vs_outside::{List, NoMemory, Text};

/// Puts a word last.
pub fn push_word(alloc: Global, words: &mut List<Text>, word: &str) -> Result<(), NoMemory> {
    words.push(Text::from_slice(alloc, word.as_bytes())?)
}

fn are_short(words: &[Text]) -> bool
    ensures { IsTrue result → AreShort words.now }
{
    words.len() < 4294967296 && words.iter().all(|word| word.len() < 4294967296)
}

/// The request that a message of these words asks for.
pub fn request_by(alloc: Global, words: &[Text]) -> Result<Request, MeasureError>
    ensures { IfOk result (λ r. IsInBounds (request_of r)) }
{
    if words.is_empty() || !are_short(words) {
        return Err(MeasureError::Refused);
    }
    match read_request(alloc, words) {
        Ok(request) => Ok(request),
        Err(_) => Err(MeasureError::Refused),
    }
}

/// The request for the number of members.
pub fn card(alloc: Global) -> Result<Request, MeasureError>
    ensures { IfOk result (λ r. IsInBounds (request_of r)) }
{
    let mut words = List::new(alloc);
    push_word(alloc, &mut words, "VCARD")?;
    push_word(alloc, &mut words, "k")?;
    request_by(alloc, words.as_slice())
}
