//! The seven lines: words parted by single spaces, each line with a line feed at its end.
ghost use Rattle.std.specs.Prelude.{◌≡◌, ◌++◌, ◌∷◌, [], IfOk, OnOk, decimal, count_by};
ghost use Rattle.std.specs.List.{list_any};
ghost use Rattle.vs_command.specs.Answers.{hits_of};
ghost use Rattle.vs_defs.specs.Bytes.{same_name};
ghost use Rattle.vs_generate.specs.Printed.{printed};
ghost use Rattle.vs_thread_defs.specs.Generator.{summary_line, hit_names};

use itoa::Buffer;
use std::alloc::Global;
use vs_command::{Info, NamedHit};
use vs_outside::{List, NoMemory, Text};

// A line of a word and a number.
fn push_number(text: &mut Text, word: &[u8], number: u64) -> Result<(), NoMemory>
    ensures { OnOk result (text.new ≡ text.old ++ summary_line (word.now ∷ decimal number ∷ [])) }
{
    let mut buffer = Buffer::new();
    text.extend_from_slice(word)?;
    text.push(b' ')?;
    text.extend_from_slice(buffer.format(number).as_bytes())?;
    text.push(b'\n')
}

// A line of a word and the names of hits.
fn push_names(text: &mut Text, word: &[u8], hits: &List<NamedHit>) -> Result<(), NoMemory>
    ensures { OnOk result (text.new ≡ text.old ++ summary_line (word.now ∷ hit_names (hits_of hits.now))) }
{
    text.extend_from_slice(word)?;
    for hit in hits.as_slice() {
        text.push(b' ')?;
        text.extend_from_slice(hit.name.as_slice())?;
    }
    text.push(b'\n')
}

// Whether a hit has the name.
fn is_among(hits: &[NamedHit], name: &[u8]) -> bool
    ensures { result ≡ list_any (λ hit. same_name name.now hit.name) hits.now }
{
    hits.iter().any(|hit| name == hit.name.as_slice())
}

// How many of the second hits are among the first, by their names.
fn agreed(truth: &[NamedHit], beam: &[NamedHit]) -> u64
    ensures { result ≡ count_by (λ hit. list_any (λ other. same_name hit.name other.name) truth.now) beam.now }
{
    beam.iter()
        .filter(|hit| is_among(truth, hit.name.as_slice()))
        .count() as u64
}

/// The text of a set's facts, its linked pairs at layer 0, and what two searches found.
pub fn summary_text(
    alloc: Global,
    facts: &Info,
    pairs: u64,
    truth: &List<NamedHit>,
    beam: &List<NamedHit>,
) -> Result<Text, NoMemory>
    ensures { IfOk result (λ text. text ≡ printed facts.now pairs (hit_names (hits_of truth.now)) (hit_names (hits_of beam.now))) }
{
    let mut text = Text::new(alloc);
    push_number(&mut text, b"members", u64::from(facts.size))?;
    push_number(&mut text, b"dim", u64::from(facts.dim))?;
    push_number(&mut text, b"max-level", u64::from(facts.max_level))?;
    push_number(&mut text, b"links", pairs)?;
    push_names(&mut text, b"truth", truth)?;
    push_names(&mut text, b"beam", beam)?;
    push_number(
        &mut text,
        b"agree",
        agreed(truth.as_slice(), beam.as_slice()),
    )?;
    Ok(text)
}
