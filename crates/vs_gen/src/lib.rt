//! Generated members: member `i` of the key `g` is named `m` and its number, and its components are the bits of the next words of stream 1 of
//! the seed. A generator hands out the words of one VADD after another, each member's once.
#![tactic(auto)]

ghost use Rattle.std.specs.Prelude.{◌≡◌, ◌*◌, ◌<◌, ◌≤◌, ◌∷◌, [], ◌++◌, ℕ, OnOk, IfOk, OnErr, length, decimal, codes};
ghost use Rattle.vs_session_defs.specs.Words.{drawn, after_draws};
ghost use Rattle.vs_thread_defs.specs.Generator.{component, words_per_member};
ghost use Rattle.vs_gen.specs.Generated.{at, components, words_of, IsNext};

use itoa::Buffer;
use rand_pcg::Lcg64Xsh32;
use std::alloc::Global;
use std::marker::Model;
use vs_outside::{List, NoMemory, Text};
use vs_random_words::{draw, generator};

#[cfg(test)]
mod tests;

/// The words of the members that are still to come.
#[derive(Drop)]
pub struct Generator {
    alloc: Global,
    stream: Lcg64Xsh32,
    members: u32,
    dim: u32,
    next: u32,
}

impl Model for Generator {
    ghost use Rattle.std.specs.Prelude.{◌≤◌};
    ghost use Rattle.vs_gen.specs.Generated.{Generating};

    ghost Value = { Generating };

    ghost view = { λ g. record { stream = g.stream; members = g.members; dim = g.dim; next = g.next } };

    ghost invariant = { λ g. (g.next ≤ g.members) × (g.dim ≤ 4096) };
}

/// The members of a seed, so many and of so many components. It takes no memory.
pub fn generated(alloc: Global, seed: u64, members: u32, dim: u32) -> Generator
    requires { dim ≤ 4096 }
    ensures { result ≡ at seed members dim 0 }
{
    Generator {
        alloc,
        stream: generator(seed, 1),
        members,
        dim,
        next: 0,
    }
}

// The text of the component at a place.
fn component_text(alloc: Global, words: &[u32], place: u32) -> Result<Text, NoMemory>
    requires { place < 32 * length words.now }
    ensures { IfOk result (λ text. text ≡ component words.now place) }
{
    let bit = (words[(place / 32) as usize] >> (place % 32)) % 2;
    let text: &[u8] = if bit == 1 { b"1" } else { b"-1" };
    Text::from_slice(alloc, text)
}

#[tactic(auto, using(crate::proofs::Components::one_more))]
fn push_components(
    alloc: Global,
    words: &[u32],
    dim: u32,
    list: &mut List<Text>,
) -> Result<(), NoMemory>
    requires { dim ≤ 32 * length words.now }
    ensures { OnOk result (list.new ≡ list.old ++ components words.now dim) }
{
    for place in 0..dim {
        list.push(component_text(alloc, words, place)?)?;
    }
    Ok(())
}

fn push_word(alloc: Global, list: &mut List<Text>, word: &[u8]) -> Result<(), NoMemory>
    ensures { OnOk result (list.new ≡ list.old ++ word.now ∷ []) }
{
    list.push(Text::from_slice(alloc, word)?)
}

// A word that ends in a number.
fn push_numbered(
    alloc: Global,
    list: &mut List<Text>,
    front: &[u8],
    number: u32,
) -> Result<(), NoMemory>
    ensures { OnOk result (list.new ≡ list.old ++ (front.now ++ decimal number) ∷ []) }
{
    let mut buffer = Buffer::new();
    let mut text = Text::from_slice(alloc, front)?;
    text.extend_from_slice(buffer.format(number).as_bytes())?;
    list.push(text)
}

// The words of a member by those that its vector draws.
fn words_by(alloc: Global, words: &[u32], dim: u32, member: u32) -> Result<List<Text>, NoMemory>
    requires { dim ≤ 32 * length words.now }
    ensures { IfOk result (λ list. list ≡ words_of words.now dim member) }
{
    let mut list = List::new(alloc);
    push_word(alloc, &mut list, b"VADD")?;
    push_word(alloc, &mut list, b"g")?;
    push_word(alloc, &mut list, b"VALUES")?;
    push_numbered(alloc, &mut list, b"", dim)?;
    push_components(alloc, words, dim, &mut list)?;
    push_numbered(alloc, &mut list, b"m", member)?;
    push_word(alloc, &mut list, b"EF")?;
    push_word(alloc, &mut list, b"64")?;
    Ok(list)
}

impl Generator {
    // Those of the next member, and the stream behind them.
    fn next_member(&self) -> Result<(List<Text>, Lcg64Xsh32), NoMemory>
        ensures { IfOk result (λ r. (r.0 ≡ words_of (drawn (words_per_member self.now.dim) self.now.stream) self.now.dim self.now.next) × (r.1 ≡ after_draws (words_per_member self.now.dim) self.now.stream)) }
    {
        let mut stream = self.stream.clone()?;
        let words = draw(self.alloc, &mut stream, (self.dim + 31) / 32)?;
        let list = words_by(self.alloc, words.as_slice(), self.dim, self.next)?;
        Ok((list, stream))
    }

    /// The words of the next member's VADD; `None` exactly after the last member. A refusal leaves the generator as it was.
    pub fn next_words(&mut self) -> Result<Option<List<Text>>, NoMemory>
        ensures next { (seed i : ℕ) → self.old ≡ at seed self.old.members self.old.dim i → IfOk result (λ words. IsNext seed i self.old words self.new) }
        ensures refused { OnErr result (self.new ≡ self.old) }
    {
        if self.next == self.members {
            return Ok(None);
        }
        let (words, stream) = self.next_member()?;
        self.stream = stream;
        self.next += 1;
        Ok(Some(words))
    }
}
