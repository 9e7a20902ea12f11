//! The words of a vector: few lie in the value, more in one block that copies share.
ghost use Rattle.std.specs.Prelude.{◌≡◌, ◌≤◌, length, IsOk, IfOk};

use crate::RefCounted;
use arrayvec::ArrayVec;
use std::alloc::Global;
use std::marker::Model;
use vs_outside::{List, NoMemory};

/// How many words lie in the value: those of 256 bits.
pub const INLINE_WORDS: usize = 4;

#[derive(Drop)]
enum KeptWords {
    Inline { count: u8, words: [u64; 4] },
    Block16(RefCounted<ArrayVec<u64, 16>>),
    Block32(RefCounted<ArrayVec<u64, 32>>),
    Block64(RefCounted<ArrayVec<u64, 64>>),
    Long(RefCounted<List<u64>>),
}

/// Words that are given once and then read. A contract sees the list of them.
#[derive(Drop)]
pub struct InlineWords {
    kept: KeptWords,
}

impl Model for InlineWords {
    ghost use Rattle.std.specs.Prelude.{ℕ, List as Items};
    ghost use Rattle.vs_graph.specs.Inline.{words_kept, AreWordsSound};

    ghost Value = { Items ℕ };

    ghost view = { λ w. words_kept w.kept };

    ghost invariant = { λ w. AreWordsSound w.kept };
}

/// Words that fill the first places of an array.
fn array_of<const N: usize>(words: &[u64]) -> ArrayVec<u64, N>
    requires { length words.now ≤ N }
    ensures { result.items ≡ words.now }
{
    let mut array = ArrayVec::new();
    match array.try_extend_from_slice(words) {
        Ok(()) => array,
        Err(_) => unreachable!(),
    }
}

/// Up to 4 words, in the value.
fn inline_of(words: &[u64]) -> InlineWords
    requires { length words.now ≤ 4 }
    ensures { result ≡ words.now }
{
    let mut places = [0u64; 4];
    places[..words.len()].copy_from_slice(words);
    InlineWords {
        kept: KeptWords::Inline {
            count: words.len() as u8,
            words: places,
        },
    }
}

impl InlineWords {
    /// A copy of these words. Up to 4 take no memory, up to 64 one block.
    pub fn from_slice(alloc: Global, words: &[u64]) -> Result<InlineWords, NoMemory>
        ensures value { IfOk result (λ w. w ≡ words.now) }
        ensures inline { length words.now ≤ 4 → IsOk result }
    {
        if words.len() <= 4 {
            return Ok(inline_of(words));
        }
        let kept = if words.len() <= 16 {
            KeptWords::Block16(RefCounted::new(alloc, array_of(words))?)
        } else if words.len() <= 32 {
            KeptWords::Block32(RefCounted::new(alloc, array_of(words))?)
        } else if words.len() <= 64 {
            KeptWords::Block64(RefCounted::new(alloc, array_of(words))?)
        } else {
            KeptWords::Long(RefCounted::new(alloc, List::from_slice(alloc, words)?)?)
        };
        Ok(InlineWords { kept })
    }

    pub fn as_slice(&self) -> &[u64]
        ensures { result.now ≡ self.now }
    {
        match &self.kept {
            KeptWords::Inline { count, words } => &words[..*count as usize],
            KeptWords::Block16(block) => block.get().as_slice(),
            KeptWords::Block32(block) => block.get().as_slice(),
            KeptWords::Block64(block) => block.get().as_slice(),
            KeptWords::Long(list) => list.get().as_slice(),
        }
    }

    /// Equal words. Those that lie in the value are copied, a block is shared.
    pub fn try_clone(&self) -> Result<InlineWords, NoMemory>
        ensures { IfOk result (λ copy. copy ≡ self.now) }
    {
        let kept = match &self.kept {
            KeptWords::Inline { count, words } => KeptWords::Inline {
                count: *count,
                words: *words,
            },
            KeptWords::Block16(block) => KeptWords::Block16(block.try_clone()?),
            KeptWords::Block32(block) => KeptWords::Block32(block.try_clone()?),
            KeptWords::Block64(block) => KeptWords::Block64(block.try_clone()?),
            KeptWords::Long(list) => KeptWords::Long(list.try_clone()?),
        };
        Ok(InlineWords { kept })
    }
}
