//! What a member holds beside its attribute, as its node keeps it.
ghost use Rattle.std.specs.Prelude.{◌≡◌, IfOk};
ghost use Rattle.vs_graph.specs.declared.node.Body.{Body};

use crate::inline_name::InlineName;
use crate::inline_words::InlineWords;
use std::alloc::Global;
use std::marker::Model;
use vs_outside::NoMemory;

/// The name and the vector of a member. Words up to 4 and a name of up to 22 bytes lie in the value itself, so that a search
/// that has the node has them; copies share what is longer. A contract sees a `Body`.
#[derive(Drop)]
pub struct InlineBody {
    words: InlineWords,
    name: InlineName,
}

impl Model for InlineBody {
    ghost use Rattle.vs_graph.specs.declared.node.Body.{Body};

    ghost Value = { Body };

    ghost view = { λ b. record { name = b.name; bits = b.words } };
}

impl InlineBody {
    /// A copy of a name and of the words of a vector.
    pub fn new(alloc: Global, name: &[u8], bits: &[u64]) -> Result<InlineBody, NoMemory>
        ensures { IfOk result (λ body. body ≡ record { name = name.now; bits = bits.now }) }
    {
        Ok(InlineBody {
            words: InlineWords::from_slice(alloc, bits)?,
            name: InlineName::from_slice(alloc, name)?,
        })
    }

    pub fn name(&self) -> &[u8]
        ensures { result.now ≡ self.now.name }
    {
        self.name.as_slice()
    }

    /// The signs of the vector, in words of 64 bits.
    pub fn bits(&self) -> &[u64]
        ensures { result.now ≡ self.now.bits }
    {
        self.words.as_slice()
    }

    /// An equal body.
    pub fn try_clone(&self) -> Result<InlineBody, NoMemory>
        ensures { IfOk result (λ copy. copy ≡ self.now) }
    {
        Ok(InlineBody {
            words: self.words.try_clone()?,
            name: self.name.try_clone()?,
        })
    }
}
