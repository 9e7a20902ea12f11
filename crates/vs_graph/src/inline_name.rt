//! The bytes of a name: few lie in the value, more are shared by copies.
ghost use Rattle.std.specs.Prelude.{◌≡◌, ◌≤◌, length, IsOk, IfOk};

use crate::RefCounted;
use std::alloc::Global;
use std::marker::Model;
use vs_outside::{NoMemory, Text};

#[derive(Drop)]
enum KeptName {
    Inline { count: u8, bytes: [u8; 22] },
    Long(RefCounted<Text>),
}

/// Bytes that are given once and then read. A contract sees the list of them.
#[derive(Drop)]
pub struct InlineName {
    kept: KeptName,
}

impl Model for InlineName {
    ghost use Rattle.std.specs.Prelude.{ℕ, List as Items};
    ghost use Rattle.vs_graph.specs.Inline.{bytes_kept, AreBytesSound};

    ghost Value = { Items ℕ };

    ghost view = { λ n. bytes_kept n.kept };

    ghost invariant = { λ n. AreBytesSound n.kept };
}

impl InlineName {
    /// A copy of these bytes. Up to 22 take no memory.
    pub fn from_slice(alloc: Global, name: &[u8]) -> Result<InlineName, NoMemory>
        ensures value { IfOk result (λ n. n ≡ name.now) }
        ensures inline { length name.now ≤ 22 → IsOk result }
    {
        if name.len() > 22 {
            let text = Text::from_slice(alloc, name)?;
            let kept = KeptName::Long(RefCounted::new(alloc, text)?);
            return Ok(InlineName { kept });
        }
        let mut bytes = [0u8; 22];
        bytes[..name.len()].copy_from_slice(name);
        Ok(InlineName {
            kept: KeptName::Inline {
                count: name.len() as u8,
                bytes,
            },
        })
    }

    pub fn as_slice(&self) -> &[u8]
        ensures { result.now ≡ self.now }
    {
        match &self.kept {
            KeptName::Inline { count, bytes } => &bytes[..*count as usize],
            KeptName::Long(text) => text.get().as_slice(),
        }
    }

    /// An equal name. Bytes that lie in the value are copied, others are shared.
    pub fn try_clone(&self) -> Result<InlineName, NoMemory>
        ensures { IfOk result (λ copy. copy ≡ self.now) }
    {
        let kept = match &self.kept {
            KeptName::Inline { count, bytes } => KeptName::Inline {
                count: *count,
                bytes: *bytes,
            },
            KeptName::Long(text) => KeptName::Long(text.try_clone()?),
        };
        Ok(InlineName { kept })
    }
}
