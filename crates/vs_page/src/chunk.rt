//! A chunk of rows: their words one after another, shared with copies. It is written only where nobody else has it.
ghost use Rattle.std.specs.Prelude.{◌≡◌, IfOk, IfSome, IsTrue, IsFalse};
ghost use Rattle.vs_page.specs.Rows.{IsWritten};

use crate::Copied;
use std::alloc::Global;
use std::marker::Model;
use std::sync::Arc;
use vs_outside::NoMemory;

/// Writes a row over the words from a place on, or behind the last of them. `false`, and nothing changed, where memory is refused and where
/// the words end in between.
fn write_row(words: &mut Vec<u64>, start: usize, row: &[u64]) -> bool
    ensures written { IsTrue result → IsWritten words.old.items words.new.items start row.now }
    ensures kept { IsFalse result → words.new.items ≡ words.old.items }
{
    let len = words.len();
    if start == len {
        return words.extend_from_slice(row).is_ok();
    }
    if start > len || len - start < row.len() {
        return false;
    }
    words[start..start + row.len()].copy_from_slice(row);
    true
}

/// The words of rows one after another. Contracts see the words.
#[derive(Drop)]
pub(crate) struct Chunk {
    words: Arc<Vec<u64>>,
}

impl Model for Chunk {
    ghost use Rattle.std.specs.Prelude.{ℕ, List};
    ghost use Rattle.std.specs.Arc.{arc_value};

    ghost Value = { List ℕ };

    ghost view = { λ c. (arc_value c.words).items };
}

impl Copied for Chunk {
    fn copied(&self, _alloc: Global) -> Result<Chunk, NoMemory> {
        self.try_clone()
    }
}

impl Chunk {
    /// A chunk of these words, copied once.
    pub(crate) fn new(alloc: Global, words: &[u64]) -> Result<Chunk, NoMemory>
        ensures { IfOk result (λ chunk. chunk ≡ words.now) }
    {
        let words = Vec::from_slice(alloc, words)?;
        Ok(Chunk {
            words: Arc::new(alloc, words)?,
        })
    }

    pub(crate) fn as_slice(&self) -> &[u64]
        ensures { result.now ≡ self.now }
    {
        &self.words
    }

    /// The same chunk, which copies no word.
    pub(crate) fn try_clone(&self) -> Result<Chunk, NoMemory>
        ensures { IfOk result (λ copy. copy ≡ self.now) }
    {
        let words = Arc::try_clone(&self.words)?;
        Ok(Chunk { words })
    }

    /// Writes a row where nobody else has the chunk.
    fn write_own(&mut self, start: usize, row: &[u64]) -> bool
        ensures written { IsTrue result → IsWritten self.old self.new start row.now }
        ensures kept { IsFalse result → self.new ≡ self.old }
    {
        match Arc::get_mut(&mut self.words) {
            Some(words) => write_row(words, start, row),
            None => false,
        }
    }

    /// The chunk with a row written over its words from a place on, or behind the last of them: in place where nobody else has it, else in a
    /// copy. None where memory is refused, and where the words end in between.
    pub(crate) fn with_row(self, alloc: Global, start: usize, row: &[u64]) -> Option<Chunk>
        ensures { IfSome result (λ chunk. IsWritten self chunk start row.now) }
    {
        let mut chunk = self;
        if chunk.write_own(start, row) {
            return Some(chunk);
        }
        let mut words = Vec::from_slice(alloc, chunk.as_slice()).ok()?;
        if !write_row(&mut words, start, row) {
            return None;
        }
        let words = Arc::new(alloc, words).ok()?;
        Some(Chunk { words })
    }
}
