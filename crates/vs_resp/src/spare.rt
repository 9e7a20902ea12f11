//! The memory of answered messages and their words, which later ones take, so that most of them ask the allocator for none. What is kept
//! stays within bounds: the memory of a long word or a long message is dropped, and so is what goes beyond the bounds of all.
ghost use Rattle.std.specs.Prelude.{◌≡◌, ◌≤◌, [], length, take, IfOk, All, map, vec_len, vec_capacity};
ghost use Rattle.std.specs.List.{sum};

use std::alloc::{AllocError, Global};
use vs_outside::{List, Text};

/// The most words whose memory is kept: those of the longest vector's message, and some more.
const WORDS: usize = 4200;

/// The most bytes of memory of one word that is kept.
const WORD_BYTES: usize = 64;

/// The most bytes of memory of all words that are kept.
const ALL_BYTES: usize = 65_536;

/// The least memory of a word, so that a somewhat longer one finds room in it. As many bytes are copied at once for a shorter word, which
/// takes one step where a copy of just its own takes several.
const LEAST_BYTES: usize = 16;

/// The most messages whose lists of words are kept: those of one piece, if they are short.
const LISTS: usize = 16;

/// The most words for which a list has room that is kept.
const LIST_WORDS: usize = 160;

/// The memory of words that are no longer needed, and of the lists of messages, which are empty.
#[derive(Drop)]
pub(crate) struct Spare {
    alloc: Global,
    lists: Vec<Vec<Text>>,
    words: Vec<Vec<u8>>,
    bytes: usize,
    // How many words are handed out in messages.
    lent: usize,
    ghost few_lists: { vec_len lists ≤ 16 },
    ghost short_lists: { All (λ list. vec_capacity list ≤ 160) lists.items },
    ghost few: { vec_len words ≤ 4200 },
    ghost short: { All (λ word. vec_capacity word ≤ 64) words.items },
    ghost counted: { bytes ≡ sum (map vec_capacity words.items) },
    ghost all: { bytes ≤ 65536 },
}

impl Spare {
    /// Nothing is kept. It takes no memory.
    pub fn new(alloc: Global) -> Spare {
        Spare {
            alloc,
            lists: Vec::new(alloc),
            words: Vec::new(alloc),
            bytes: 0,
            lent: 0,
        }
    }

    /// A list without words, with room for so many.
    pub fn list(&mut self, words: usize) -> Result<Vec<Text>, AllocError>
        ensures { IfOk result (λ list. list.items ≡ []) }
    {
        if words <= LIST_WORDS {
            if let Some(mut list) = self.lists.pop() {
                list.clear();
                list.reserve_exact(words)?;
                return Ok(list);
            }
        }
        Vec::with_capacity(self.alloc, words)
    }

    /// A word without bytes, with room for so many.
    #[inline]
    pub fn word(&mut self, len: usize) -> Result<Vec<u8>, AllocError>
        ensures { IfOk result (λ word. word.items ≡ []) }
    {
        if len > WORD_BYTES {
            return Vec::with_capacity(self.alloc, len);
        }
        let room = len.max(LEAST_BYTES);
        match self.words.pop() {
            None => Vec::with_capacity(self.alloc, room),
            Some(mut word) => {
                self.bytes -= word.capacity();
                word.clear();
                word.reserve_exact(room)?;
                Ok(word)
            }
        }
    }

    /// A copy of this word, with which the bytes `from` begin.
    #[inline]
    pub fn copy(&mut self, word: &[u8], from: &[u8]) -> Result<Vec<u8>, AllocError>
        requires { word.now ≡ take (length word.now) from.now }
        ensures { IfOk result (λ copy. copy.items ≡ word.now) }
    {
        let mut copy = self.word(word.len())?;
        if word.len() <= LEAST_BYTES && LEAST_BYTES <= from.len() {
            copy.extend_from_slice(&from[..LEAST_BYTES])?;
            copy.truncate(word.len());
            return Ok(copy);
        }
        copy.extend_from_slice(word)?;
        Ok(copy)
    }

    /// Makes room to keep a message that is handed out, with its words. Where there is no memory for it, they are not kept.
    pub fn lend(&mut self, words: usize) {
        let _lists_made = self
            .lists
            .reserve_exact(LISTS.saturating_sub(self.lists.len()));
        self.lent = self.lent.saturating_add(words);
        let room = self.lent.min(WORDS);
        let _made = self
            .words
            .reserve_exact(room.saturating_sub(self.words.len()));
    }

    /// Keeps the memory of a message and its words, within the bounds. It takes no memory.
    pub fn keep(&mut self, message: List<Text>) {
        let mut words = message.into_vec();
        self.lent = self.lent.saturating_sub(words.len());
        while let Some(word) = words.pop() {
            self.keep_word(word.into_vec());
        }
        self.keep_list(words);
    }

    fn keep_list(&mut self, list: Vec<Text>) {
        if list.capacity() > LIST_WORDS {
            return;
        }
        if self.lists.len() < self.lists.capacity().min(LISTS) {
            self.lists.push_reserved(list);
        }
    }

    fn keep_word(&mut self, word: Vec<u8>) {
        let size = word.capacity();
        if size > WORD_BYTES || self.bytes + size > ALL_BYTES {
            return;
        }
        if self.words.len() < self.words.capacity().min(WORDS) {
            self.words.push_reserved(word);
            self.bytes += size;
        }
    }
}
