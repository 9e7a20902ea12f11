//! The limits of a message, which are those of the definitions.

/// The most words of an array.
pub(crate) const MAX_MESSAGE_WORDS: u32 = 65536;

/// The most bytes of one word of an array.
pub(crate) const MAX_WORD_BYTES: u32 = 65536;

/// The most bytes of all words of an array together.
pub(crate) const MAX_MESSAGE_BYTES: u32 = 4194304;

/// The most bytes of an inline line before its line feed.
pub(crate) const MAX_LINE_BYTES: u32 = 65536;

/// The most digits of a count or a length.
pub(crate) const MAX_COUNT_DIGITS: u8 = 7;
