//! A bulk that lies whole in a piece is found with its line ends.
ghost use Rattle.std.specs.Prelude.{◌≡◌, ◌<◌, ◌≤◌, ◌+◌, ℕ, IsTrue, List, [], ◌∷◌, length, take, drop, IfSome};
ghost use Rattle.vs_defs.specs.Bytes.{Bytes};
ghost use Rattle.vs_defs.specs.Limits.{max_count_digits, max_message_bytes, max_word_bytes};
ghost use Rattle.vs_stream.specs.Machine.{bulk, len, body};
ghost use Rattle.vs_resp.specs.Bulk.{Leads, IsBulk};

use crate::limits::{MAX_COUNT_DIGITS, MAX_WORD_BYTES};

/// A number that bytes begin with, and how many bytes spell it.
#[derive(Clone, Copy, Drop)]
struct Number {
    size: usize,
    value: u32,
}

/// A bulk that lies whole at the front of a piece: its word, the piece from the word on, and how many bytes it has with its length and
/// its line ends.
#[derive(Clone, Copy, Drop)]
pub(crate) struct Bulk<'a> {
    pub word: &'a [u8],
    pub from: &'a [u8],
    pub size: usize,
}

// The digits that the bytes begin with, at most 7 of them; none where they pass the longest word.
fn digits(bytes: &[u8]) -> Option<Number>
    ensures spells { IfSome result (λ n. (l sum : ℕ) (ws : List Bytes) → sum + n.value ≤ max_message_bytes → Leads (len l sum ws 0 0) (take n.size bytes.now) (len l sum ws n.size n.value)) }
    ensures within { IfSome result (λ n. n.size ≤ length bytes.now) }
    ensures few { IfSome result (λ n. n.size ≤ max_count_digits) }
    ensures value { IfSome result (λ n. n.value ≤ max_word_bytes) }
{
    let most = bytes.len().min(MAX_COUNT_DIGITS as usize);
    let mut value: u32 = 0;
    let mut size: usize = 0;
    'digits: while size < most && bytes[size].is_ascii_digit() {
        value = value * 10 + (bytes[size] - b'0') as u32;
        if value > MAX_WORD_BYTES {
            return None;
        }
        size += 1;
    }
    Some(Number { size, value })
}

// Whether a line ends there.
fn ends_line(bytes: &[u8], at: usize) -> bool
    requires { at ≤ length bytes.now }
    ensures line_end { IsTrue result → take 2 (drop at bytes.now) ≡ 13 ∷ 10 ∷ [] }
    ensures within { IsTrue result → at + 2 ≤ length bytes.now }
{
    match &bytes[at..] {
        [b'\r', b'\n', ..] => true,
        _ => false,
    }
}

// The digit of a length's line that has one alone, as those of most words have.
fn lone_digit(bytes: &[u8]) -> Option<u8>
    ensures line { IfSome result (λ digit. take 4 bytes.now ≡ 36 ∷ digit ∷ 13 ∷ 10 ∷ []) }
    ensures within { IfSome result (λ digit. 4 ≤ length bytes.now) }
    ensures digit { IfSome result (λ digit. (48 ≤ digit) × (digit ≤ 57)) }
{
    match bytes {
        [b'$', digit @ b'0'..=b'9', b'\r', b'\n', ..] => Some(*digit),
        _ => None,
    }
}

// The length that a bulk begins with, and the size of its line.
fn length_line(bytes: &[u8]) -> Option<Number>
    ensures leads { IfSome result (λ n. (l sum : ℕ) (ws : List Bytes) → sum + n.value ≤ max_message_bytes → Leads (bulk l sum ws) (take n.size bytes.now) (body l (sum + n.value) ws n.value [])) }
    ensures within { IfSome result (λ n. n.size ≤ length bytes.now) }
    ensures value { IfSome result (λ n. n.value ≤ max_word_bytes) }
{
    if let Some(digit) = lone_digit(bytes) {
        return Some(Number {
            size: 4,
            value: u32::from(digit - b'0'),
        });
    }
    if bytes.is_empty() || bytes[0] != b'$' {
        return None;
    }
    let rest = &bytes[1..];
    let number = digits(rest)?;
    if number.size == 0 || !ends_line(rest, number.size) {
        return None;
    }
    Some(Number {
        size: number.size + 3,
        value: number.value,
    })
}

/// The bulk at the front of these bytes, where they have it whole.
pub(crate) fn whole_bulk(bytes: &[u8]) -> Option<Bulk>
    ensures bulk { IfSome result (λ b. IsBulk (take b.size bytes.now) b.word.now) }
    ensures within { IfSome result (λ b. b.size ≤ length bytes.now) }
    ensures some { IfSome result (λ b. 0 < b.size) }
    ensures length { IfSome result (λ b. length b.word.now ≤ max_word_bytes) }
    ensures from { IfSome result (λ b. b.word.now ≡ take (length b.word.now) b.from.now) }
{
    let line = length_line(bytes)?;
    let end = line.size + line.value as usize;
    if end > bytes.len() || !ends_line(bytes, end) {
        return None;
    }
    let from = &bytes[line.size..];
    Some(Bulk {
        word: &from[..line.value as usize],
        from,
        size: end + 2,
    })
}
