//! Texts cut at a byte: lines at line feeds, words at spaces, drawn words at commas.
ghost use Rattle.std.specs.Prelude.{◌≡◌, ◌==◌, ◌<◌, ◌++◌, option_map, length, not, nat_le, IfOk, IfSome};
ghost use Rattle.std.specs.List.{position};
ghost use Rattle.vs_defs.specs.Limits.{max_schedule_line_bytes};
ghost use Rattle.vs_schedule_words.specs.Cut.{before_mark, behind_mark};

use vs_outside::{NoMemory, Text};

// The place of the first of these bytes.
fn place_of(text: &[u8], mark: u8) -> Option<usize>
    ensures { result ≡ position (λ c. c == mark) text.now }
{
    text.iter().position(|byte| *byte == mark)
}

/// What stands before the first of these bytes, and what stands behind it, where there is one.
pub(crate) fn cut(text: &[u8], mark: u8) -> (&[u8], Option<&[u8]>)
    ensures before { result.0.now ≡ before_mark mark text.now }
    ensures behind { option_map (λ rest. rest.now) result.1 ≡ behind_mark mark text.now }
    ensures shorter { IfSome result.1 (λ rest. length rest.now < length text.now) }
{
    match place_of(text, mark) {
        Some(end) => (&text[..end], Some(&text[end + 1..])),
        None => (text, None),
    }
}

/// Adds to a line what a piece has of it. Where the line ends there, the answer is what stands behind its line feed.
pub fn take_line<'a>(line: &mut Text, piece: &'a [u8]) -> Result<Option<&'a [u8]>, NoMemory>
    ensures line { IfOk result (λ behind. line.new ≡ line.old ++ before_mark 10 piece.now) }
    ensures behind { IfOk result (λ behind. option_map (λ rest. rest.now) behind ≡ behind_mark 10 piece.now) }
    ensures shorter { IfOk result (λ behind. IfSome behind (λ rest. length rest.now < length piece.now)) }
{
    let (of_line, behind) = cut(piece, b'\n');
    line.extend_from_slice(of_line)?;
    Ok(behind)
}

/// The most bytes that a line of a schedule has.
const MAX_SCHEDULE_LINE_BYTES: usize = 1_048_576;

/// Whether a line has more bytes than a line of a schedule may have.
pub fn is_too_long(line: &[u8]) -> bool
    ensures { result ≡ not (nat_le (length line.now) max_schedule_line_bytes) }
{
    line.len() > MAX_SCHEDULE_LINE_BYTES
}
