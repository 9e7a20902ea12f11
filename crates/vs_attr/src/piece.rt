//! The pieces of a text, and where a text ends: RFC 8259, section 7.
#![tactic(auto)]

ghost use Rattle.std.specs.Prelude.{◌≡◌, ◌+◌, ◌*◌, ◌<◌, ◌≤◌, length, option_map, IfSome, drop, cond, Some, None};
ghost use Rattle.std.specs.Char.{is_digit, digit_value};
ghost use Rattle.vs_defs.specs.Numeral.{begins_with};
ghost use Rattle.vs_defs.specs.Json.{piece_at as piece_in, escape_at as escape_in, unit_at as unit_in, short_escape as escaped, code_unit as unit_of};
ghost use Rattle.vs_attr.specs.Reading.{pieces_at, rest_of, inner_at};
ghost use Rattle.vs_attr.specs.Seen.{piece_seen_with};

/// A byte that stands for itself, or a code unit of UTF-16 from an escape.
#[derive(Clone, Copy)]
pub enum Piece {
    Plain(u8),
    Unit(u16),
}

/// The byte that a backslash and this byte stand for.
fn short_escape(escape: u8) -> Option<u8>
    ensures { result ≡ escaped escape }
{
    match escape {
        b'"' | b'\\' | b'/' => Some(escape),
        b'b' => Some(8),
        b'f' => Some(12),
        b'n' => Some(b'\n'),
        b'r' => Some(b'\r'),
        b't' => Some(b'\t'),
        _ => None,
    }
}

fn hex_digit(byte: u8) -> Option<u16>
    ensures { result ≡ cond (is_digit byte 16) (Some (digit_value byte)) None }
{
    match byte {
        b'0'..=b'9' => Some(u16::from(byte - b'0')),
        b'a'..=b'f' => Some(u16::from(byte - b'a') + 10),
        b'A'..=b'F' => Some(u16::from(byte - b'A') + 10),
        _ => None,
    }
}

/// The code unit that four hexadecimal digits spell.
fn code_unit(a: u8, b: u8, c: u8, d: u8) -> Option<u16>
    ensures { result ≡ unit_of a b c d }
{
    let a = hex_digit(a)?;
    let b = hex_digit(b)?;
    let c = hex_digit(c)?;
    let d = hex_digit(d)?;
    Some(a * 4096 + b * 256 + c * 16 + d)
}

fn unit_at(text: &[u8]) -> Option<(Piece, &[u8])>
    ensures value { piece_seen_with result ≡ unit_in text.now }
    ensures bound { IfSome result (λ p. length p.1.now < length text.now) }
{
    let [a, b, c, d, rest @ ..] = text else {
        return None;
    };
    let unit = code_unit(*a, *b, *c, *d)?;
    Some((Piece::Unit(unit), rest))
}

fn escape_at(text: &[u8]) -> Option<(Piece, &[u8])>
    ensures value { piece_seen_with result ≡ escape_in text.now }
    ensures bound { IfSome result (λ p. length p.1.now < length text.now) }
{
    match text {
        [] => None,
        [b'u', rest @ ..] => unit_at(rest),
        [escape, rest @ ..] => {
            let byte = short_escape(*escape)?;
            Some((Piece::Plain(byte), rest))
        }
    }
}

/// The piece in front, and the text behind it.
pub fn piece_at(text: &[u8]) -> Option<(Piece, &[u8])>
    ensures value { piece_seen_with result ≡ piece_in text.now }
    ensures bound { IfSome result (λ p. length p.1.now < length text.now) }
{
    match text {
        [b'\\', rest @ ..] => escape_at(rest),
        [byte, rest @ ..] if *byte >= 32 => Some((Piece::Plain(*byte), rest)),
        _ => None,
    }
}

/// The piece in front of what is left of a text's inside, or `None` at the
/// closing quotation mark.
pub fn inner_piece(text: &[u8]) -> Option<(Piece, &[u8])>
    ensures value { piece_seen_with result ≡ inner_at text.now }
    ensures bound { IfSome result (λ p. length p.1.now < length text.now) }
{
    match text {
        [b'"', ..] => None,
        _ => piece_at(text),
    }
}

fn without_quote(text: &[u8]) -> Option<&[u8]>
    ensures { option_map (λ r. r.now) result ≡ cond (begins_with 34 text.now) (Some (drop 1 text.now)) None }
{
    match text {
        [b'"', rest @ ..] => Some(rest),
        _ => None,
    }
}

/// The text behind the closing quotation mark of a text, whose inside begins
/// here.
pub fn text_end(text: &[u8]) -> Option<&[u8]>
    ensures { option_map (λ r. r.now) result ≡ rest_of (pieces_at text.now) }
{
    let mut text = text;
    while let Some((_, rest)) = inner_piece(text) {
        text = rest;
    }
    without_quote(text)
}
