//! Texts, decoded byte by byte.
#![tactic(auto)]

ghost use Rattle.std.specs.Prelude.{◌≡◌, ◌+◌, ◌-◌, ◌*◌, ◌/◌, ◌%◌, ◌≤◌, ◌<◌, ◌++◌, List, [], ◌∷◌, ℕ, Some, None, IsSome, is_some, unwrap_or, drop, length, cond, true};
ghost use Rattle.vs_defs.specs.Numeral.{begins_with};
ghost use Rattle.std.specs.Char.{encode_utf8};
ghost use Rattle.vs_defs.specs.Bytes.{first_in};
ghost use Rattle.vs_defs.specs.Json.{after_bytes, is_high as is_high_unit, is_low as is_low_unit};
ghost use Rattle.vs_defs.specs.AttributeField.{is_named as named};
ghost use Rattle.vs_attr.specs.Reading.{string_at, string_behind, pair_of};
ghost use Rattle.vs_attr.specs.Seen.{step_seen, StepIsShorter};

use crate::piece::{Piece, inner_piece};
use std::marker::Model;

/// What stands next in a text.
enum Step<'a> {
    End,
    Byte(u8, &'a [u8]),
    Code(u32, &'a [u8]),
    /// An unpaired surrogate, or no piece of a text at all.
    Broken,
}

fn is_high(unit: u16) -> bool
    ensures { result ≡ is_high_unit unit }
{
    0xd800 <= unit && unit < 0xdc00
}

fn is_low(unit: u16) -> bool
    ensures { result ≡ is_low_unit unit }
{
    0xdc00 <= unit && unit < 0xe000
}

/// The character that two surrogates, a high and a low one, stand for.
fn pair_code(high: u16, low: u16) -> u32
    requires high { is_high_unit high ≡ true }
    requires low { is_low_unit low ≡ true }
    ensures value { result ≡ pair_of high low }
    ensures bound { result < 0x110000 }
{
    0x10000 + u32::from(high - 0xd800) * 1024 + u32::from(low - 0xdc00)
}

/// What a high surrogate and the code unit behind it stand for, before this
/// text.
fn pair_step(high: u16, unit: u16, rest: &[u8]) -> Step<'_>
    requires { is_high_unit high ≡ true }
    ensures value { step_seen result ≡ cond (is_low_unit unit) (after_bytes (encode_utf8 (pair_of high unit)) (string_at rest.now)) None }
    ensures bound { StepIsShorter (length rest.now + 1) result }
{
    if is_low(unit) {
        return Step::Code(pair_code(high, unit), rest);
    }
    Step::Broken
}

/// What a high surrogate stands for, before this text.
fn high_step(high: u16, rest: &[u8]) -> Step<'_>
    requires { is_high_unit high ≡ true }
    ensures value { string_behind high rest.now ≡ step_seen result }
    ensures bound { StepIsShorter (length rest.now) result }
{
    match inner_piece(rest) {
        Some((Piece::Unit(unit), rest)) => pair_step(high, unit, rest),
        Some((Piece::Plain(_), _)) => Step::Broken,
        None => Step::Broken,
    }
}

/// What a code unit stands for, before this text.
fn unit_step(unit: u16, rest: &[u8]) -> Step<'_>
    ensures value { string_behind unit rest.now ≡ step_seen result }
    ensures bound { StepIsShorter (length rest.now + 1) result }
{
    if is_high(unit) {
        return high_step(unit, rest);
    }
    if is_low(unit) {
        return Step::Broken;
    }
    Step::Code(u32::from(unit), rest)
}

/// The step where no piece of a text is left.
fn last_step(raw: &[u8]) -> Step<'_>
    ensures value { step_seen result ≡ cond (begins_with 34 raw.now) (Some []) None }
    ensures bound { StepIsShorter (length raw.now) result }
{
    match raw {
        [b'"', ..] => Step::End,
        _ => Step::Broken,
    }
}

fn next_step(raw: &[u8]) -> Step<'_>
    ensures value { string_at raw.now ≡ step_seen result }
    ensures bound { StepIsShorter (length raw.now) result }
{
    match inner_piece(raw) {
        Some((Piece::Plain(byte), rest)) => Step::Byte(byte, rest),
        Some((Piece::Unit(unit), rest)) => unit_step(unit, rest),
        None => last_step(raw),
    }
}

/// Whether a text, whose inside begins here, stands for bytes: it does unless
/// an escape spells an unpaired surrogate.
#[tactic(auto, using(crate::proofs::Strings::some_after))]
fn stands_for_bytes(raw: &[u8]) -> bool
    ensures { result ≡ is_some (string_at raw.now) }
{
    let mut raw = raw;
    loop {
        match next_step(raw) {
            Step::End => return true,
            Step::Broken => return false,
            Step::Byte(_, rest) | Step::Code(_, rest) => raw = rest,
        }
    }
}

/// A byte of a character in UTF-8 behind its first.
fn continuation(bits: u32) -> u8
    ensures { result ≡ 128 + bits % 64 }
{
    128 + (bits % 64) as u8
}

/// Up to three bytes that are still to be handed out.
#[derive(Drop)]
struct Pending {
    /// the bytes, at the end
    bytes: [u8; 3],
    left: u8,
}

impl Model for Pending {
    ghost Value = { List ℕ };

    ghost view = { λ p. drop (3 - p.left) p.bytes };

    ghost invariant = { λ p. p.left ≤ 3 };
}

impl Pending {
    fn none() -> Pending
        ensures { result ≡ [] }
    {
        Pending {
            bytes: [0; 3],
            left: 0,
        }
    }

    fn copied(&self) -> Pending
        ensures { result ≡ self.now }
    {
        Pending {
            bytes: self.bytes,
            left: self.left,
        }
    }

    fn next(&mut self) -> Option<u8>
        ensures value { result ≡ first_in self.old }
        ensures rest { self.new ≡ drop 1 self.old }
    {
        if self.left == 0 {
            return None;
        }
        let byte = self.bytes[3 - usize::from(self.left)];
        self.left -= 1;
        Some(byte)
    }
}

/// The first byte of a character in UTF-8, and those behind it.
fn encode(code: u32) -> (u8, Pending)
    requires { code < 0x110000 }
    ensures { result.0 ∷ result.1 ≡ encode_utf8 code }
{
    let last = continuation(code);
    let middle = continuation(code / 64);
    let bytes = [continuation(code / 4096), middle, last];
    if code < 0x80 {
        return (code as u8, Pending { bytes, left: 0 });
    }
    if code < 0x800 {
        return (192 + (code / 64) as u8, Pending { bytes, left: 1 });
    }
    if code < 0x10000 {
        return (224 + (code / 4096) as u8, Pending { bytes, left: 2 });
    }
    (240 + (code / 262_144) as u8, Pending { bytes, left: 3 })
}

/// A text, its escapes decoded, of which bytes are handed out one by one.
#[derive(Drop)]
pub struct JsonText<'a> {
    /// the text's inside from here on, and what follows it
    raw: &'a [u8],
    /// the bytes that are left of the character that was decoded last
    pending: Pending,
}

impl<'a> Model for JsonText<'a> {
    ghost Value = { List ℕ };

    ghost view = { λ t. t.pending ++ unwrap_or (string_at t.raw.now) [] };

    ghost invariant = { λ t. IsSome (string_at t.raw.now) };
}

impl<'a> JsonText<'a> {
    /// The text whose inside begins here, where it stands for bytes.
    pub(crate) fn new(raw: &'a [u8]) -> Option<JsonText<'a>>
        ensures { result ≡ string_at raw.now }
    {
        if !stands_for_bytes(raw) {
            return None;
        }
        Some(JsonText {
            raw,
            pending: Pending::none(),
        })
    }

    /// The same text, from the same byte on. It takes no memory.
    pub fn copied(&self) -> JsonText<'a>
        ensures { result ≡ self.now }
    {
        JsonText {
            raw: self.raw,
            pending: self.pending.copied(),
        }
    }

    /// The next byte of the text, in UTF-8, or `None` at its end.
    pub fn next_byte(&mut self) -> Option<u8>
        ensures value { result ≡ first_in self.old }
        ensures rest { self.new ≡ drop 1 self.old }
    {
        if let Some(byte) = self.pending.next() {
            return Some(byte);
        }
        match next_step(self.raw) {
            Step::End | Step::Broken => None,
            Step::Byte(byte, rest) => {
                self.raw = rest;
                Some(byte)
            }
            Step::Code(code, rest) => {
                let (first, pending) = encode(code);
                self.raw = rest;
                self.pending = pending;
                Some(first)
            }
        }
    }
}

/// Whether a text, whose inside begins here, stands for just this name.
pub fn is_named(name: &[u8], raw: &[u8]) -> bool
    ensures { result ≡ named name.now (string_at raw.now) }
{
    let Some(mut text) = JsonText::new(raw) else {
        return false;
    };
    for byte in name {
        if text.next_byte() != Some(*byte) {
            return false;
        }
    }
    text.next_byte().is_none()
}
