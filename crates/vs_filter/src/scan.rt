//! Cuts a filter's text into tokens.
ghost use Rattle.std.specs.Prelude.{◌≡◌, ◌≤◌, ◌<◌, ◌+◌, ◌^◌, ℕ, length, IfOk, IfSome, take, ◌-◌};
ghost use Rattle.vs_defs.specs.FilterText.{is_space, begins_word, is_word_byte, word_of, after_word, word_token, after_decimals, after_exponent, after_numeral, begins_with_word, sign_token, mark_token, quoted_at, quoted_token as quoted_front, skip_space as space_skipped, tokens_of as tokens_in, token_at as token_in, is_last};
ghost use Rattle.vs_defs.specs.FilterText.{Numeral as numeral_seen};
ghost use Rattle.vs_defs.specs.Numeral.{after_digits};
ghost use Rattle.vs_filter.specs.Seen.{token_seen, tokens_seen, quoted_seen, front_seen, sign_front};

use crate::operator::Operator;
use crate::token::{Placed, Token};
use std::alloc::Global;
use vs_decimal::digits::{digits_len, unsigned};
use vs_outside::{List, NoMemory, Text};

fn is_space(byte: u8) -> bool
    ensures { result ≡ is_space byte }
{
    matches!(byte, b' ' | b'\t' | b'\n' | b'\r')
}

/// A letter or `_`.
fn begins_word(byte: u8) -> bool
    ensures { result ≡ begins_word byte }
{
    byte.is_ascii_uppercase() || byte.is_ascii_lowercase() || byte == b'_'
}

fn is_word_byte(byte: u8) -> bool
    ensures { result ≡ is_word_byte byte }
{
    begins_word(byte) || byte.is_ascii_digit()
}

fn word_len(text: &[u8]) -> usize
    ensures value { result ≡ length (word_of text.now) }
    ensures bound { result ≤ length text.now }
{
    text.iter().take_while(|c| is_word_byte(**c)).count()
}

/// The word at the front, and what follows it.
fn split_word(text: &[u8]) -> (&[u8], &[u8])
    ensures word { result.0.now ≡ word_of text.now }
    ensures rest { result.1.now ≡ after_word text.now }
    ensures bound { length result.1.now ≤ length text.now }
{
    text.split_at(word_len(text))
}

fn word_token<'a>(word: &[u8]) -> Token<'a>
    ensures { token_seen result ≡ word_token word.now }
{
    if word == b"and".as_slice() {
        Token::Between(Operator::And)
    } else if word == b"or".as_slice() {
        Token::Between(Operator::Or)
    } else if word == b"not".as_slice() {
        Token::Not
    } else if word == b"in".as_slice() {
        Token::Between(Operator::In)
    } else if word == b"true".as_slice() {
        Token::Truth(true)
    } else if word == b"false".as_slice() {
        Token::Truth(false)
    } else {
        Token::Bad
    }
}

fn after_digits(text: &[u8]) -> &[u8]
    ensures value { result.now ≡ after_digits text.now }
    ensures bound { length result.now ≤ length text.now }
{
    let (_, rest) = text.split_at(digits_len(text));
    rest
}

/// What follows a point and digits, where they stand at the front.
fn after_decimals(text: &[u8]) -> &[u8]
    ensures value { result.now ≡ after_decimals text.now }
    ensures bound { length result.now ≤ length text.now }
{
    match text {
        [b'.', digits @ ..] if digits_len(digits) > 0 => after_digits(digits),
        _ => text,
    }
}

/// What follows an exponent, where one stands at the front.
fn after_exponent(text: &[u8]) -> &[u8]
    ensures value { result.now ≡ after_exponent text.now }
    ensures bound { length result.now ≤ length text.now }
{
    match text {
        [b'e' | b'E', rest @ ..] if digits_len(unsigned(rest)) > 0 => after_digits(unsigned(rest)),
        _ => text,
    }
}

fn after_numeral(text: &[u8]) -> &[u8]
    ensures value { result.now ≡ after_numeral text.now }
    ensures bound { length result.now ≤ length text.now }
{
    after_exponent(after_decimals(after_digits(text)))
}

fn begins_with_word(text: &[u8]) -> bool
    ensures { result ≡ begins_with_word text.now }
{
    match text {
        [first, ..] => begins_word(*first),
        [] => false,
    }
}

/// The longer of two signs, where the second byte makes it so.
fn sign_token<'a>(
    second: u8,
    long: Token<'a>,
    short: Token<'a>,
    text: &'a [u8],
) -> (Token<'a>, &'a [u8])
    ensures token { token_seen result.0 ≡ (sign_token second (token_seen long.entry) (token_seen short.entry) text.entry.now).0 }
    ensures rest { result.1.now ≡ (sign_token second (token_seen long.entry) (token_seen short.entry) text.entry.now).1 }
    ensures bound { length result.1.now ≤ length text.entry.now }
{
    match text {
        [first, rest @ ..] if *first == second => (long, rest),
        _ => (short, text),
    }
}

fn mark_token<'a>(byte: u8) -> Token<'a>
    ensures { token_seen result ≡ mark_token byte }
{
    match byte {
        b'(' => Token::Open,
        b')' => Token::Close,
        b'[' => Token::OpenList,
        b']' => Token::CloseList,
        b',' => Token::Comma,
        b'-' => Token::Minus,
        b'+' => Token::Between(Operator::Add),
        b'*' => Token::Between(Operator::Multiply),
        b'/' => Token::Between(Operator::Divide),
        b'%' => Token::Between(Operator::Remainder),
        _ => Token::Bad,
    }
}

#[tactic(auto, using(crate::proofs::Quoted::quoted_end, crate::proofs::Quoted::quoted_plain, crate::proofs::Quoted::quoted_escape, crate::proofs::Quoted::quoted_cut))]
/// The text up to its closing mark, and what follows the mark; None where it doesn't end.
fn quoted<'a>(alloc: Global, mark: u8, text: &'a [u8]) -> Result<Option<(Text, &'a [u8])>, NoMemory>
    ensures value { IfOk result (λ q. quoted_seen q ≡ quoted_at mark text.entry.now) }
    ensures bound { IfOk result (λ q. IfSome q (λ p. length p.1.now ≤ length text.entry.now)) }
{
    let mut bytes = Text::new(alloc);
    let mut rest = text;
    while let Some((first, after)) = rest.split_first() {
        if *first == mark {
            return Ok(Some((bytes, after)));
        }
        if *first != b'\\' {
            bytes.push(*first)?;
            rest = after;
        } else if let Some((escaped, behind)) = after.split_first() {
            bytes.push(*escaped)?;
            rest = behind;
        } else {
            return Ok(None);
        }
    }
    Ok(None)
}

fn skip_space(text: &[u8]) -> &[u8]
    ensures value { result.now ≡ space_skipped text.now }
    ensures bound { length result.now ≤ length text.now }
{
    let mut rest = text;
    while let Some((first, after)) = rest.split_first() {
        if !is_space(*first) {
            return rest;
        }
        rest = after;
    }
    rest
}

fn numeral<'a>(text: &'a [u8]) -> (Token<'a>, &'a [u8])
    ensures token { token_seen result.0 ≡ numeral_seen (take (length text.entry.now - length (after_numeral text.entry.now)) text.entry.now) }
    ensures rest { result.1.now ≡ after_numeral text.entry.now }
    ensures bound { length result.1.now ≤ length text.entry.now }
{
    let rest = after_numeral(text);
    let (digits, _) = text.split_at(text.len() - rest.len());
    (Token::Numeral(digits), rest)
}

fn quoted_token<'a>(
    alloc: Global,
    mark: u8,
    text: &'a [u8],
) -> Result<(Token<'a>, &'a [u8]), NoMemory>
    ensures value { IfOk result (λ front. front_seen front ≡ quoted_front (quoted_at mark text.entry.now)) }
    ensures bound { IfOk result (λ front. length front.1.now ≤ length text.entry.now) }
{
    match quoted(alloc, mark, text)? {
        Some((bytes, rest)) => Ok((Token::Quoted(bytes), rest)),
        None => Ok((Token::Bad, &[])),
    }
}

/// The longest token at the front of a text that doesn't begin with white space, and what follows it.
fn token_at<'a>(alloc: Global, text: &'a [u8]) -> Result<(Token<'a>, &'a [u8]), NoMemory>
    ensures value { IfOk result (λ front. front_seen front ≡ token_in text.entry.now) }
    ensures bound { IfOk result (λ front. length front.1.now ≤ length text.entry.now) }
{
    let Some((first, rest)) = text.split_first() else {
        return Ok((Token::End, text));
    };
    if first.is_ascii_digit() {
        return Ok(numeral(text));
    }
    if begins_word(*first) {
        let (word, after) = split_word(text);
        return Ok((word_token(word), after));
    }
    if *first == b'.' && begins_with_word(rest) {
        let (name, after) = split_word(rest);
        return Ok((Token::Selector(name), after));
    }
    if *first == b'"' || *first == b'\'' {
        return quoted_token(alloc, *first, rest);
    }
    Ok(sign_at(*first, rest))
}

/// The sign at the front: a byte, and what follows it.
fn sign_at<'a>(first: u8, rest: &'a [u8]) -> (Token<'a>, &'a [u8])
    ensures value { front_seen result ≡ sign_front first rest.entry.now }
    ensures bound { length result.1.now ≤ length rest.entry.now }
{
    match first {
        b'!' => sign_token(b'=', Token::Between(Operator::NotEqual), Token::Not, rest),
        b'<' => sign_token(
            b'=',
            Token::Between(Operator::LessEqual),
            Token::Between(Operator::Less),
            rest,
        ),
        b'>' => sign_token(
            b'=',
            Token::Between(Operator::GreaterEqual),
            Token::Between(Operator::Greater),
            rest,
        ),
        b'=' => sign_token(b'=', Token::Between(Operator::Equal), Token::Bad, rest),
        b'&' => sign_token(b'&', Token::Between(Operator::And), Token::Bad, rest),
        b'|' => sign_token(b'|', Token::Between(Operator::Or), Token::Bad, rest),
        _ => (mark_token(first), rest),
    }
}

fn is_last(token: &Token<'_>) -> bool
    ensures { result ≡ is_last (token_seen token.now) }
{
    matches!(token, Token::Bad | Token::End)
}

/// The tokens of a text, each with its offset; the last is the end, or the first place where no token begins.
pub fn tokens_of<'a>(alloc: Global, text: &'a [u8]) -> Result<List<Placed<'a>>, NoMemory>
    requires { length text.now < 2 ^ 32 - 1 }
    ensures value { IfOk result (λ tokens. tokens_seen tokens ≡ tokens_in text.entry.now) }
    ensures bound { IfOk result (λ tokens. length tokens ≤ length text.entry.now + 1) }
{
    let mut tokens = List::new(alloc);
    let mut rest = text;
    for turn in 0..text.len() + 1 {
        rest = skip_space(rest);
        let at = (text.len() - rest.len()) as u32;
        let (token, after) = token_at(alloc, rest)?;
        let last = is_last(&token);
        tokens.push(Placed { at, token })?;
        if last {
            return Ok(tokens);
        }
        rest = after;
    }
    Ok(tokens)
}
