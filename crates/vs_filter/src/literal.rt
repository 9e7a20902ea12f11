//! Reads the literals of a list, and numerals.
ghost use Rattle.std.specs.Prelude.{◌≡◌, length, IfOk, IfErr};
ghost use Rattle.vs_defs.specs.FilterText.{numeral as numeral_in, negative_numeral as negative_numeral_in, literal_at as literal_in, literals_within, list_at, after_minus as minus_in, next as next_in};
ghost use Rattle.vs_filter.specs.Seen.{tokens_seen};
ghost use Rattle.vs_filter.specs.Code.{single_seen};
ghost use Rattle.vs_filter.specs.Parsed.{IsLiteral, IsItems, IsList};

use crate::code::Literal;
use crate::error::FilterError;
use crate::front::{is_close_list, is_comma, next, rest_of, syntax_at};
use crate::token::{Placed, Token};
use std::alloc::Global;
use vs_decimal::read_fixed;
use vs_outside::List;

pub fn numeral(text: &[u8]) -> Literal
    ensures { single_seen result ≡ numeral_in text.now }
{
    match read_fixed(text) {
        Some(number) => Literal::Number(number),
        None => Literal::NoKind,
    }
}

fn negative_numeral(text: &[u8]) -> Literal
    ensures { single_seen result ≡ negative_numeral_in text.now }
{
    match read_fixed(text) {
        Some(number) => Literal::Number(-number),
        None => Literal::NoKind,
    }
}

fn after_minus<'t, 'a>(tokens: &'t [Placed<'a>]) -> Result<(Literal, &'t [Placed<'a>]), FilterError>
    ensures { IsLiteral (minus_in (next_in (tokens_seen tokens.entry.now)) (tokens_seen tokens.entry.now)) result }
{
    match next(tokens) {
        Some(Token::Numeral(text)) => Ok((negative_numeral(text), rest_of(tokens))),
        _ => Err(syntax_at(tokens)),
    }
}

fn literal_at<'t, 'a>(tokens: &'t [Placed<'a>]) -> Result<(Literal, &'t [Placed<'a>]), FilterError>
    ensures { IsLiteral (literal_in (tokens_seen tokens.entry.now)) result }
{
    match next(tokens) {
        Some(Token::Numeral(text)) => Ok((numeral(text), rest_of(tokens))),
        Some(Token::Quoted(text)) => Ok((Literal::Text(text.try_clone()?), rest_of(tokens))),
        Some(Token::Truth(truth)) => Ok((Literal::Truth(*truth), rest_of(tokens))),
        Some(Token::Minus) => after_minus(rest_of(tokens)),
        _ => Err(syntax_at(tokens)),
    }
}

/// The literals up to the end of a list that has one at least; no more than `left`.
fn literals<'t, 'a>(
    alloc: Global,
    left: u32,
    tokens: &'t [Placed<'a>],
) -> Result<(List<Literal>, &'t [Placed<'a>]), FilterError>
    ensures { IsItems (literals_within left (tokens_seen tokens.entry.now)) result }
{
    let mut items = List::new(alloc);
    let mut rest = tokens;
    let mut left = left;
    while left > 0 {
        left -= 1;
        let (item, more) = literal_at(rest)?;
        items.push(item)?;
        if is_close_list(more) {
            return Ok((items, rest_of(more)));
        }
        if !is_comma(more) {
            return Err(syntax_at(more));
        }
        rest = rest_of(more);
    }
    Err(syntax_at(rest))
}

/// What stands behind the opening mark of a list.
pub fn list<'t, 'a>(
    alloc: Global,
    left: u32,
    tokens: &'t [Placed<'a>],
) -> Result<(List<Literal>, &'t [Placed<'a>]), FilterError>
    ensures { IsList (list_at left (tokens_seen tokens.entry.now)) result }
{
    if is_close_list(tokens) {
        return Ok((List::new(alloc), rest_of(tokens)));
    }
    literals(alloc, left, tokens)
}
