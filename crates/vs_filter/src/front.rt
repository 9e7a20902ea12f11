//! The token that comes next, and what follows it.
ghost use Rattle.std.specs.Prelude.{◌≡◌, length, option_map};
ghost use Rattle.vs_defs.specs.FilterText.{next as next_in, offset, rest_of as rest_in, operator_of, operator_at, is_comma, is_close_list, is_close};
ghost use Rattle.vs_filter.specs.Seen.{tokens_seen, operator_seen, token_seen, next_seen, is_not, is_end};
ghost use Rattle.vs_filter.specs.Rules.{rule_seen};
ghost use Rattle.vs_filter.specs.declared.error.FilterError.TheVariants.{Syntax, TooDeep};

use crate::error::FilterError;
use crate::operator::Operator;
use crate::rule::Rule;
use crate::token::{Placed, Token};

/// None where no token is left, which counts as the end.
pub fn next<'t, 'a>(tokens: &'t [Placed<'a>]) -> Option<&'t Token<'a>>
    ensures { next_seen result ≡ next_in (tokens_seen tokens.entry.now) }
{
    let first = tokens.first()?;
    Some(&first.token)
}

pub fn rest_of<'t, 'a>(tokens: &'t [Placed<'a>]) -> &'t [Placed<'a>]
    ensures { tokens_seen result.now ≡ rest_in (tokens_seen tokens.entry.now) }
{
    let Some((_, rest)) = tokens.split_first() else {
        return tokens;
    };
    rest
}

fn offset(tokens: &[Placed<'_>]) -> u32
    ensures { result ≡ offset (tokens_seen tokens.now) }
{
    match tokens.first() {
        Some(first) => first.at,
        None => 0,
    }
}

/// The next token can't stand there.
pub fn syntax_at(tokens: &[Placed<'_>]) -> FilterError
    ensures { result ≡ Syntax (offset (tokens_seen tokens.now)) }
{
    FilterError::Syntax { at: offset(tokens) }
}

/// The next token would open a level, and none is left.
pub fn too_deep_at(tokens: &[Placed<'_>]) -> FilterError
    ensures { result ≡ TooDeep (offset (tokens_seen tokens.now)) }
{
    FilterError::TooDeep { at: offset(tokens) }
}

fn operator_of(token: &Token<'_>) -> Option<Operator>
    ensures { option_map operator_seen result ≡ operator_of (token_seen token.now) }
{
    match token {
        Token::Between(op) => Some(*op),
        Token::Minus => Some(Operator::Subtract),
        _ => None,
    }
}

/// The next token as an operator of the rule.
pub fn operator_at(rule: Rule, tokens: &[Placed<'_>]) -> Option<Operator>
    ensures { option_map operator_seen result ≡ operator_at (rule_seen rule) (tokens_seen tokens.now) }
{
    let op = operator_of(next(tokens)?)?;
    rule.own(op)
}

pub fn is_comma(tokens: &[Placed<'_>]) -> bool
    ensures { result ≡ is_comma (next_in (tokens_seen tokens.now)) }
{
    matches!(next(tokens), Some(Token::Comma))
}

pub fn is_close_list(tokens: &[Placed<'_>]) -> bool
    ensures { result ≡ is_close_list (next_in (tokens_seen tokens.now)) }
{
    matches!(next(tokens), Some(Token::CloseList))
}

pub fn is_close(tokens: &[Placed<'_>]) -> bool
    ensures { result ≡ is_close (next_in (tokens_seen tokens.now)) }
{
    matches!(next(tokens), Some(Token::Close))
}

pub fn is_not(tokens: &[Placed<'_>]) -> bool
    ensures { result ≡ is_not (next_in (tokens_seen tokens.now)) }
{
    matches!(next(tokens), Some(Token::Not))
}

pub fn is_end(tokens: &[Placed<'_>]) -> bool
    ensures { result ≡ is_end (next_in (tokens_seen tokens.now)) }
{
    matches!(next(tokens), None | Some(Token::End))
}
