//! Reads an expression by recursive descent, and puts its instructions behind those that stand.
//! Each function takes how many turns the reading has left, which bounds how far it goes: a text's own number of tokens,
//! times eight, is more than it uses.
ghost use Rattle.std.specs.Prelude.{◌≡◌, ℕ, suc, List as Items, OnOk, IfOk, IfErr, Ok, Some, ◌∷◌};
ghost use Rattle.vs_defs.specs.Filter as filter;
ghost use Rattle.vs_defs.specs.FilterText.{Parse, expr_within as expr_in, more_within, then_parse, tighter as tighter_in, deeper as deeper_in, closing, not_rule, comparison_rule, factor_rule, or_rule, rest_of as rest_in, next as next_in, is_close as is_close_in, offset};
ghost use Rattle.vs_filter.specs.Seen.{tokens_seen};
ghost use Rattle.vs_filter.specs.Rules.{rule_seen};
ghost use Rattle.vs_filter.specs.Code.{step};
ghost use Rattle.vs_filter.specs.Parsed.{IsParse};
ghost use Rattle.vs_filter.specs.declared.error.FilterError.TheVariants.{TooDeep};

use crate::code::{Instruction, Literal, push};
use crate::error::FilterError;
use crate::front::{is_close, is_not, next, operator_at, rest_of, syntax_at, too_deep_at};
use crate::literal::{list, numeral};
use crate::rule::Rule;
use crate::token::{Placed, Token};
use std::alloc::Global;
use vs_outside::{List, Text};

/// One level less, where one is left.
fn deeper(depth: u32, tokens: &[Placed<'_>]) -> Result<u32, FilterError>
    ensures ok { IfOk result (λ inner. depth ≡ suc inner) }
    ensures err { IfErr result (λ e. (depth ≡ 0) × (e ≡ TooDeep (offset (tokens_seen tokens.now)))) }
{
    if depth == 0 {
        return Err(too_deep_at(tokens));
    }
    Ok(depth - 1)
}

/// The next token alone.
fn leaf<'t, 'a>(
    instruction: Instruction,
    tokens: &'t [Placed<'a>],
    code: &mut List<Instruction>,
) -> Result<&'t [Placed<'a>], FilterError>
    ensures { (parse : Parse filter.Expr) (e : filter.Expr) → ((es : Items filter.Expr) → step instruction es ≡ Some (e ∷ es))
        → parse ≡ Ok (e, rest_in (tokens_seen tokens.entry.now)) → IsParse parse code.old code.new result }
{
    push(code, instruction)?;
    Ok(rest_of(tokens))
}

#[cycle(expressions)]
/// An expression of a rule, in which `depth` more levels may open.
pub fn expr_within<'t, 'a>(
    alloc: Global,
    left: u32,
    rule: Rule,
    depth: u32,
    tokens: &'t [Placed<'a>],
    code: &mut List<Instruction>,
) -> Result<&'t [Placed<'a>], FilterError>
    ensures { IsParse (expr_in left (rule_seen rule) depth (tokens_seen tokens.entry.now)) code.old code.new result }
{
    if left == 0 {
        return Err(syntax_at(tokens));
    }
    match rule {
        Rule::Not => negation(alloc, left - 1, depth, tokens, code),
        Rule::Comparison => comparison(alloc, left - 1, depth, tokens, code),
        Rule::Factor => factor(alloc, left - 1, depth, tokens, code),
        Rule::Or | Rule::And | Rule::Sum | Rule::Term => chain(
            alloc,
            left - 1,
            rule,
            depth,
            tokens,
            code,
        ),
    }
}

#[cycle(expressions)]
fn negation<'t, 'a>(
    alloc: Global,
    left: u32,
    depth: u32,
    tokens: &'t [Placed<'a>],
    code: &mut List<Instruction>,
) -> Result<&'t [Placed<'a>], FilterError>
    ensures { IsParse (expr_in (suc left) not_rule depth (tokens_seen tokens.entry.now)) code.old code.new result }
{
    if !is_not(tokens) {
        return expr_within(alloc, left, Rule::Comparison, depth, tokens, code);
    }
    let inner = deeper(depth, tokens)?;
    let rest = expr_within(alloc, left, Rule::Not, inner, rest_of(tokens), code)?;
    push(code, Instruction::Not)?;
    Ok(rest)
}

#[cycle(expressions)]
fn comparison<'t, 'a>(
    alloc: Global,
    left: u32,
    depth: u32,
    tokens: &'t [Placed<'a>],
    code: &mut List<Instruction>,
) -> Result<&'t [Placed<'a>], FilterError>
    ensures { IsParse (expr_in (suc left) comparison_rule depth (tokens_seen tokens.entry.now)) code.old code.new result }
{
    let more = expr_within(alloc, left, Rule::Sum, depth, tokens, code)?;
    let Some(op) = operator_at(Rule::Comparison, more) else {
        return Ok(more);
    };
    let rest = expr_within(alloc, left, Rule::Sum, depth, rest_of(more), code)?;
    push(code, Instruction::Binary(op))?;
    Ok(rest)
}

#[cycle(expressions)]
/// Expressions of the tighter rule, joined from the left by operators of the rule.
fn chain<'t, 'a>(
    alloc: Global,
    left: u32,
    rule: Rule,
    depth: u32,
    tokens: &'t [Placed<'a>],
    code: &mut List<Instruction>,
) -> Result<&'t [Placed<'a>], FilterError>
    ensures { IsParse (then_parse (expr_in left (tighter_in (rule_seen rule)) depth (tokens_seen tokens.entry.now)) (λ a more. more_within left (rule_seen rule) depth a more)) code.old code.new result }
{
    let mut rest = expr_within(alloc, left, rule.tighter(), depth, tokens, code)?;
    let mut left = left;
    while left > 0 {
        left -= 1;
        let Some(op) = operator_at(rule, rest) else {
            return Ok(rest);
        };
        rest = expr_within(alloc, left, rule.tighter(), depth, rest_of(rest), code)?;
        push(code, Instruction::Binary(op))?;
    }
    Err(syntax_at(rest))
}

#[cycle(expressions)]
fn factor<'t, 'a>(
    alloc: Global,
    left: u32,
    depth: u32,
    tokens: &'t [Placed<'a>],
    code: &mut List<Instruction>,
) -> Result<&'t [Placed<'a>], FilterError>
    ensures { IsParse (expr_in (suc left) factor_rule depth (tokens_seen tokens.entry.now)) code.old code.new result }
{
    match next(tokens) {
        Some(Token::Numeral(text)) => leaf(Instruction::Literal(numeral(text)), tokens, code),
        Some(Token::Quoted(text)) => leaf(
            Instruction::Literal(Literal::Text(text.try_clone()?)),
            tokens,
            code,
        ),
        Some(Token::Truth(truth)) => leaf(
            Instruction::Literal(Literal::Truth(*truth)),
            tokens,
            code,
        ),
        Some(Token::Selector(name)) => leaf(
            Instruction::Selector(Text::from_vec(name.to_vec(alloc)?)),
            tokens,
            code,
        ),
        Some(Token::OpenList) => {
            let (items, rest) = list(alloc, left, rest_of(tokens))?;
            push(code, Instruction::Items(items))?;
            Ok(rest)
        }
        Some(Token::Open) => group(alloc, left, depth, tokens, code),
        Some(Token::Minus) => negative(alloc, left, depth, tokens, code),
        _ => Err(syntax_at(tokens)),
    }
}

#[cycle(expressions)]
/// An expression between parentheses, of which the first comes next.
fn group<'t, 'a>(
    alloc: Global,
    left: u32,
    depth: u32,
    tokens: &'t [Placed<'a>],
    code: &mut List<Instruction>,
) -> Result<&'t [Placed<'a>], FilterError>
    ensures { IsParse (deeper_in depth (tokens_seen tokens.entry.now) (λ inner. then_parse (expr_in left or_rule inner (rest_in (tokens_seen tokens.entry.now))) (λ a after. closing (is_close_in (next_in after)) a after))) code.old code.new result }
{
    let inner = deeper(depth, tokens)?;
    let after = expr_within(alloc, left, Rule::Or, inner, rest_of(tokens), code)?;
    if !is_close(after) {
        return Err(syntax_at(after));
    }
    Ok(rest_of(after))
}

#[cycle(expressions)]
/// A factor behind a minus sign, which comes next.
fn negative<'t, 'a>(
    alloc: Global,
    left: u32,
    depth: u32,
    tokens: &'t [Placed<'a>],
    code: &mut List<Instruction>,
) -> Result<&'t [Placed<'a>], FilterError>
    ensures { IsParse (deeper_in depth (tokens_seen tokens.entry.now) (λ inner. then_parse (expr_in left factor_rule inner (rest_in (tokens_seen tokens.entry.now))) (λ a after. Ok (filter.Negative a, after)))) code.old code.new result }
{
    let inner = deeper(depth, tokens)?;
    let rest = expr_within(alloc, left, Rule::Factor, inner, rest_of(tokens), code)?;
    push(code, Instruction::Negative)?;
    Ok(rest)
}
