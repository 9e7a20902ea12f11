//! That the reader of filters in the definitions reads the grammar of filters.
#![tactic(auto)]

ghost use Rattle.vs_filter.specs.Grammar.{ReadsDerived};

/// Does nothing. Its contract is a law: the definitions read a filter's text
/// as an expression exactly where the grammar derives the text's tokens as
/// this expression.
pub fn filter_is_what_is_derived()
    ensures { ReadsDerived }
{}
