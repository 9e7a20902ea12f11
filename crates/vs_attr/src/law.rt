//! That the reader of JSON in the definitions reads the grammar of RFC 8259.
#![tactic(auto)]

ghost use Rattle.vs_attr.specs.Grammar.{ReadsDerived};

/// Does nothing. Its contract is a law: a text is read as a value by the
/// definitions exactly where the grammar of RFC 8259 derives it, as this
/// value.
pub fn json_is_what_is_derived()
    ensures { ReadsDerived }
{}
