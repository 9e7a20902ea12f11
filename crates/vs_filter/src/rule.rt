//! The rules of the grammar, by how tight their operators bind.
ghost use Rattle.std.specs.Prelude.{◌≡◌, option_map};
ghost use Rattle.vs_defs.specs.FilterText.{tighter, rule_of, rule_number, of_rule};
ghost use Rattle.vs_filter.specs.Seen.{operator_seen};
ghost use Rattle.vs_filter.specs.Rules.{rule_seen};

use crate::operator::Operator;

#[derive(Clone, Copy)]
pub enum Rule {
    Or,
    And,
    Not,
    Comparison,
    Sum,
    Term,
    Factor,
}

impl Rule {
    /// The rule that stands on both sides of this rule's operators.
    pub fn tighter(self) -> Rule
        ensures { rule_seen result ≡ tighter (rule_seen self) }
    {
        match self {
            Rule::Or => Rule::And,
            Rule::And => Rule::Not,
            Rule::Not => Rule::Comparison,
            Rule::Comparison => Rule::Sum,
            Rule::Sum => Rule::Term,
            Rule::Term | Rule::Factor => Rule::Factor,
        }
    }

    fn number(self) -> u8
        ensures { result ≡ rule_number (rule_seen self) }
    {
        match self {
            Rule::Or => 0,
            Rule::And => 1,
            Rule::Not => 2,
            Rule::Comparison => 3,
            Rule::Sum => 4,
            Rule::Term => 5,
            Rule::Factor => 6,
        }
    }

    /// The rule that an operator is of.
    fn of(op: Operator) -> Rule
        ensures { rule_seen result ≡ rule_of (operator_seen op) }
    {
        match op {
            Operator::Or => Rule::Or,
            Operator::And => Rule::And,
            Operator::Add | Operator::Subtract => Rule::Sum,
            Operator::Multiply | Operator::Divide | Operator::Remainder => Rule::Term,
            Operator::Equal
            | Operator::NotEqual
            | Operator::Less
            | Operator::LessEqual
            | Operator::Greater
            | Operator::GreaterEqual
            | Operator::In => Rule::Comparison,
        }
    }

    /// The operator, where it is of this rule.
    pub fn own(self, op: Operator) -> Option<Operator>
        ensures { option_map operator_seen result ≡ of_rule (rule_seen self) (operator_seen op) }
    {
        (Rule::of(op).number() == self.number()).then_some(op)
    }
}
