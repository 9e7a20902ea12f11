//! A filter: its text, and the expression that the text spells.
ghost use Rattle.std.specs.Prelude.{◌≡◌, ◌≤◌, ℕ, List as Items, length, true, Some, IfOk, IfErr, option_copied};
ghost use Rattle.vs_defs.specs.FilterText.{filter_of, is_filter, passes_filter};
ghost use Rattle.vs_defs.specs.Limits.{max_filter_bytes};
ghost use Rattle.vs_filter.specs.Rules.{IsFault};

use crate::code::{self, Instruction};
use crate::error::FilterError;
use crate::evaluate::is_met;
use crate::front::{is_end, syntax_at};
use crate::parse::expr_within;
use crate::rule::Rule;
use crate::scan::tokens_of;
use std::alloc::Global;
use std::marker::Model;
use vs_attr::is_object;
use vs_outside::{List, NoMemory, Text};

/// How many parentheses, negations and minus signs may be open at once.
const MAX_FILTER_DEPTH: u32 = 64;

/// A filter, which a contract sees as its text.
#[derive(Drop)]
pub struct Filter {
    text: Text,
    code: List<Instruction>,
}

impl Model for Filter {
    ghost use Rattle.std.specs.Prelude.{◌≡◌, List as Items, ℕ, Ok, Some, option_map};
    ghost use Rattle.vs_defs.specs.FilterText.{filter_of};
    ghost use Rattle.vs_filter.specs.Code.{tree_of};

    ghost Value = { Items ℕ };

    ghost view = { λ f. f.text };

    ghost invariant = { λ f. Some (filter_of f.text) ≡ option_map (λ e. Ok e) (tree_of f.code) };
}

impl Filter {
    /// Reads a text of at most 4,096 bytes.
    pub fn parse(alloc: Global, text: &[u8]) -> Result<Filter, FilterError>
        requires { length text.now ≤ max_filter_bytes }
        ensures ok { IfOk result (λ f. (f ≡ text.now) × (is_filter text.now ≡ true)) }
        ensures err { IfErr result (λ e. IsFault (filter_of text.now) e) }
    {
        let tokens = tokens_of(alloc, text)?;
        let turns = 8 * tokens.len() as u32 + 8;
        let mut code = List::new(alloc);
        let rest = expr_within(
            alloc,
            turns,
            Rule::Or,
            MAX_FILTER_DEPTH,
            tokens.as_slice(),
            &mut code,
        )?;
        if !is_end(rest) {
            return Err(syntax_at(rest));
        }
        let text = Text::from_vec(text.to_vec(alloc)?);
        Ok(Filter { text, code })
    }

    pub fn try_clone(&self, alloc: Global) -> Result<Filter, NoMemory>
        ensures { IfOk result (λ copy. copy ≡ self.now) }
    {
        let text = self.text.try_clone()?;
        let code = code::copied(alloc, self.code.as_slice())?;
        Ok(Filter { text, code })
    }

    #[tactic(auto, using(crate::proofs::Meaning::passes_by))]
    /// Whether an attribute passes; an absent one, and one that is no JSON object, does not. It takes no memory.
    pub fn passes(&self, attr: Option<&[u8]>) -> bool
        ensures { result ≡ passes_filter (Some self.now) (option_copied attr.entry) }
    {
        let Some(text) = attr else {
            return false;
        };
        is_object(text) && is_met(self.code.as_slice(), text)
    }
}
