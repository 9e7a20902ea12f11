//! An expression as a list of instructions in reverse Polish order: its operands, then the operator on them.
//! A list is walked, copied and let go without recursion, however long the expression.
ghost use Rattle.std.specs.Prelude.{◌≡◌, ◌++◌, ◌∷◌, [], OnOk, IfOk, IfErr};
ghost use Rattle.vs_filter.specs.declared.error.FilterError.TheVariants as error;

use crate::error::FilterError;
use crate::operator::Operator;
use std::alloc::Global;
use vs_outside::{List, NoMemory, Text};

/// A value that no list is, as a filter's text gives it; a number is in billionths.
#[derive(Drop)]
pub enum Literal {
    Number(i128),
    Text(Text),
    Truth(bool),
    /// A numeral that isn't read as a number.
    NoKind,
}

#[derive(Drop)]
pub enum Instruction {
    Literal(Literal),
    /// The field of this name.
    Selector(Text),
    Items(List<Literal>),
    /// Of the value before it.
    Not,
    Negative,
    /// Of the two values before it.
    Binary(Operator),
}

pub fn push(code: &mut List<Instruction>, instruction: Instruction) -> Result<(), FilterError>
    ensures ok { OnOk result (code.new ≡ code.old ++ instruction ∷ []) }
    ensures err { IfErr result (λ e. e ≡ error.NoMemory) }
{
    code.push(instruction)?;
    Ok(())
}

impl Literal {
    fn try_clone(&self) -> Result<Literal, NoMemory>
        ensures { IfOk result (λ copy. copy ≡ self.now) }
    {
        Ok(match self {
            Literal::Number(number) => Literal::Number(*number),
            Literal::Text(text) => Literal::Text(text.try_clone()?),
            Literal::Truth(truth) => Literal::Truth(*truth),
            Literal::NoKind => Literal::NoKind,
        })
    }
}

fn items_copied(alloc: Global, items: &[Literal]) -> Result<List<Literal>, NoMemory>
    ensures { IfOk result (λ copy. copy ≡ items.now) }
{
    let mut copy = List::new(alloc);
    for item in items {
        copy.push(item.try_clone()?)?;
    }
    Ok(copy)
}

impl Instruction {
    fn try_clone(&self, alloc: Global) -> Result<Instruction, NoMemory>
        ensures { IfOk result (λ copy. copy ≡ self.now) }
    {
        Ok(match self {
            Instruction::Literal(literal) => Instruction::Literal(literal.try_clone()?),
            Instruction::Selector(name) => Instruction::Selector(name.try_clone()?),
            Instruction::Items(items) => Instruction::Items(items_copied(alloc, items.as_slice())?),
            Instruction::Not => Instruction::Not,
            Instruction::Negative => Instruction::Negative,
            Instruction::Binary(op) => Instruction::Binary(*op),
        })
    }
}

pub fn copied(alloc: Global, code: &[Instruction]) -> Result<List<Instruction>, NoMemory>
    ensures { IfOk result (λ copy. copy ≡ code.now) }
{
    let mut copy = List::new(alloc);
    for instruction in code {
        copy.push(instruction.try_clone(alloc)?)?;
    }
    Ok(copy)
}
