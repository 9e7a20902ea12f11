//! Evaluates a list of instructions. The operand stack is the call stack: each operand that stands above another is evaluated
//! one call deeper, so the depth is that of the grammar's rules and open levels, and no memory is taken.
ghost use Rattle.std.specs.Prelude.{◌≡◌, [], option_map, option_and_then};
ghost use Rattle.vs_defs.specs.AttributeField.{field_of};
ghost use Rattle.vs_defs.specs.Filter.{with_kind as kind_in, is_pass};
ghost use Rattle.vs_filter.specs.Values.{value_seen};
ghost use Rattle.vs_filter.specs.Evaluated.{operand_of, exec, only_value, IsTurn};

use crate::chars::Chars;
use crate::code::Instruction;
use crate::items::{Items, field_value, literal_value};
use crate::operator::Operator;
use crate::value::{Value, negative_of, not_of, of_values, truth_in, with_kind};
use vs_attr::field;

/// Where the instructions above one operand end.
#[derive(Drop)]
pub enum Turn<'a> {
    /// With the last instruction, and one value on top of what stood below.
    Done(Value<'a>),
    /// With an operator that takes the value on top and one from below.
    Join {
        op: Operator,
        right: Value<'a>,
        rest: &'a [Instruction],
    },
}

fn selected<'a>(attribute: &'a [u8], name: &[u8]) -> Option<Value<'a>>
    ensures { option_map value_seen result ≡ option_and_then kind_in (field_of attribute.entry.now name.now) }
{
    with_kind(field_value(field(attribute, name)?))
}

/// The value that an instruction puts on top by itself.
fn operand<'a>(instruction: &'a Instruction, attribute: &'a [u8]) -> Option<Value<'a>>
    ensures { option_map value_seen result ≡ operand_of attribute.entry.now instruction.entry.now }
{
    match instruction {
        Instruction::Literal(literal) => with_kind(literal_value(literal)),
        Instruction::Selector(name) => selected(attribute, name.as_slice()),
        Instruction::Items(items) => Some(Value::List(Items::Plain(items.as_slice()))),
        Instruction::Not | Instruction::Negative | Instruction::Binary(_) => None,
    }
}

/// Goes on with a value on top, as long as no value from below is taken.
fn run<'a>(code: &'a [Instruction], attribute: &'a [u8], top: Value<'a>) -> Option<Turn<'a>>
    ensures { IsTurn attribute.entry.now code.entry.now (value_seen top.entry) result }
{
    let mut code = code;
    let mut top = top;
    while let Some((instruction, rest)) = code.split_first() {
        code = rest;
        match instruction {
            Instruction::Not => top = not_of(&top)?,
            Instruction::Negative => top = negative_of(&top)?,
            Instruction::Binary(op) => {
                let (op, right) = (*op, top);
                return Some(Turn::Join { op, right, rest });
            }
            Instruction::Literal(_) | Instruction::Selector(_) | Instruction::Items(_) => {
                let above = operand(instruction, attribute)?;
                let Turn::Join { op, right, rest } = run(code, attribute, above)? else {
                    return None;
                };
                top = of_values(op, top, right)?;
                code = rest;
            }
        }
    }
    Some(Turn::Done(top))
}

/// The value of the expression that the instructions build, at an attribute's text.
fn value_of<'a>(code: &'a [Instruction], attribute: &'a [u8]) -> Option<Value<'a>>
    ensures { option_map value_seen result ≡ only_value (exec attribute.entry.now code.entry.now []) }
{
    let (first, rest) = code.split_first()?;
    let value = operand(first, attribute)?;
    match run(rest, attribute, value)? {
        Turn::Done(value) => Some(value),
        Turn::Join { .. } => None,
    }
}

/// Whether the value is true, or a number other than 0.
pub fn is_met(code: &[Instruction], attribute: &[u8]) -> bool
    ensures { result ≡ is_pass (only_value (exec attribute.now code.now [])) }
{
    match value_of(code, attribute) {
        Some(value) => truth_in(&value) == Some(true),
        None => false,
    }
}
