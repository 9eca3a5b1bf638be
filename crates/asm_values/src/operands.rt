//! Operands that are numbers or texts.
#![tactic(auto, unfolding(crate::specs::Operands::number_operand, crate::specs::Operands::text))]

ghost use Rattle.std.specs.Prelude.{◌≡◌};
ghost use Rattle.asm_values.specs.Operands as shape;

use asm_lines::{Operand, Span};

/// The number that an operand is.
pub fn number(operand: &Operand) -> Option<i64>
    ensures { result ≡ shape.number_operand operand.now }
{
    match operand {
        Operand::Number(number) => Some(*number),
        _ => None,
    }
}

fn text<'a>(operand: &Operand<'a>) -> Option<Span<'a>>
    ensures { result ≡ shape.text operand.now }
{
    match operand {
        Operand::Text(text) => Some(text.again()),
        _ => None,
    }
}

/// `n`.
#[tactic(auto, unfolding(crate::specs::Operands::one_number))]
pub(crate) fn one_number(operands: &[Operand]) -> Option<i64>
    ensures { result ≡ shape.one_number operands.now }
{
    let [n] = operands else { return None };
    number(n)
}

/// `"text"`, with its escapes.
#[tactic(auto, unfolding(crate::specs::Operands::one_text))]
pub(crate) fn one_text<'a>(operands: &[Operand<'a>]) -> Option<Span<'a>>
    ensures { result ≡ shape.one_text operands.now }
{
    let [characters] = operands else { return None };
    text(characters)
}
