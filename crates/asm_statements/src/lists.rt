//! Lists of values: what `.word` puts into the text.

ghost use Rattle.std.specs.Prelude.{◌≡◌, IfOk, IfErr};
ghost use Rattle.asm_lines.specs.Faults.{RefusesLine};
ghost use Rattle.asm_values.specs.Directives.{each_of, values};
ghost use Rattle.asm_statements.specs.Lists.{text_word};

use crate::part::CodePart;
use asm_lines::{FaultKind, LineRefusal, Operand};
use asm_values::{Size, is_list, word};
use std::alloc::{AllocError, Global};

/// One word of the text.
#[tactic(auto, unfolding(crate::specs::Lists::text_word))]
fn text_word<'a>(operand: &Operand<'a>) -> Result<CodePart<'a>, FaultKind>
    ensures { result ≡ text_word operand.now }
{
    match operand {
        Operand::Number(number) => Ok(CodePart::Number(word(*number)?)),
        Operand::Name(name) => Ok(CodePart::Address(name.again())),
        _ => Err(FaultKind::Operand),
    }
}

/// Each word of a list, for the text.
fn each_text_word<'a>(
    alloc: Global,
    operands: &[Operand<'a>],
) -> Result<Vec<CodePart<'a>>, LineRefusal>
    ensures words { IfOk result (λ words. each_of text_word operands.now ≡
        Ok words.items) }
    ensures refusal { IfErr result (RefusesLine (each_of text_word operands.now)) }
{
    let mut words = Vec::new(alloc);
    for operand in operands {
        let word = text_word(operand).map_err(LineRefusal::Fault)?;
        words.push(word).map_err(AllocError::from)?;
    }
    Ok(words)
}

/// A list of words, for the text.
#[tactic(auto, unfolding(asm_values::specs::Directives::values))]
pub(crate) fn text_values<'a>(
    alloc: Global,
    operands: &[Operand<'a>],
) -> Result<Vec<CodePart<'a>>, LineRefusal>
    ensures words { IfOk result (λ words. values Size.Word text_word operands.now ≡
        Ok words.items) }
    ensures refusal { IfErr result (RefusesLine
        (values Size.Word text_word operands.now)) }
{
    if is_list(Size::Word, operands) {
        each_text_word(alloc, operands)
    } else {
        Err(LineRefusal::Fault(FaultKind::Operand))
    }
}
