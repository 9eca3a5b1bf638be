//! What a statement does in the section that it is in, or its first fault.

ghost use Rattle.std.specs.Prelude.{◌≡◌, IfOk, IfErr};
ghost use Rattle.asm_lines.specs.Faults.{RefusesLine};
ghost use Rattle.asm_statements.specs.Effects.{effect_value};
ghost use Rattle.asm_statements.specs.Statements as spec;

use crate::code::read_code;
use crate::constant::read_constant;
use crate::lists::text_values;
use crate::part::Effect;
use crate::section::Section;
use crate::statement::{Statement, read_name};
use asm_lines::{FaultKind, LineRefusal, Operand};
use asm_values::{Size, ascii, data_values, space};
use std::alloc::{AllocError, Global};

/// What a statement does in a section, by its name and its operands.
///
/// The faults in their order: [`FaultKind::UnknownName`], [`FaultKind::Operand`] (for a statement of the other section
/// too), [`FaultKind::Range`].
#[tactic(auto, unfolding(crate::specs::Statements::statement_effect, crate::specs::Statements::meaning))]
pub fn read_statement<'a>(
    alloc: Global,
    section: Section,
    name: &[u8],
    operands: &[Operand<'a>],
) -> Result<Effect<'a>, LineRefusal>
    ensures effect { IfOk result (λ effect.
        spec.statement_effect section name.now operands.now ≡ Ok (effect_value effect)) }
    ensures refusal { IfErr result (RefusesLine
        (spec.statement_effect section name.now operands.now)) }
{
    let statement = read_name(name).ok_or(LineRefusal::Fault(FaultKind::UnknownName))?;
    match section {
        Section::Text => in_text(alloc, statement, operands),
        Section::Data => in_data(alloc, statement, operands),
    }
}

/// What a statement of the text does.
#[tactic(auto, unfolding(crate::specs::Statements::in_text))]
fn in_text<'a>(
    alloc: Global,
    statement: Statement,
    operands: &[Operand<'a>],
) -> Result<Effect<'a>, LineRefusal>
    ensures effect { IfOk result (λ effect. spec.in_text statement operands.now ≡
        Ok (effect_value effect)) }
    ensures refusal { IfErr result (RefusesLine (spec.in_text statement operands.now)) }
{
    match statement {
        Statement::Enter(into) => enter(into, operands),
        Statement::Values(Size::Word) => text_values(alloc, operands).map(Effect::Text),
        Statement::LoadImmediate => read_constant(alloc, operands).map(Effect::Text),
        Statement::Code(mnemonic) => {
            let code = read_code(mnemonic, operands).map_err(LineRefusal::Fault)?;
            Ok(Effect::Text(vec![in alloc; code].map_err(AllocError::from)?))
        }
        _ => Err(LineRefusal::Fault(FaultKind::Operand)),
    }
}

/// What a statement of the data does.
#[tactic(auto, unfolding(crate::specs::Statements::in_data))]
fn in_data<'a>(
    alloc: Global,
    statement: Statement,
    operands: &[Operand<'a>],
) -> Result<Effect<'a>, LineRefusal>
    ensures effect { IfOk result (λ effect. spec.in_data statement operands.now ≡
        Ok (effect_value effect)) }
    ensures refusal { IfErr result (RefusesLine (spec.in_data statement operands.now)) }
{
    match statement {
        Statement::Enter(into) => enter(into, operands),
        Statement::Values(size) => data_values(alloc, size, operands).map(Effect::Data),
        Statement::Ascii => ascii(alloc, operands).map(Effect::Data),
        Statement::Space => {
            let zeros = space(operands).map_err(LineRefusal::Fault)?;
            Ok(Effect::Data(vec![in alloc; zeros].map_err(AllocError::from)?))
        }
        _ => Err(LineRefusal::Fault(FaultKind::Operand)),
    }
}

/// `.text` and `.data`.
#[tactic(auto, unfolding(crate::specs::Statements::enter))]
fn enter<'a>(into: Section, operands: &[Operand]) -> Result<Effect<'a>, LineRefusal>
    ensures effect { IfOk result (λ effect. spec.enter into operands.now ≡
        Ok (effect_value effect)) }
    ensures refusal { IfErr result (RefusesLine (spec.enter into operands.now)) }
{
    if operands.is_empty() {
        Ok(Effect::Enter(into))
    } else {
        Err(LineRefusal::Fault(FaultKind::Operand))
    }
}
