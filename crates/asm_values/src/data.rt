//! Lists of values: what `.word`, `.half` and `.byte` put into the data.

ghost use Rattle.std.specs.Prelude.{◌≡◌, IfOk, IfErr};
ghost use Rattle.std.specs.List.{list_all};
ghost use Rattle.asm_lines.specs.Faults.{RefusesLine};
ghost use Rattle.asm_values.specs.Directives as form;

use crate::datum::Datum;
use crate::ranges::{byte, half, word};
use asm_lines::{FaultKind, LineRefusal, Operand};
use std::alloc::{AllocError, Global};

/// How large the values of a list are.
#[derive(Clone, Copy, Debug, PartialEq, Eq)]
pub enum Size {
    /// Four bytes: numbers or labels.
    Word,
    /// Two bytes.
    Half,
    /// One byte.
    Byte,
}

/// Whether an operand may be in a list of values.
#[tactic(auto, unfolding(crate::specs::Directives::is_value))]
fn is_value(size: Size, operand: &Operand) -> bool
    ensures { result ≡ form.is_value size operand.now }
{
    match operand {
        Operand::Number(_) => true,
        Operand::Name(_) => size == Size::Word,
        _ => false,
    }
}

/// One value of the data.
#[tactic(auto, unfolding(crate::specs::Directives::data_value))]
fn data_value<'a>(size: Size, operand: &Operand<'a>) -> Result<Datum<'a>, FaultKind>
    ensures { result ≡ form.data_value size operand.now }
{
    match (size, operand) {
        (Size::Word, Operand::Number(number)) => Ok(Datum::Word(word(*number)?)),
        (Size::Word, Operand::Name(name)) => Ok(Datum::Pointer(name.again())),
        (Size::Half, Operand::Number(number)) => Ok(Datum::Half(half(*number)?)),
        (Size::Byte, Operand::Number(number)) => Ok(Datum::Byte(byte(*number)?)),
        _ => Err(FaultKind::Operand),
    }
}

/// Whether each operand may be in a list of values.
fn are_values(size: Size, operands: &[Operand]) -> bool
    ensures { result ≡ list_all (form.is_value size) operands.now }
{
    operands.iter().all(|operand| is_value(size, operand))
}

/// Whether operands are a list of values.
#[tactic(auto, unfolding(crate::specs::Directives::is_list))]
pub fn is_list(size: Size, operands: &[Operand]) -> bool
    ensures { result ≡ form.is_list size operands.now }
{
    !operands.is_empty() && are_values(size, operands)
}

/// Each value of a list, for the data.
fn each_data_value<'a>(
    alloc: Global,
    size: Size,
    operands: &[Operand<'a>],
) -> Result<Vec<Datum<'a>>, LineRefusal>
    ensures values { IfOk result (λ values. form.each_of (form.data_value size) operands.now ≡
        Ok values.items) }
    ensures refusal { IfErr result (RefusesLine
        (form.each_of (form.data_value size) operands.now)) }
{
    let mut values = Vec::new(alloc);
    for operand in operands {
        let value = data_value(size, operand).map_err(LineRefusal::Fault)?;
        values.push(value).map_err(AllocError::from)?;
    }
    Ok(values)
}

/// A list of values, for the data.
#[tactic(auto, unfolding(crate::specs::Directives::values))]
pub fn data_values<'a>(
    alloc: Global,
    size: Size,
    operands: &[Operand<'a>],
) -> Result<Vec<Datum<'a>>, LineRefusal>
    ensures values { IfOk result (λ values. form.values size (form.data_value size) operands.now ≡
        Ok values.items) }
    ensures refusal { IfErr result (RefusesLine (form.values size
        (form.data_value size) operands.now)) }
{
    if is_list(size, operands) {
        each_data_value(alloc, size, operands)
    } else {
        Err(LineRefusal::Fault(FaultKind::Operand))
    }
}
