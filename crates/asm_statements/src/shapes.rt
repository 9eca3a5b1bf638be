//! The operands of statements, by their shapes.
#![tactic(auto, unfolding(crate::specs::Shapes::register_operand, asm_values::specs::Operands::number_operand, crate::specs::Shapes::label, crate::specs::Shapes::indexed, crate::specs::Shapes::indirect))]

ghost use Rattle.std.specs.Prelude.{◌≡◌};
ghost use Rattle.asm_statements.specs.Shapes as shape;

use crate::registers::read_register;
use asm_lines::{Operand, Span};
use asm_values::number;
use rv_isa::Reg;

fn register(operand: &Operand) -> Option<Reg>
    ensures { result ≡ shape.register_operand operand.now }
{
    match operand {
        Operand::Name(name) => read_register(name.bytes()),
        _ => None,
    }
}

fn label<'a>(operand: &Operand<'a>) -> Option<Span<'a>>
    ensures { result ≡ shape.label operand.now }
{
    match operand {
        Operand::Name(name) => Some(name.again()),
        _ => None,
    }
}

/// `n(rs1)`.
fn indexed(operand: &Operand) -> Option<(i64, Reg)>
    ensures { result ≡ shape.indexed operand.now }
{
    match operand {
        Operand::Indexed { offset, base } => {
            let rs1 = read_register(base.bytes())?;
            Some((*offset, rs1))
        }
        _ => None,
    }
}

/// `(rs1)`.
fn indirect(operand: &Operand) -> Option<Reg>
    ensures { result ≡ shape.indirect operand.now }
{
    match operand {
        Operand::Indirect { base } => read_register(base.bytes()),
        _ => None,
    }
}

/// `rd, rs1, rs2`.
#[tactic(auto, unfolding(crate::specs::Shapes::three_registers))]
pub(crate) fn three_registers(operands: &[Operand]) -> Option<(Reg, Reg, Reg)>
    ensures { result ≡ shape.three_registers operands.now }
{
    let [rd, rs1, rs2] = operands else {
        return None
    };
    Some((register(rd)?, register(rs1)?, register(rs2)?))
}

/// `rs1`.
#[tactic(auto, unfolding(crate::specs::Shapes::one_register))]
pub(crate) fn one_register(operands: &[Operand]) -> Option<Reg>
    ensures { result ≡ shape.one_register operands.now }
{
    let [rs1] = operands else { return None };
    register(rs1)
}

/// `rd, rs1`.
#[tactic(auto, unfolding(crate::specs::Shapes::two_registers))]
pub(crate) fn two_registers(operands: &[Operand]) -> Option<(Reg, Reg)>
    ensures { result ≡ shape.two_registers operands.now }
{
    let [rd, rs1] = operands else { return None };
    Some((register(rd)?, register(rs1)?))
}

/// `rd, rs1, n`.
#[tactic(auto, unfolding(crate::specs::Shapes::two_registers_number))]
pub(crate) fn two_registers_number(operands: &[Operand]) -> Option<(Reg, Reg, i64)>
    ensures { result ≡ shape.two_registers_number operands.now }
{
    let [rd, rs1, n] = operands else { return None };
    Some((register(rd)?, register(rs1)?, number(n)?))
}

/// `rd, n`.
#[tactic(auto, unfolding(crate::specs::Shapes::register_number))]
pub(crate) fn register_number(operands: &[Operand]) -> Option<(Reg, i64)>
    ensures { result ≡ shape.register_number operands.now }
{
    let [rd, n] = operands else { return None };
    Some((register(rd)?, number(n)?))
}

/// `n, rd, rs1`.
#[tactic(auto, unfolding(crate::specs::Shapes::number_two_registers))]
pub(crate) fn number_two_registers(operands: &[Operand]) -> Option<(i64, Reg, Reg)>
    ensures { result ≡ shape.number_two_registers operands.now }
{
    let [n, rd, rs1] = operands else { return None };
    Some((number(n)?, register(rd)?, register(rs1)?))
}

/// `rd, n(rs1)`.
#[tactic(auto, unfolding(crate::specs::Shapes::register_indexed))]
pub(crate) fn register_indexed(operands: &[Operand]) -> Option<(Reg, (i64, Reg))>
    ensures { result ≡ shape.register_indexed operands.now }
{
    let [rd, place] = operands else { return None };
    Some((register(rd)?, indexed(place)?))
}

/// `rd, (rs1)`.
#[tactic(auto, unfolding(crate::specs::Shapes::register_indirect))]
pub(crate) fn register_indirect(operands: &[Operand]) -> Option<(Reg, Reg)>
    ensures { result ≡ shape.register_indirect operands.now }
{
    let [rd, place] = operands else { return None };
    Some((register(rd)?, indirect(place)?))
}

/// `rd, rs2, (rs1)`.
#[tactic(auto, unfolding(crate::specs::Shapes::two_registers_indirect))]
pub(crate) fn two_registers_indirect(operands: &[Operand]) -> Option<(Reg, Reg, Reg)>
    ensures { result ≡ shape.two_registers_indirect operands.now }
{
    let [rd, rs2, place] = operands else {
        return None
    };
    Some((register(rd)?, register(rs2)?, indirect(place)?))
}

/// `label`.
#[tactic(auto, unfolding(crate::specs::Shapes::one_label))]
pub(crate) fn one_label<'a>(operands: &[Operand<'a>]) -> Option<Span<'a>>
    ensures { result ≡ shape.one_label operands.now }
{
    let [target] = operands else { return None };
    label(target)
}

/// `rd, label`.
#[tactic(auto, unfolding(crate::specs::Shapes::register_label))]
pub(crate) fn register_label<'a>(operands: &[Operand<'a>]) -> Option<(Reg, Span<'a>)>
    ensures { result ≡ shape.register_label operands.now }
{
    let [rd, target] = operands else { return None };
    Some((register(rd)?, label(target)?))
}

/// `rs1, rs2, label`.
#[tactic(auto, unfolding(crate::specs::Shapes::two_registers_label))]
pub(crate) fn two_registers_label<'a>(operands: &[Operand<'a>]) -> Option<(Reg, Reg, Span<'a>)>
    ensures { result ≡ shape.two_registers_label operands.now }
{
    let [rs1, rs2, target] = operands else {
        return None
    };
    Some((register(rs1)?, register(rs2)?, label(target)?))
}
