//! Operations on registers and immediates (unprivileged manual, "Integer Computational Instructions").
ghost use Rattle.std.specs.Prelude.{◌≡◌};
ghost use Rattle.rv_exec.specs.Registers.{register, with_pc};
ghost use Rattle.rv_exec.specs.Arithmetic.{immediate_operation, result_of, shift_operation};
ghost use Rattle.rv_exec.specs.Arithmetic.{word_of_signed};
ghost use Rattle.rv_exec.specs.Line.{computed};

use crate::arithmetic::{operate, operate_immediate, shift};
use crate::at_hand::{compute, read};
use crate::outcome::Outcome;
use crate::regs::Regs;
use rv_isa::{Immediate, ImmediateKind, OpKind, Reg, ShiftAmount, ShiftKind};

/// Writes the result of an operation on what rs1 and rs2 hold to rd.
#[inline(always)]
pub fn perform_op(
    pc: &mut u32,
    regs: &mut Regs,
    kind: OpKind,
    rd: Reg,
    rs1: Reg,
    rs2: Reg,
) -> Outcome
    ensures done { result ≡ Outcome.Done }
    ensures written { (with_pc regs.new pc.new) ≡ computed (with_pc regs.old pc.old) rd
        (result_of kind (register (with_pc regs.old pc.old) rs1)
        (register (with_pc regs.old pc.old) rs2)) }
{
    let value = operate(kind, read(*pc, regs, rs1), read(*pc, regs, rs2));
    compute(pc, regs, rd, value)
}

/// Writes the result of an operation on what rs1 holds and an immediate to rd.
#[inline(always)]
pub fn perform_immediate(
    pc: &mut u32,
    regs: &mut Regs,
    kind: ImmediateKind,
    rd: Reg,
    rs1: Reg,
    immediate: Immediate,
) -> Outcome
    ensures done { result ≡ Outcome.Done }
    ensures written { (with_pc regs.new pc.new) ≡ computed (with_pc regs.old pc.old) rd
        (result_of (immediate_operation kind) (register (with_pc regs.old pc.old) rs1)
        (word_of_signed immediate)) }
{
    let value = operate_immediate(kind, read(*pc, regs, rs1), immediate.word());
    compute(pc, regs, rd, value)
}

/// Writes what rs1 holds, shifted, to rd.
#[inline(always)]
pub fn perform_shift(
    pc: &mut u32,
    regs: &mut Regs,
    kind: ShiftKind,
    rd: Reg,
    rs1: Reg,
    amount: ShiftAmount,
) -> Outcome
    ensures done { result ≡ Outcome.Done }
    ensures written { (with_pc regs.new pc.new) ≡ computed (with_pc regs.old pc.old) rd
        (result_of (shift_operation kind) (register (with_pc regs.old pc.old) rs1) amount) }
{
    let value = shift(kind, read(*pc, regs, rs1), u32::from(amount.value()));
    compute(pc, regs, rd, value)
}
