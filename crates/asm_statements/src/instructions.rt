//! Instructions and pseudo-instructions that are one instruction, whole, by their operands.
ghost use Rattle.std.specs.Prelude.{◌≡◌, pos};
ghost use Rattle.rv_isa.specs.declared.kinds.ImmediateKind.TheVariants.{Addi};
ghost use Rattle.rv_isa.specs.declared.instruction.Insn.TheVariants.{OpImmediate, Jalr};
ghost use Rattle.asm_statements.specs.Instructions as form;

use crate::ranges::{fence_bits, immediate, shift_amount, upper_immediate};
use crate::shapes::{
    number_two_registers, one_register, register_indexed, register_indirect, register_number,
    three_registers, two_registers, two_registers_indirect, two_registers_number,
};
use asm_lines::{FaultKind, Operand};
use rv_isa::{
    AmoKind, FenceBits, Immediate, ImmediateKind, Insn, LoadKind, OpKind, Reg, ReservationKind,
    ShiftKind, StoreKind,
};

/// `add rd, rs1, rs2`.
#[tactic(auto, unfolding(crate::specs::Instructions::op))]
pub(crate) fn op(kind: OpKind, operands: &[Operand]) -> Result<Insn, FaultKind>
    ensures { result ≡ form.op kind operands.now }
{
    let (rd, rs1, rs2) = three_registers(operands).ok_or(FaultKind::Operand)?;
    Ok(Insn::Op { kind, rd, rs1, rs2 })
}

/// `addi rd, rs1, n`.
#[tactic(auto, unfolding(crate::specs::Instructions::op_immediate))]
pub(crate) fn op_immediate(kind: ImmediateKind, operands: &[Operand]) -> Result<Insn, FaultKind>
    ensures { result ≡ form.op_immediate kind operands.now }
{
    let (rd, rs1, number) = two_registers_number(operands).ok_or(FaultKind::Operand)?;
    let immediate = immediate(number)?;
    Ok(Insn::OpImmediate {
        kind,
        rd,
        rs1,
        immediate,
    })
}

/// `slli rd, rs1, n`.
#[tactic(auto, unfolding(crate::specs::Instructions::shift))]
pub(crate) fn shift(kind: ShiftKind, operands: &[Operand]) -> Result<Insn, FaultKind>
    ensures { result ≡ form.shift kind operands.now }
{
    let (rd, rs1, number) = two_registers_number(operands).ok_or(FaultKind::Operand)?;
    let amount = shift_amount(number)?;
    Ok(Insn::Shift {
        kind,
        rd,
        rs1,
        amount,
    })
}

/// `lw rd, n(rs1)`.
#[tactic(auto, unfolding(crate::specs::Instructions::load))]
pub(crate) fn load(kind: LoadKind, operands: &[Operand]) -> Result<Insn, FaultKind>
    ensures { result ≡ form.load kind operands.now }
{
    let (rd, (number, rs1)) = register_indexed(operands).ok_or(FaultKind::Operand)?;
    let offset = immediate(number)?;
    Ok(Insn::Load {
        kind,
        rd,
        rs1,
        offset,
    })
}

/// `sw rs2, n(rs1)`.
#[tactic(auto, unfolding(crate::specs::Instructions::store))]
pub(crate) fn store(kind: StoreKind, operands: &[Operand]) -> Result<Insn, FaultKind>
    ensures { result ≡ form.store kind operands.now }
{
    let (rs2, (number, rs1)) = register_indexed(operands).ok_or(FaultKind::Operand)?;
    let offset = immediate(number)?;
    Ok(Insn::Store {
        kind,
        rs1,
        rs2,
        offset,
    })
}

/// `jalr rd, n(rs1)`.
#[tactic(auto, unfolding(crate::specs::Instructions::jalr))]
pub(crate) fn jalr(operands: &[Operand]) -> Result<Insn, FaultKind>
    ensures { result ≡ form.jalr operands.now }
{
    let (rd, (number, rs1)) = register_indexed(operands).ok_or(FaultKind::Operand)?;
    let offset = immediate(number)?;
    Ok(Insn::Jalr { rd, rs1, offset })
}

/// `lui rd, n`.
#[tactic(auto, unfolding(crate::specs::Instructions::lui))]
pub(crate) fn lui(operands: &[Operand]) -> Result<Insn, FaultKind>
    ensures { result ≡ form.lui operands.now }
{
    let (rd, number) = register_number(operands).ok_or(FaultKind::Operand)?;
    let immediate = upper_immediate(number)?;
    Ok(Insn::Lui { rd, immediate })
}

/// `auipc rd, n`.
#[tactic(auto, unfolding(crate::specs::Instructions::auipc))]
pub(crate) fn auipc(operands: &[Operand]) -> Result<Insn, FaultKind>
    ensures { result ≡ form.auipc operands.now }
{
    let (rd, number) = register_number(operands).ok_or(FaultKind::Operand)?;
    let immediate = upper_immediate(number)?;
    Ok(Insn::Auipc { rd, immediate })
}

/// `fence`, which orders everything before it ahead of everything after it, or `fence n, rd, rs1`.
#[tactic(auto, unfolding(crate::specs::Instructions::fence))]
pub(crate) fn fence(operands: &[Operand]) -> Result<Insn, FaultKind>
    ensures { result ≡ form.fence operands.now }
{
    if operands.is_empty() {
        let bits = FenceBits::new(0xFF).unwrap();
        return Ok(Insn::Fence {
            bits,
            rd: Reg::from_index(0),
            rs1: Reg::from_index(0),
        });
    }
    let (number, rd, rs1) = number_two_registers(operands).ok_or(FaultKind::Operand)?;
    let bits = fence_bits(number)?;
    Ok(Insn::Fence { bits, rd, rs1 })
}

/// `amoadd.w rd, rs2, (rs1)`.
#[tactic(auto, unfolding(crate::specs::Instructions::amo))]
pub(crate) fn amo(
    kind: AmoKind,
    acquire: bool,
    release: bool,
    operands: &[Operand],
) -> Result<Insn, FaultKind>
    ensures { result ≡ form.amo kind acquire release operands.now }
{
    let (rd, rs2, rs1) = two_registers_indirect(operands).ok_or(FaultKind::Operand)?;
    Ok(Insn::Amo {
        kind,
        acquire,
        release,
        rd,
        rs1,
        rs2,
    })
}

/// `lr.w rd, (rs1)`, or `sc.w rd, rs2, (rs1)`.
#[tactic(auto, unfolding(crate::specs::Instructions::reservation))]
pub(crate) fn reservation(
    kind: ReservationKind,
    acquire: bool,
    release: bool,
    operands: &[Operand],
) -> Result<Insn, FaultKind>
    ensures { result ≡ form.reservation kind acquire release operands.now }
{
    match kind {
        ReservationKind::Lr => {
            let (rd, rs1) = register_indirect(operands).ok_or(FaultKind::Operand)?;
            Ok(Insn::LoadReserved {
                acquire,
                release,
                rd,
                rs1,
            })
        }
        ReservationKind::Sc => {
            let (rd, rs2, rs1) = two_registers_indirect(operands).ok_or(FaultKind::Operand)?;
            Ok(Insn::StoreConditional {
                acquire,
                release,
                rd,
                rs1,
                rs2,
            })
        }
    }
}

/// An instruction with no operands.
#[tactic(auto, unfolding(crate::specs::Instructions::alone))]
pub(crate) fn alone(whole: Insn, operands: &[Operand]) -> Result<Insn, FaultKind>
    ensures { result ≡ form.alone whole operands.now }
{
    if operands.is_empty() {
        Ok(whole)
    } else {
        Err(FaultKind::Operand)
    }
}

/// `mv rd, rs1`.
#[tactic(auto, unfolding(crate::specs::Instructions::copied))]
pub(crate) fn copy_register(operands: &[Operand]) -> Result<Insn, FaultKind>
    ensures { result ≡ form.copied operands.now }
{
    let (rd, rs1) = two_registers(operands).ok_or(FaultKind::Operand)?;
    Ok(add_immediate(rd, rs1, Immediate::new(0).unwrap()))
}

/// `jr rs1`.
#[tactic(auto, unfolding(crate::specs::Instructions::jump_register))]
pub(crate) fn jump_register(operands: &[Operand]) -> Result<Insn, FaultKind>
    ensures { result ≡ form.jump_register operands.now }
{
    let rs1 = one_register(operands).ok_or(FaultKind::Operand)?;
    Ok(jump_to(rs1))
}

/// `nop`.
pub(crate) fn no_operation() -> Insn
    ensures { result ≡ OpImmediate Addi 0 0 (pos 0) }
{
    add_immediate(
        Reg::from_index(0),
        Reg::from_index(0),
        Immediate::new(0).unwrap(),
    )
}

/// `addi`.
pub(crate) fn add_immediate(rd: Reg, rs1: Reg, immediate: Immediate) -> Insn
    ensures { result ≡ OpImmediate Addi rd rs1 immediate }
{
    Insn::OpImmediate {
        kind: ImmediateKind::Addi,
        rd,
        rs1,
        immediate,
    }
}

/// A jump to where a register points, with no link.
pub(crate) fn jump_to(rs1: Reg) -> Insn
    ensures { result ≡ Jalr 0 rs1 (pos 0) }
{
    Insn::Jalr {
        rd: Reg::from_index(0),
        rs1,
        offset: Immediate::new(0).unwrap(),
    }
}
