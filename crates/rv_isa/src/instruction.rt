//! The instructions of RV32I, M and A, with operands that are in range by their types.

use super::kinds::{AmoKind, BranchKind, ImmediateKind, LoadKind, OpKind, ShiftKind, StoreKind};
use super::operands::{
    BranchOffset, FenceBits, Immediate, JumpOffset, Reg, ShiftAmount, UpperImmediate,
};

/// An instruction of RV32I, M or A (unprivileged manual), with operands that are in range by their types.
///
/// Registers are named as in the manual: `rd` is written, `rs1` and `rs2` are read.
#[derive(Clone, Copy, PartialEq, Eq)]
pub enum Insn {
    /// Load upper immediate.
    Lui {
        rd: Reg,
        immediate: UpperImmediate,
    },
    /// Add upper immediate to pc.
    Auipc {
        rd: Reg,
        immediate: UpperImmediate,
    },
    /// Jump and link.
    Jal {
        rd: Reg,
        offset: JumpOffset,
    },
    /// Jump and link register: to `rs1` plus the offset.
    Jalr {
        rd: Reg,
        rs1: Reg,
        offset: Immediate,
    },
    /// Conditional branch.
    Branch {
        kind: BranchKind,
        rs1: Reg,
        rs2: Reg,
        offset: BranchOffset,
    },
    /// A load from `rs1` plus the offset.
    Load {
        kind: LoadKind,
        rd: Reg,
        rs1: Reg,
        offset: Immediate,
    },
    /// A store of `rs2` to `rs1` plus the offset.
    Store {
        kind: StoreKind,
        rs1: Reg,
        rs2: Reg,
        offset: Immediate,
    },
    /// A register and an immediate.
    OpImmediate {
        kind: ImmediateKind,
        rd: Reg,
        rs1: Reg,
        immediate: Immediate,
    },
    /// A shift by an immediate amount.
    Shift {
        kind: ShiftKind,
        rd: Reg,
        rs1: Reg,
        amount: ShiftAmount,
    },
    /// Two registers.
    Op {
        kind: OpKind,
        rd: Reg,
        rs1: Reg,
        rs2: Reg,
    },
    /// Memory ordering: all the fields of the word but its opcode and funct3 are kept.
    Fence {
        bits: FenceBits,
        rd: Reg,
        rs1: Reg,
    },
    /// An atomic memory operation at `rs1`.
    Amo {
        kind: AmoKind,
        acquire: bool,
        release: bool,
        rd: Reg,
        rs1: Reg,
        rs2: Reg,
    },
    /// Load reserved (LR.W): a load of the word at `rs1`, which it reserves.
    LoadReserved {
        acquire: bool,
        release: bool,
        rd: Reg,
        rs1: Reg,
    },
    /// Store conditional (SC.W): a store of `rs2` to the word at `rs1`, if it is reserved.
    StoreConditional {
        acquire: bool,
        release: bool,
        rd: Reg,
        rs1: Reg,
        rs2: Reg,
    },
    /// Environment call.
    Ecall,
    /// Breakpoint.
    Ebreak,
}
