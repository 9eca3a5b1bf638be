//! What the operations of RV32I and M compute from words, and which branches are taken.

ghost use Rattle.std.specs.Prelude.{◌≡◌};
ghost use Rattle.rv_exec.specs.Arithmetic.{word_sum, even, result_of, immediate_operation};
ghost use Rattle.rv_exec.specs.Arithmetic.{shift_operation, is_taken};

use crate::multiplication::{
    divide, divide_unsigned, multiply_high, multiply_high_mixed, multiply_high_unsigned, remainder,
    remainder_unsigned,
};
use rv_isa::{BranchKind, ImmediateKind, OpKind, ShiftKind};

/// The sum of two words, which wraps.
#[inline]
#[tactic(auto, unfolding(crate::specs::Arithmetic::word_sum))]
pub fn add(a: u32, b: u32) -> u32
    ensures { result ≡ word_sum a b }
{
    a.wrapping_add(b)
}

/// A word without its lowest bit.
#[inline]
#[tactic(auto, unfolding(crate::specs::Arithmetic::even))]
pub fn without_lowest_bit(a: u32) -> u32
    ensures { result ≡ even a }
{
    a - a % 2
}

/// The result of an operation on two words.
#[inline]
#[tactic(auto, unfolding(crate::specs::Arithmetic::result_of, crate::specs::Arithmetic::word_difference))]
pub fn operate(kind: OpKind, a: u32, b: u32) -> u32
    ensures { result ≡ result_of kind a b }
{
    match kind {
        OpKind::Add => add(a, b),
        OpKind::Sub => a.wrapping_sub(b),
        OpKind::Sll => a.wrapping_shl(b),
        OpKind::Slt => u32::from(a.cast_signed() < b.cast_signed()),
        OpKind::Sltu => u32::from(a < b),
        OpKind::Xor => a ^ b,
        OpKind::Srl => a.wrapping_shr(b),
        OpKind::Sra => a.cast_signed().wrapping_shr(b).cast_unsigned(),
        OpKind::Or => a | b,
        OpKind::And => a & b,
        OpKind::Mul => a.wrapping_mul(b),
        OpKind::Mulh => multiply_high(a, b),
        OpKind::Mulhsu => multiply_high_mixed(a, b),
        OpKind::Mulhu => multiply_high_unsigned(a, b),
        OpKind::Div => divide(a, b),
        OpKind::Divu => divide_unsigned(a, b),
        OpKind::Rem => remainder(a, b),
        OpKind::Remu => remainder_unsigned(a, b),
    }
}

/// The result of an operation on a word and an immediate, whose sign is extended.
#[inline]
#[tactic(auto, unfolding(crate::specs::Arithmetic::immediate_operation))]
pub fn operate_immediate(kind: ImmediateKind, a: u32, immediate: u32) -> u32
    ensures { result ≡ result_of (immediate_operation kind) a immediate }
{
    match kind {
        ImmediateKind::Addi => operate(OpKind::Add, a, immediate),
        ImmediateKind::Slti => operate(OpKind::Slt, a, immediate),
        ImmediateKind::Sltiu => operate(OpKind::Sltu, a, immediate),
        ImmediateKind::Xori => operate(OpKind::Xor, a, immediate),
        ImmediateKind::Ori => operate(OpKind::Or, a, immediate),
        ImmediateKind::Andi => operate(OpKind::And, a, immediate),
    }
}

/// A word, shifted by an amount.
#[inline]
#[tactic(auto, unfolding(crate::specs::Arithmetic::shift_operation))]
pub fn shift(kind: ShiftKind, a: u32, amount: u32) -> u32
    ensures { result ≡ result_of (shift_operation kind) a amount }
{
    match kind {
        ShiftKind::Slli => operate(OpKind::Sll, a, amount),
        ShiftKind::Srli => operate(OpKind::Srl, a, amount),
        ShiftKind::Srai => operate(OpKind::Sra, a, amount),
    }
}

/// Whether a branch that compares two words is taken.
#[inline]
#[tactic(auto, unfolding(crate::specs::Arithmetic::is_taken))]
pub fn branches(kind: BranchKind, a: u32, b: u32) -> bool
    ensures { result ≡ is_taken kind a b }
{
    match kind {
        BranchKind::Beq => a == b,
        BranchKind::Bne => a != b,
        BranchKind::Blt => a.cast_signed() < b.cast_signed(),
        BranchKind::Bge => a.cast_signed() >= b.cast_signed(),
        BranchKind::Bltu => a < b,
        BranchKind::Bgeu => a >= b,
    }
}
