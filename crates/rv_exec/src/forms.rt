//! Words of each form that loads and stores nothing: their fields go to what is done with them.

ghost use Rattle.std.specs.Prelude.{◌≡◌, ℕ, []};
ghost use Rattle.page_memory.specs.Memory.{Memory};
ghost use Rattle.rv_isa.specs.Table.{system_of};
ghost use Rattle.rv_isa.specs.declared.forms.Form.{Form};
ghost use Rattle.rv_isa.specs.Forms.{insn_of_form, branch_insn, immediate_insn, shift_insn};
ghost use Rattle.rv_isa.specs.Forms.{op_insn, shift_left_of, shift_right_of, op_of_two};
ghost use Rattle.rv_isa.specs.Forms.{op_of_three};
ghost use Rattle.rv_exec.specs.Registers.{with_pc};
ghost use Rattle.rv_exec.specs.Line.{decoded_line};
ghost use Rattle.rv_exec.specs.Uses.{decoded_pages};
ghost use Rattle.rv_exec.specs.Outcomes.{Follows, UnlessDone, IsPresent};

use crate::arithmetic::add;
use crate::at_hand::{advance, compute};
use crate::cause::Cause;
use crate::jumps::{perform_branch, perform_jal, perform_jalr};
use crate::operations::{perform_immediate, perform_op, perform_shift};
use crate::outcome::Outcome;
use crate::regs::Regs;
use rv_isa::{
    BranchKind, Form, ImmediateKind, OpKind, ShiftKind, branch_offset, funct7, immediate,
    jump_offset, rd, rs1, rs2, shift_amount, upper_immediate,
};

/// A word that is outside the table.
#[inline(always)]
pub(crate) fn illegal(word: u32) -> Outcome
    ensures { result ≡ Outcome.Trap Cause.IllegalInstruction word }
{
    Outcome::Trap(Cause::IllegalInstruction, word)
}

/// LUI.
#[inline(always)]
#[tactic(auto, unfolding(crate::specs::Line::insn_line, crate::specs::Uses::data_pages, crate::specs::Uses::data_stores))]
pub(crate) fn upper(pc: &mut u32, regs: &mut Regs, word: u32) -> Outcome
    ensures line { (hart : ℕ) (memory : Memory) →
        Follows (decoded_line hart (with_pc regs.old pc.old) memory word
        (insn_of_form Form.Lui word)) result (with_pc regs.new pc.new) memory }
    ensures registers_stay { UnlessDone result (with_pc regs.new pc.new ≡ with_pc regs.old pc.old) }
    ensures no_pages { (memory : Memory) → decoded_pages (with_pc regs.old pc.old) memory
        (insn_of_form Form.Lui word) ≡ [] }
    ensures present { IsPresent result }
{
    compute(pc, regs, rd(word), upper_immediate(word).value() << 12)
}

/// AUIPC.
#[inline(always)]
#[tactic(auto, unfolding(crate::specs::Registers::with_pc, crate::specs::Line::insn_line, crate::specs::Uses::data_pages, crate::specs::Uses::data_stores))]
pub(crate) fn upper_past_pc(pc: &mut u32, regs: &mut Regs, word: u32) -> Outcome
    ensures line { (hart : ℕ) (memory : Memory) →
        Follows (decoded_line hart (with_pc regs.old pc.old) memory word
        (insn_of_form Form.Auipc word)) result (with_pc regs.new pc.new) memory }
    ensures registers_stay { UnlessDone result (with_pc regs.new pc.new ≡ with_pc regs.old pc.old) }
    ensures no_pages { (memory : Memory) → decoded_pages (with_pc regs.old pc.old) memory
        (insn_of_form Form.Auipc word) ≡ [] }
    ensures present { IsPresent result }
{
    let sum = add(*pc, upper_immediate(word).value() << 12);
    compute(pc, regs, rd(word), sum)
}

/// JAL.
#[inline(always)]
#[tactic(auto, unfolding(crate::specs::Registers::with_pc, crate::specs::Line::insn_line, crate::specs::Uses::data_pages, crate::specs::Uses::data_stores))]
pub(crate) fn jal(pc: &mut u32, regs: &mut Regs, word: u32) -> Outcome
    ensures line { (hart : ℕ) (memory : Memory) →
        Follows (decoded_line hart (with_pc regs.old pc.old) memory word
        (insn_of_form Form.Jal word)) result (with_pc regs.new pc.new) memory }
    ensures registers_stay { UnlessDone result (with_pc regs.new pc.new ≡ with_pc regs.old pc.old) }
    ensures no_pages { (memory : Memory) → decoded_pages (with_pc regs.old pc.old) memory
        (insn_of_form Form.Jal word) ≡ [] }
    ensures present { IsPresent result }
{
    perform_jal(pc, regs, rd(word), jump_offset(word))
}

/// JALR.
#[inline(always)]
#[tactic(auto, unfolding(crate::specs::Line::insn_line, crate::specs::Uses::data_pages, crate::specs::Uses::data_stores))]
pub(crate) fn jalr(pc: &mut u32, regs: &mut Regs, word: u32) -> Outcome
    ensures line { (hart : ℕ) (memory : Memory) →
        Follows (decoded_line hart (with_pc regs.old pc.old) memory word
        (insn_of_form Form.Jalr word)) result (with_pc regs.new pc.new) memory }
    ensures registers_stay { UnlessDone result (with_pc regs.new pc.new ≡ with_pc regs.old pc.old) }
    ensures no_pages { (memory : Memory) → decoded_pages (with_pc regs.old pc.old) memory
        (insn_of_form Form.Jalr word) ≡ [] }
    ensures present { IsPresent result }
{
    perform_jalr(pc, regs, rd(word), rs1(word), immediate(word))
}

/// A branch of a kind.
#[inline(always)]
#[tactic(auto, unfolding(crate::specs::Registers::with_pc, crate::specs::Line::insn_line, crate::specs::Uses::data_pages, crate::specs::Uses::data_stores))]
pub(crate) fn branch(pc: &mut u32, regs: &mut Regs, kind: BranchKind, word: u32) -> Outcome
    ensures line { (hart : ℕ) (memory : Memory) →
        Follows (decoded_line hart (with_pc regs.old pc.old) memory word
        (Some (branch_insn kind word))) result (with_pc regs.new pc.new) memory }
    ensures registers_stay { UnlessDone result (with_pc regs.new pc.new ≡ with_pc regs.old pc.old) }
    ensures no_pages { (memory : Memory) → decoded_pages (with_pc regs.old pc.old) memory
        (Some (branch_insn kind word)) ≡ [] }
    ensures present { IsPresent result }
{
    perform_branch(pc, regs, kind, rs1(word), rs2(word), branch_offset(word))
}

/// An operation of a kind on a register and an immediate.
#[inline(always)]
#[tactic(auto, unfolding(crate::specs::Line::insn_line, crate::specs::Uses::data_pages, crate::specs::Uses::data_stores))]
pub(crate) fn op_immediate(pc: &mut u32, regs: &mut Regs, kind: ImmediateKind, word: u32) -> Outcome
    ensures line { (hart : ℕ) (memory : Memory) →
        Follows (decoded_line hart (with_pc regs.old pc.old) memory word
        (Some (immediate_insn kind word))) result (with_pc regs.new pc.new) memory }
    ensures registers_stay { UnlessDone result (with_pc regs.new pc.new ≡ with_pc regs.old pc.old) }
    ensures no_pages { (memory : Memory) → decoded_pages (with_pc regs.old pc.old) memory
        (Some (immediate_insn kind word)) ≡ [] }
    ensures present { IsPresent result }
{
    perform_immediate(pc, regs, kind, rd(word), rs1(word), immediate(word))
}

/// A shift of a kind.
#[inline(always)]
#[tactic(auto, unfolding(crate::specs::Line::insn_line, crate::specs::Uses::data_pages, crate::specs::Uses::data_stores))]
pub(crate) fn shift(pc: &mut u32, regs: &mut Regs, kind: ShiftKind, word: u32) -> Outcome
    ensures line { (hart : ℕ) (memory : Memory) →
        Follows (decoded_line hart (with_pc regs.old pc.old) memory word
        (Some (shift_insn kind word))) result (with_pc regs.new pc.new) memory }
    ensures registers_stay { UnlessDone result (with_pc regs.new pc.new ≡ with_pc regs.old pc.old) }
    ensures no_pages { (memory : Memory) → decoded_pages (with_pc regs.old pc.old) memory
        (Some (shift_insn kind word)) ≡ [] }
    ensures present { IsPresent result }
{
    perform_shift(pc, regs, kind, rd(word), rs1(word), shift_amount(word))
}

/// SLLI, if funct7 is its.
#[inline(always)]
#[tactic(auto, unfolding(rv_isa::specs::Forms::shift_left_of))]
pub(crate) fn shift_left(pc: &mut u32, regs: &mut Regs, word: u32) -> Outcome
    ensures line { (hart : ℕ) (memory : Memory) →
        Follows (decoded_line hart (with_pc regs.old pc.old) memory word (shift_left_of word))
        result (with_pc regs.new pc.new) memory }
    ensures registers_stay { UnlessDone result (with_pc regs.new pc.new ≡ with_pc regs.old pc.old) }
    ensures no_pages { (memory : Memory) → decoded_pages (with_pc regs.old pc.old) memory
        (shift_left_of word) ≡ [] }
    ensures present { IsPresent result }
{
    match funct7(word) {
        0b000_0000 => shift(pc, regs, ShiftKind::Slli, word),
        _ => illegal(word),
    }
}

/// SRLI or SRAI, by funct7.
#[inline(always)]
#[tactic(auto, unfolding(rv_isa::specs::Forms::shift_right_of))]
pub(crate) fn shift_right(pc: &mut u32, regs: &mut Regs, word: u32) -> Outcome
    ensures line { (hart : ℕ) (memory : Memory) →
        Follows (decoded_line hart (with_pc regs.old pc.old) memory word (shift_right_of word))
        result (with_pc regs.new pc.new) memory }
    ensures registers_stay { UnlessDone result (with_pc regs.new pc.new ≡ with_pc regs.old pc.old) }
    ensures no_pages { (memory : Memory) → decoded_pages (with_pc regs.old pc.old) memory
        (shift_right_of word) ≡ [] }
    ensures present { IsPresent result }
{
    match funct7(word) {
        0b000_0000 => shift(pc, regs, ShiftKind::Srli, word),
        0b010_0000 => shift(pc, regs, ShiftKind::Srai, word),
        _ => illegal(word),
    }
}

/// An operation of a kind on two registers.
#[inline(always)]
#[tactic(auto, unfolding(crate::specs::Line::insn_line, crate::specs::Uses::data_pages, crate::specs::Uses::data_stores))]
pub(crate) fn op(pc: &mut u32, regs: &mut Regs, kind: OpKind, word: u32) -> Outcome
    ensures line { (hart : ℕ) (memory : Memory) →
        Follows (decoded_line hart (with_pc regs.old pc.old) memory word
        (Some (op_insn kind word))) result (with_pc regs.new pc.new) memory }
    ensures registers_stay { UnlessDone result (with_pc regs.new pc.new ≡ with_pc regs.old pc.old) }
    ensures no_pages { (memory : Memory) → decoded_pages (with_pc regs.old pc.old) memory
        (Some (op_insn kind word)) ≡ [] }
    ensures present { IsPresent result }
{
    perform_op(pc, regs, kind, rd(word), rs1(word), rs2(word))
}

/// An operation of RV32I or of M, by funct7.
#[inline(always)]
#[tactic(auto, unfolding(rv_isa::specs::Forms::op_of_two))]
pub(crate) fn op_of_two(
    pc: &mut u32,
    regs: &mut Regs,
    base: OpKind,
    m: OpKind,
    word: u32,
) -> Outcome
    ensures line { (hart : ℕ) (memory : Memory) →
        Follows (decoded_line hart (with_pc regs.old pc.old) memory word (op_of_two base m word))
        result (with_pc regs.new pc.new) memory }
    ensures registers_stay { UnlessDone result (with_pc regs.new pc.new ≡ with_pc regs.old pc.old) }
    ensures no_pages { (memory : Memory) → decoded_pages (with_pc regs.old pc.old) memory
        (op_of_two base m word) ≡ [] }
    ensures present { IsPresent result }
{
    match funct7(word) {
        0b000_0000 => op(pc, regs, base, word),
        0b000_0001 => op(pc, regs, m, word),
        _ => illegal(word),
    }
}

/// An operation of RV32I, one of M, or the other one of RV32I, by funct7.
#[inline(always)]
#[tactic(auto, unfolding(rv_isa::specs::Forms::op_of_three))]
pub(crate) fn op_of_three(
    pc: &mut u32,
    regs: &mut Regs,
    base: OpKind,
    m: OpKind,
    other: OpKind,
    word: u32,
) -> Outcome
    ensures line { (hart : ℕ) (memory : Memory) →
        Follows (decoded_line hart (with_pc regs.old pc.old) memory word
        (op_of_three base m other word)) result (with_pc regs.new pc.new) memory }
    ensures registers_stay { UnlessDone result (with_pc regs.new pc.new ≡ with_pc regs.old pc.old) }
    ensures no_pages { (memory : Memory) → decoded_pages (with_pc regs.old pc.old) memory
        (op_of_three base m other word) ≡ [] }
    ensures present { IsPresent result }
{
    match funct7(word) {
        0b000_0000 => op(pc, regs, base, word),
        0b000_0001 => op(pc, regs, m, word),
        0b010_0000 => op(pc, regs, other, word),
        _ => illegal(word),
    }
}

/// FENCE. Execution is sequentially consistent: there is nothing left for a fence to order.
#[inline(always)]
#[tactic(auto, unfolding(crate::specs::Line::insn_line, crate::specs::Uses::data_pages, crate::specs::Uses::data_stores))]
pub(crate) fn fence(pc: &mut u32, regs: &mut Regs, word: u32) -> Outcome
    ensures line { (hart : ℕ) (memory : Memory) →
        Follows (decoded_line hart (with_pc regs.old pc.old) memory word
        (insn_of_form Form.Fence word)) result (with_pc regs.new pc.new) memory }
    ensures registers_stay { UnlessDone result (with_pc regs.new pc.new ≡ with_pc regs.old pc.old) }
    ensures no_pages { (memory : Memory) → decoded_pages (with_pc regs.old pc.old) memory
        (insn_of_form Form.Fence word) ≡ [] }
    ensures present { IsPresent result }
{
    advance(pc, regs)
}

/// Opcode SYSTEM.
#[inline(always)]
#[tactic(auto, unfolding(crate::specs::Registers::with_pc, rv_isa::specs::Table::system_of, crate::specs::Line::insn_line, crate::specs::Uses::data_pages, crate::specs::Uses::data_stores))]
pub(crate) fn system(pc: &mut u32, regs: &mut Regs, word: u32) -> Outcome
    ensures line { (hart : ℕ) (memory : Memory) →
        Follows (decoded_line hart (with_pc regs.old pc.old) memory word (system_of word)) result
        (with_pc regs.new pc.new) memory }
    ensures registers_stay { UnlessDone result (with_pc regs.new pc.new ≡ with_pc regs.old pc.old) }
    ensures no_pages { (memory : Memory) → decoded_pages (with_pc regs.old pc.old) memory
        (system_of word) ≡ [] }
    ensures present { IsPresent result }
{
    match word {
        0x0000_0073 => Outcome::Ecall,
        0x0010_0073 => Outcome::Trap(Cause::Breakpoint, *pc),
        _ => illegal(word),
    }
}
