//! Jumps and branches (unprivileged manual, "Control Transfer Instructions").
ghost use Rattle.std.specs.Prelude.{◌≡◌, ◌<◌};
ghost use Rattle.page_memory.specs.Memory.{Memory};
ghost use Rattle.rv_exec.specs.Registers.{register, with_pc};
ghost use Rattle.rv_exec.specs.Arithmetic.{even, is_taken, word_of_signed, word_sum};
ghost use Rattle.rv_exec.specs.Line.{address_at, branched, jumped};
ghost use Rattle.rv_exec.specs.Outcomes.{Follows, UnlessDone, IsPresent};

use crate::arithmetic::{add, branches, without_lowest_bit};
use crate::at_hand::{advance, land, read};
use crate::cause::Cause;
use crate::outcome::Outcome;
use crate::regs::Regs;
use rv_isa::{BranchKind, BranchOffset, Immediate, JumpOffset, Reg};

/// Jumps to a target, and keeps the address of the next instruction in the register of this number.
#[inline(always)]
#[tactic(auto, unfolding(crate::specs::Line::jumped))]
fn jump(pc: &mut u32, regs: &mut Regs, link: u8, target: u32) -> Outcome
    requires { link < 32 }
    ensures line { (memory : Memory) →
        Follows (jumped (with_pc regs.old pc.old) memory link target) result
        (with_pc regs.new pc.new) memory }
    ensures registers_stay { UnlessDone result (with_pc regs.new pc.new ≡ with_pc regs.old pc.old) }
    ensures present { IsPresent result }
{
    if target % 4 == 0 {
        land(pc, regs, link, target);
        Outcome::Done
    } else {
        Outcome::Trap(Cause::InstructionMisaligned, target)
    }
}

/// Jumps to a target where the branch is taken.
#[inline(always)]
fn branch(pc: &mut u32, regs: &mut Regs, target: u32, taken: bool) -> Outcome
    ensures line { (memory : Memory) →
        Follows (branched (with_pc regs.old pc.old) memory target taken) result
        (with_pc regs.new pc.new) memory }
    ensures registers_stay { UnlessDone result (with_pc regs.new pc.new ≡ with_pc regs.old pc.old) }
    ensures present { IsPresent result }
{
    if taken {
        jump(pc, regs, 0, target)
    } else {
        advance(pc, regs)
    }
}

/// Jumps to an offset past what rs1 holds, and keeps the address of the next instruction in rd.
#[inline(always)]
pub fn perform_jalr(pc: &mut u32, regs: &mut Regs, rd: Reg, rs1: Reg, offset: Immediate) -> Outcome
    ensures line { let target = even (address_at (with_pc regs.old pc.old) rs1 offset) in
        (memory : Memory) → Follows (jumped (with_pc regs.old pc.old) memory rd target) result
        (with_pc regs.new pc.new) memory }
    ensures registers_stay { UnlessDone result (with_pc regs.new pc.new ≡ with_pc regs.old pc.old) }
    ensures present { IsPresent result }
{
    let target = without_lowest_bit(add(read(*pc, regs, rs1), offset.word()));
    jump(pc, regs, rd.index(), target)
}

/// Branches by an offset where what rs1 and rs2 hold compares so.
#[inline(always)]
pub fn perform_branch(
    pc: &mut u32,
    regs: &mut Regs,
    kind: BranchKind,
    rs1: Reg,
    rs2: Reg,
    offset: BranchOffset,
) -> Outcome
    ensures line { let taken = is_taken kind (register (with_pc regs.old pc.old) rs1)
        (register (with_pc regs.old pc.old) rs2) in
        (memory : Memory) → Follows (branched (with_pc regs.old pc.old) memory
        (word_sum pc.old (word_of_signed offset)) taken) result (with_pc regs.new pc.new) memory }
    ensures registers_stay { UnlessDone result (with_pc regs.new pc.new ≡ with_pc regs.old pc.old) }
    ensures present { IsPresent result }
{
    let target = add(*pc, offset.word());
    let taken = branches(kind, read(*pc, regs, rs1), read(*pc, regs, rs2));
    branch(pc, regs, target, taken)
}

/// Jumps by an offset, and keeps the address of the next instruction in rd.
#[inline(always)]
pub fn perform_jal(pc: &mut u32, regs: &mut Regs, rd: Reg, offset: JumpOffset) -> Outcome
    ensures line { let target = word_sum pc.old (word_of_signed offset) in
        (memory : Memory) → Follows (jumped (with_pc regs.old pc.old) memory rd target) result
        (with_pc regs.new pc.new) memory }
    ensures registers_stay { UnlessDone result (with_pc regs.new pc.new ≡ with_pc regs.old pc.old) }
    ensures present { IsPresent result }
{
    let target = add(*pc, offset.word());
    jump(pc, regs, rd.index(), target)
}
