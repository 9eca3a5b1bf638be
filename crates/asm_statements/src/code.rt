//! What each instruction or pseudo-instruction except `li` puts into the text, by its mnemonic.

ghost use Rattle.std.specs.Prelude.{◌≡◌};
ghost use Rattle.asm_values.specs.Answers.{map_ok};
ghost use Rattle.asm_statements.specs.Instructions.{code_of};
ghost use Rattle.asm_statements.specs.declared.part.CodePart.TheVariants.{Fixed};

use crate::instructions::{
    alone, amo, auipc, copy_register, fence, jalr, jump_register, jump_to, load, lui, no_operation,
    op, op_immediate, reservation, shift, store,
};
use crate::labelled::{branch, branch_zero, jal, jump, load_address};
use crate::mnemonic::Mnemonic;
use crate::part::CodePart;
use asm_lines::{FaultKind, Operand};
use rv_isa::{Insn, Reg};

/// What one instruction or pseudo-instruction but `li` puts into the text.
#[tactic(auto, unfolding(crate::specs::Instructions::code_of))]
pub(crate) fn read_code<'a>(
    mnemonic: Mnemonic,
    operands: &[Operand<'a>],
) -> Result<CodePart<'a>, FaultKind>
    ensures { result ≡ code_of mnemonic operands.now }
{
    match mnemonic {
        Mnemonic::Op(kind) => fixed(op(kind, operands)),
        Mnemonic::OpImmediate(kind) => fixed(op_immediate(kind, operands)),
        Mnemonic::Shift(kind) => fixed(shift(kind, operands)),
        Mnemonic::Load(kind) => fixed(load(kind, operands)),
        Mnemonic::Store(kind) => fixed(store(kind, operands)),
        Mnemonic::Branch(kind) => branch(kind, operands),
        Mnemonic::Lui => fixed(lui(operands)),
        Mnemonic::Auipc => fixed(auipc(operands)),
        Mnemonic::Jal => jal(operands),
        Mnemonic::Jalr => fixed(jalr(operands)),
        Mnemonic::Fence => fixed(fence(operands)),
        Mnemonic::Ecall => fixed(alone(Insn::Ecall, operands)),
        Mnemonic::Ebreak => fixed(alone(Insn::Ebreak, operands)),
        Mnemonic::Amo {
            kind,
            acquire,
            release,
        } => fixed(amo(kind, acquire, release, operands)),
        Mnemonic::Reservation {
            kind,
            acquire,
            release,
        } => fixed(reservation(kind, acquire, release, operands)),
        Mnemonic::Nop => fixed(alone(no_operation(), operands)),
        Mnemonic::LoadAddress => load_address(operands),
        Mnemonic::Move => fixed(copy_register(operands)),
        Mnemonic::Jump => jump(Reg::from_index(0), operands),
        Mnemonic::Call => jump(Reg::from_index(1), operands),
        Mnemonic::JumpRegister => fixed(jump_register(operands)),
        Mnemonic::Return => fixed(alone(jump_to(Reg::from_index(1)), operands)),
        Mnemonic::BranchZero(kind) => branch_zero(kind, operands),
    }
}

/// An instruction, whole.
fn fixed<'a>(insn: Result<Insn, FaultKind>) -> Result<CodePart<'a>, FaultKind>
    ensures { result ≡ map_ok Fixed insn }
{
    Ok(CodePart::Fixed(insn?))
}
