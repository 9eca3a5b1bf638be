//! Statements that go to a label, by their operands.
ghost use Rattle.std.specs.Prelude.{◌≡◌};
ghost use Rattle.asm_statements.specs.Instructions as form;

use crate::part::CodePart;
use crate::shapes::{one_label, register_label, two_registers_label};
use asm_lines::{FaultKind, Operand};
use rv_isa::{BranchKind, Reg};

/// `la rd, label`.
#[tactic(auto, unfolding(crate::specs::Instructions::load_address))]
pub(crate) fn load_address<'a>(operands: &[Operand<'a>]) -> Result<CodePart<'a>, FaultKind>
    ensures { result ≡ form.load_address operands.now }
{
    let (rd, label) = register_label(operands).ok_or(FaultKind::Operand)?;
    Ok(CodePart::LoadAddress { rd, label })
}

/// `jal rd, label`.
#[tactic(auto, unfolding(crate::specs::Instructions::jal))]
pub(crate) fn jal<'a>(operands: &[Operand<'a>]) -> Result<CodePart<'a>, FaultKind>
    ensures { result ≡ form.jal operands.now }
{
    let (rd, label) = register_label(operands).ok_or(FaultKind::Operand)?;
    Ok(CodePart::Jump { rd, label })
}

/// `j label` and `call label`, which link to a register of their own.
#[tactic(auto, unfolding(crate::specs::Instructions::jump))]
pub(crate) fn jump<'a>(rd: Reg, operands: &[Operand<'a>]) -> Result<CodePart<'a>, FaultKind>
    ensures { result ≡ form.jump rd operands.now }
{
    let label = one_label(operands).ok_or(FaultKind::Operand)?;
    Ok(CodePart::Jump { rd, label })
}

/// `beq rs1, rs2, label`.
#[tactic(auto, unfolding(crate::specs::Instructions::branch))]
pub(crate) fn branch<'a>(
    kind: BranchKind,
    operands: &[Operand<'a>],
) -> Result<CodePart<'a>, FaultKind>
    ensures { result ≡ form.branch kind operands.now }
{
    let (rs1, rs2, label) = two_registers_label(operands).ok_or(FaultKind::Operand)?;
    Ok(CodePart::Branch {
        kind,
        rs1,
        rs2,
        label,
    })
}

/// `beqz rs1, label`.
#[tactic(auto, unfolding(crate::specs::Instructions::branch_zero))]
pub(crate) fn branch_zero<'a>(
    kind: BranchKind,
    operands: &[Operand<'a>],
) -> Result<CodePart<'a>, FaultKind>
    ensures { result ≡ form.branch_zero kind operands.now }
{
    let (rs1, label) = register_label(operands).ok_or(FaultKind::Operand)?;
    Ok(CodePart::Branch {
        kind,
        rs1,
        rs2: Reg::from_index(0),
        label,
    })
}
