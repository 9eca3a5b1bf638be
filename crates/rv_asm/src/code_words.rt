//! The words of a part of the text.

ghost use Rattle.std.specs.Prelude.{◌≡◌, ◌<◌, ◌+◌, ◌%◌, ◌^◌, ℤ, pos, ◌-ℤ◌, ◌∷◌, [], Some, None, IfSome, IsSome, ◌↔◌};
ghost use Rattle.rv_isa.specs.declared.kinds.BranchKind.{BranchKind};
ghost use Rattle.rv_asm.specs.Steps.{map_value};
ghost use Rattle.rv_asm.specs.Program.{address_of};
ghost use Rattle.rv_asm.specs.SecondPass.{code_words, words_list, at_label, load_words, jump_words, branch_words, reaches};

use crate::program::Program;
use crate::word::{TextWord, Words};
use asm_lines::FaultKind;
use asm_statements::CodePart;
use rv_isa::{BranchKind, BranchOffset, ImmediateKind, Insn, JumpOffset, Reg, high_part, low_part};

/// The words of a part of the text at an address.
#[tactic(auto, unfolding(crate::specs::SecondPass::code_words))]
pub(crate) fn code_words(
    program: &Program<'_>,
    here: u32,
    code: &CodePart<'_>,
) -> Result<Words, FaultKind>
    requires { here < 2 ^ 31 }
    ensures { map_value words_list result ≡ code_words
        (address_of program.now.items) here code.now }
{
    match code {
        CodePart::Fixed(insn) => Ok(Words::One(TextWord::Instruction(*insn))),
        CodePart::LoadAddress { rd, label } => match program.address_of(label.bytes()) {
            Some(target) => Ok(load_words(*rd, target)),
            None => Err(FaultKind::NoLabel),
        },
        CodePart::Jump { rd, label } => match program.address_of(label.bytes()) {
            Some(target) => jump_words(*rd, here, target),
            None => Err(FaultKind::NoLabel),
        },
        CodePart::Branch {
            kind,
            rs1,
            rs2,
            label,
        } => match program.address_of(label.bytes()) {
            Some(target) => branch_words(*kind, *rs1, *rs2, here, target),
            None => Err(FaultKind::NoLabel),
        },
        CodePart::Number(number) => Ok(Words::One(TextWord::Plain(*number))),
        CodePart::Address(label) => match program.address_of(label.bytes()) {
            Some(target) => Ok(Words::One(TextWord::Plain(target))),
            None => Err(FaultKind::NoLabel),
        },
    }
}

/// The two instructions that put an address into a register.
#[tactic(auto, unfolding(rv_isa::specs::Split::high_part))]
fn load_words(rd: Reg, address: u32) -> Words
    requires { address < 2 ^ 31 }
    ensures { words_list result ≡ load_words rd address }
{
    Words::Two(
        TextWord::Instruction(Insn::Lui {
            rd,
            immediate: high_part(address),
        }),
        TextWord::Instruction(Insn::OpImmediate {
            kind: ImmediateKind::Addi,
            rd,
            rs1: rd,
            immediate: low_part(address),
        }),
    )
}

/// The jump from an address to another, if it reaches.
fn jump_words(rd: Reg, here: u32, target: u32) -> Result<Words, FaultKind>
    requires here_below { here < 2 ^ 31 }
    requires target_below { target < 2 ^ 31 }
    ensures { map_value words_list result ≡ jump_words rd here target }
{
    match JumpOffset::new(target as i32 - here as i32) {
        Some(offset) => Ok(Words::One(TextWord::Instruction(Insn::Jal { rd, offset }))),
        None => Err(FaultKind::Range),
    }
}

/// The branch from an address to another, if it reaches.
fn branch_words(
    kind: BranchKind,
    rs1: Reg,
    rs2: Reg,
    here: u32,
    target: u32,
) -> Result<Words, FaultKind>
    requires here_below { here < 2 ^ 31 }
    requires target_below { target < 2 ^ 31 }
    ensures { map_value words_list result ≡ branch_words kind rs1 rs2 here target }
{
    match BranchOffset::new(target as i32 - here as i32) {
        Some(offset) => Ok(Words::One(TextWord::Instruction(Insn::Branch {
            kind,
            rs1,
            rs2,
            offset,
        }))),
        None => Err(FaultKind::Range),
    }
}
