//! What a statement puts into the text while labels are still names, and its length in bytes; what a statement does.

ghost use Rattle.std.specs.Prelude.{◌≡◌};
ghost use Rattle.asm_statements.specs.Parts.{code_length};

use crate::section::Section;
use asm_lines::Span;
use asm_values::Datum;
use rv_isa::{BranchKind, Insn, Reg};

/// What a statement puts into the text, once pseudo-instructions are gone: one word, or two for an address.
#[derive(Drop)]
pub enum CodePart<'a> {
    /// One instruction, whole.
    Fixed(Insn),
    /// The two instructions that put a label's address into a register.
    LoadAddress {
        rd: Reg,
        label: Span<'a>,
    },
    /// A jump to a label.
    Jump {
        rd: Reg,
        label: Span<'a>,
    },
    /// A branch to a label.
    Branch {
        kind: BranchKind,
        rs1: Reg,
        rs2: Reg,
        label: Span<'a>,
    },
    /// A word that is a number.
    Number(u32),
    /// A word that is a label's address.
    Address(Span<'a>),
}

/// What a statement does.
#[derive(Drop)]
pub enum Effect<'a> {
    /// The statements that follow belong to this section.
    Enter(Section),
    /// It puts this into the text.
    Text(Vec<CodePart<'a>>),
    /// It puts this into the data.
    Data(Vec<Datum<'a>>),
}

impl<'a> CodePart<'a> {
    /// How many bytes of text the part takes.
    pub fn length(&self) -> u32
        ensures { result ≡ code_length self.now }
    {
        match self {
            CodePart::LoadAddress { .. } => 8,
            _ => 4,
        }
    }
}
