//! The words that a part of the text becomes: one or two, each an instruction or a plain number.

ghost use Rattle.std.specs.Prelude.{◌≡◌};
ghost use Rattle.rv_asm.specs.Words.{instruction_of, StandsForWord};

use rv_isa::{Insn, encode};

/// A word of text, as its source gives it.
#[derive(Clone, Copy, Debug, PartialEq, Eq)]
pub(crate) enum TextWord {
    /// The word of an instruction.
    Instruction(Insn),
    /// A word that is a number.
    Plain(u32),
}

/// The words of a part of the text.
#[derive(Clone, Copy, Debug, PartialEq, Eq)]
pub(crate) enum Words {
    One(TextWord),
    Two(TextWord, TextWord),
}

impl TextWord {
    /// The word as a number.
    pub(crate) fn number(&self) -> u32
        ensures { StandsForWord result self.now }
    {
        match self {
            TextWord::Instruction(insn) => encode(*insn),
            TextWord::Plain(number) => *number,
        }
    }

    /// Its instruction, if it is one's.
    pub(crate) fn instruction(&self) -> Option<Insn>
        ensures { result ≡ instruction_of self.now }
    {
        match self {
            TextWord::Instruction(insn) => Some(*insn),
            TextWord::Plain(_) => None,
        }
    }
}
