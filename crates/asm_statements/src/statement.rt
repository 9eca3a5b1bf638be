//! What a statement is, by its name: a directive, `li`, or any other instruction.

ghost use Rattle.std.specs.Prelude.{◌≡◌, option_map};
ghost use Rattle.asm_statements.specs.Mnemonics.{mnemonic_of};
ghost use Rattle.asm_statements.specs.declared.statement.Statement.TheVariants.{Code};
ghost use Rattle.asm_values.specs.Names.{named};
ghost use Rattle.asm_statements.specs.Statements.{directives, statement_of};

use crate::mnemonic::{Mnemonic, read_mnemonic};
use crate::section::Section;
use asm_values::{Size, look_up};

/// What a statement is, by its name.
#[derive(Clone, Copy)]
pub enum Statement {
    /// `.text` and `.data`.
    Enter(Section),
    /// `.word`, `.half` and `.byte`.
    Values(Size),
    /// `.ascii`.
    Ascii,
    /// `.space`.
    Space,
    /// `li`, one instruction or two.
    LoadImmediate,
    /// Any other instruction or pseudo-instruction.
    Code(Mnemonic),
}

/// The directives, and the one instruction that may be two.
const DIRECTIVES: [(&[u8], Statement); 8] = [
    (b".text", Statement::Enter(Section::Text)),
    (b".data", Statement::Enter(Section::Data)),
    (b".word", Statement::Values(Size::Word)),
    (b".half", Statement::Values(Size::Half)),
    (b".byte", Statement::Values(Size::Byte)),
    (b".ascii", Statement::Ascii),
    (b".space", Statement::Space),
    (b"li", Statement::LoadImmediate),
];

/// A directive, or `li`.
fn directive(name: &[u8]) -> Option<Statement>
    ensures { result ≡ named directives name.now }
{
    look_up(&DIRECTIVES, name)
}

/// An instruction or pseudo-instruction.
fn code(name: &[u8]) -> Option<Statement>
    ensures { result ≡ option_map Code (mnemonic_of name.now) }
{
    read_mnemonic(name).map(Statement::Code)
}

/// What a name means.
#[tactic(auto, unfolding(crate::specs::Statements::statement_of))]
pub(crate) fn read_name(name: &[u8]) -> Option<Statement>
    ensures { result ≡ statement_of name.now }
{
    directive(name).or_else(|| code(name))
}
