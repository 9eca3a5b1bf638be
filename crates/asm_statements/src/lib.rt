//! Statements of assembly source: what each puts into its section, by its name and its operands.
//!
//! [`read_statement`] reads an instruction, a pseudo-instruction or a directive to its [`Effect`]. Labels stay names: their
//! addresses are known once all lines are read.
#![tactic(auto)]

mod code;
mod constant;
mod instructions;
mod labelled;
mod laws;
mod lists;
mod mnemonic;
mod part;
mod ranges;
mod registers;
mod section;
mod shapes;
mod statement;
mod statements;

pub use laws::{loaded_word, pseudo_instructions_are_instructions};
pub use part::{CodePart, Effect};
pub use section::Section;
pub use statements::read_statement;
