//! The assembler: from the text of a program to its words and its image.
//!
//! The first pass makes the items of a program from its lines, and the second their words and bytes, once all labels have
//! addresses. Lines are read by `asm_lines`, statements by `asm_statements`.
#![tactic(auto)]

mod assembling;
mod code_words;
mod fault;
mod first_pass;
mod item;
mod label_place;
mod laws;
mod listing;
mod program;
mod second_pass;
mod sections;
mod word;

pub use asm_lines::{
    FaultKind, blanks_and_comments_give_no_tokens, numbers_stand_for_their_value,
    texts_reach_to_their_quote, words_reach_to_their_end,
};
pub use asm_statements::{loaded_word, pseudo_instructions_are_instructions};
pub use asm_values::escapes_stand_for_their_bytes;
pub use assembling::assemble;
pub use fault::AsmError;
pub use laws::one_listing;
pub use listing::Listing;
