//! Lines of assembly source: from the text of a line to its tokens, and to its form.
//!
//! [`scan_line`] reads a line to its labels, the name of its statement and the operands; a line of no such form is a
//! [`FaultKind::BadLine`]. What names and operands stand for is no matter of lines.
#![tactic(auto)]

mod bytes;
mod fault;
mod front;
mod laws;
mod numbers;
mod operand;
mod operands;
mod scanning;
mod source_line;
mod span;
mod statement;
mod token;
mod tokens;

pub use fault::{FaultKind, LineRefusal};
pub use laws::{
    blanks_and_comments_give_no_tokens, numbers_stand_for_their_value, texts_reach_to_their_quote,
    words_reach_to_their_end,
};
pub use operand::Operand;
pub use scanning::scan_line;
pub use source_line::SourceLine;
pub use span::Span;
