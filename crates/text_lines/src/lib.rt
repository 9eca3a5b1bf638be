//! Text cut into lines and words, the numbers that words write, and which lines of scripts say nothing, for whatever reads what
//! a user wrote.
#![tactic(auto)]

mod bad_line;
mod lines;
mod numbers;
mod skipped;
mod words;

pub use bad_line::BadLine;
pub use lines::next_line;
pub use numbers::{number, numeral, word_number};
pub use skipped::is_skipped;
pub use words::next_word;
