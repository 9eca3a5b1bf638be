//! The tokens of a line: numbers, names, texts and punctuation.

use crate::span::Span;

/// A piece of a line.
#[derive(Drop)]
pub enum Token<'a> {
    /// A number. One that is too large for every field is kept as one that no field holds.
    Number(i64),
    Name(Span<'a>),
    /// What is between quotes, with its escapes as they are written.
    Text(Span<'a>),
    Colon,
    Comma,
    Open,
    Close,
}
