//! The written forms of an operand, before its statement gives it a meaning.

use crate::span::Span;

/// An operand as it is written, before a statement says what it may be.
#[derive(Drop)]
pub enum Operand<'a> {
    /// A number. One that is too large for every field is kept as one that no field holds.
    Number(i64),
    /// A register's or a label's name.
    Name(Span<'a>),
    /// What is between quotes, with its escapes as they are written.
    Text(Span<'a>),
    /// A number and a name in brackets, as `8(sp)`.
    Indexed { offset: i64, base: Span<'a> },
    /// A name in brackets, as `(sp)`.
    Indirect { base: Span<'a> },
}
