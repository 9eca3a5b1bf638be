//! A line of source by its form: labels, the name of a statement, and operands.

use crate::operand::Operand;
use crate::span::Span;

/// A line by its form: labels, then perhaps a statement's name, then its operands.
#[derive(Drop)]
pub struct SourceLine<'a> {
    pub labels: Vec<Span<'a>>,
    pub name: Option<Span<'a>>,
    pub operands: Vec<Operand<'a>>,
}
