//! What is at the front of a text: a token and the rest, bytes that are no token, or the end.

use crate::token::Token;

/// What is at the front of a text.
#[derive(Drop)]
pub enum Front<'a> {
    /// No token: the text ends, or a comment begins.
    End,
    /// A token, and what follows it.
    Token(Token<'a>, &'a [u8]),
    /// Bytes that are no token.
    Bad,
}
