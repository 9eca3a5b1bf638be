//! The tokens of a line, one after another.

ghost use Rattle.std.specs.Prelude.{◌≡◌, ℕ, false, List, [], ◌∷◌, ◌++◌, ◌+◌, ◌<◌, ◌≤◌, length, take, drop, Some, None, IfSome, MatchOption};
ghost use Rattle.asm_lines.specs.Tokens.{tokens_of, tokens_from, followed, word_token, InWord, InText};
ghost use Rattle.asm_lines.specs.Fronts.{Gives, GivesFrom, Shortens, BeginsWord};
ghost use Rattle.asm_lines.specs.declared.token.Token.TheVariants as token;

use crate::bytes::{ByteClass, TextStep, class_of, is_name_byte, text_step};
use crate::front::Front;
use crate::numbers::number;
use crate::span::Span;
use crate::token::Token;

/// The token at the front of a text.
#[tactic(auto, using(crate::proofs::Fronts::shorter_still))]
pub fn next_token<'a>(text: &'a [u8]) -> Front<'a>
    ensures token { Gives result text.now }
    ensures shorter { Shortens result text.now }
{
    let mut rest = text;
    while let Some((first, others)) = rest.split_first() {
        match class_of(*first) {
            ByteClass::Blank => rest = others,
            ByteClass::Comment => return Front::End,
            ByteClass::Quote => return text_token(others),
            ByteClass::Colon => return Front::Token(Token::Colon, others),
            ByteClass::Comma => return Front::Token(Token::Comma, others),
            ByteClass::Open => return Front::Token(Token::Open, others),
            ByteClass::Close => return Front::Token(Token::Close, others),
            ByteClass::Word => return word_at(rest),
            ByteClass::Stray => return Front::Bad,
        }
    }
    Front::End
}

/// The number or the name at the front of a text.
fn word_at<'a>(text: &'a [u8]) -> Front<'a>
    requires { BeginsWord text.now }
    ensures token { Gives result text.now }
    ensures shorter { Shortens result text.now }
{
    let end = 1 + name_length(&text[1..]);
    let (word, rest) = text.split_at(end);
    match word_token(word) {
        Some(token) => Front::Token(token, rest),
        None => Front::Bad,
    }
}

/// How many bytes of a name stand at the front of a text.
fn name_length(text: &[u8]) -> usize
    ensures within { result ≤ length text.now }
    ensures word { (word : List ℕ) → tokens_from (InWord word) text.now
        ≡ followed (word_token (word ++ take result text.now)) (tokens_of (drop result text.now)) }
{
    for (end, byte) in text.iter().enumerate() {
        if !is_name_byte(*byte) {
            return end;
        }
    }
    text.len()
}

/// A word as a number, where it begins as one, and else as a name.
#[tactic(auto, unfolding(crate::specs::Tokens::word_token))]
fn word_token<'a>(word: &'a [u8]) -> Option<Token<'a>>
    ensures { result ≡ word_token word.now }
{
    match word {
        [b'0'..=b'9' | b'-', ..] => Some(Token::Number(number(word)?)),
        _ => Some(Token::Name(Span::new(word))),
    }
}

/// The text whose opening quote stands before `text`.
fn text_token<'a>(text: &'a [u8]) -> Front<'a>
    ensures token { GivesFrom (InText false []) result text.now }
    ensures shorter { Shortens result text.now }
{
    match text_length(text) {
        Some(end) => Front::Token(Token::Text(Span::new(&text[..end])), &text[end + 1..]),
        None => Front::Bad,
    }
}

/// How many bytes stand before the closing quote.
fn text_length(text: &[u8]) -> Option<usize>
    ensures within { IfSome result (λ end. end < length text.now) }
    ensures text { MatchOption result (tokens_from (InText false []) text.now ≡ None)
        (λ end. tokens_from (InText false []) text.now ≡ followed (Some (token.Text (take end text.now))) (tokens_of (drop (end + 1) text.now))) }
{
    let mut escaped = false;
    for (end, byte) in text.iter().enumerate() {
        match text_step(escaped, *byte) {
            TextStep::Closes => return Some(end),
            TextStep::Belongs { escapes } => escaped = escapes,
            TextStep::Breaks => return None,
        }
    }
    None
}
