//! Images written as words.

ghost use Rattle.std.specs.Prelude.{◌≡◌, IfOk, length};
ghost use Rattle.std.specs.Option.{SomeIff};
ghost use Rattle.std.specs.Str.Parse.{digits_value};
ghost use Rattle.text_lines.specs.Text.{lines_of};
ghost use Rattle.image_files.specs.WordsFile.{IsWordLine, AreWordLines, IsWordsFile, words_on, words_in};

use std::alloc::{AllocError, Global};
use text_lines::{next_line, numeral};
use thiserror::Error;

/// Why a file gives no words.
#[derive(Clone, Copy, Debug, PartialEq, Eq, Error)]
pub enum WordsError {
    #[error("bad words")]
    BadWords,
    #[error("no memory")]
    NoMemory,
}

/// The words of a `.words` file: below its first line, `.words`, each line is one word in eight hexadecimal digits.
/// Lines end with a line feed; the last may do without.
pub fn words_of_file(alloc: Global, text: &[u8]) -> Result<Vec<u32>, WordsError>
    ensures lawful { IfOk result (λ _. IsWordsFile text.now) }
    ensures words { IfOk result (λ words. words.items ≡ words_in text.now) }
    ensures bad { result ≡ Err WordsError.BadWords → ¬ IsWordsFile text.now }
{
    match next_line(text) {
        Some((first, rest)) if first == b".words".as_slice() => words_of_lines(alloc, rest),
        _ => Err(WordsError::BadWords),
    }
}

/// The words of a text in which each line is one word.
fn words_of_lines(alloc: Global, text: &[u8]) -> Result<Vec<u32>, WordsError>
    ensures lawful { IfOk result (λ _. AreWordLines (lines_of text.now)) }
    ensures words { IfOk result (λ words. words.items ≡ words_on (lines_of text.now)) }
    ensures bad { result ≡ Err WordsError.BadWords → ¬ AreWordLines (lines_of text.now) }
{
    let mut words = Vec::new(alloc);
    let mut rest = text;
    while let Some((line, others)) = next_line(rest) {
        let Some(word) = word_on_line(line) else {
            return Err(WordsError::BadWords);
        };
        if words.push(word).is_err() {
            return Err(WordsError::NoMemory);
        }
        rest = others;
    }
    Ok(words)
}

/// The word that eight hexadecimal digits write.
#[tactic(auto, using(crate::proofs::WordLines::eight_fit))]
fn word_on_line(line: &[u8]) -> Option<u32>
    ensures { SomeIff result (IsWordLine line.now) (digits_value 16 line.now) }
{
    if line.len() != 8 {
        return None;
    }
    numeral(line, 16, u32::MAX)
}
