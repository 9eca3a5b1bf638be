//! The words of a trace, by their numbers.

ghost use Rattle.std.specs.Prelude.{◌≡◌, [], IfOk, OnOk};
ghost use Rattle.trace_files.specs.WordNumbers.{number_of, resolved, with_word, words_behind};
ghost use Rattle.trace_lines.specs.Lines.{word_numbered, word_of};

use indexmap::IndexSet;
use std::alloc::{AllocError, Global};
use std::marker::Model;
use trace_lines::{TraceFormat, TraceLine, word_numbered, word_of};

/// Words in the order in which they came first. It takes memory for each.
#[derive(Drop)]
pub(crate) struct WordList {
    alloc: Global,
    words: IndexSet<Vec<u8>>,
}

/// Seen as the words.
impl Model for WordList {
    ghost use Rattle.std.specs.Prelude.{ℕ, List, map};

    ghost Value = { List (List ℕ) };

    ghost view = { λ list. map (λ word. word.items) list.words.keys };
}

impl WordList {
    /// With no word.
    pub(crate) fn new(alloc: Global) -> Self
        ensures { result ≡ [] }
    {
        WordList {
            alloc,
            words: IndexSet::new(alloc),
        }
    }

    /// The number of a word, which is there from then on.
    pub(crate) fn number(&mut self, word: &[u8]) -> Result<u64, AllocError>
        ensures number { IfOk result (λ number. number ≡ number_of word.now self.old) }
        ensures words { OnOk result (self.new ≡ with_word word.now self.old) }
    {
        if let Some(number) = self.words.get_index_of(word) {
            return Ok(number as u64);
        }
        self.add(word)
    }

    /// The same of one that is new.
    fn add(&mut self, word: &[u8]) -> Result<u64, AllocError>
        ensures number { IfOk result (λ number. number ≡ number_of word.now self.old) }
        ensures words { OnOk result (self.new ≡ with_word word.now self.old) }
    {
        let mut kept = Vec::new(self.alloc);
        kept.extend_from_slice(word)?;
        let Ok((number, _)) = self.words.insert_full(kept) else {
            return Err(AllocError);
        };
        Ok(number as u64)
    }
}

/// What the line of this number says where its word is known, if it has one: the word is there from then on.
#[inline(always)]
pub(crate) fn resolve<'a>(
    words: &mut WordList,
    line: TraceLine<'a>,
    format: TraceFormat<'a>,
    number: u64,
    piece: &[u8],
) -> Result<TraceLine<'a>, AllocError>
    ensures line { IfOk result (λ told. told ≡ resolved words.old (word_of format.entry number
        piece.now) line.entry) }
    ensures words { OnOk result (words.new ≡ words_behind words.old (word_of format.entry number
        piece.now) line.entry) }
{
    match line {
        TraceLine::Word(is_written) => {
            number_word(words, word_of(format, number, piece), is_written)
        }
        _ => Ok(line),
    }
}

/// What a line says that has this word.
fn number_word<'a>(
    words: &mut WordList,
    word: &[u8],
    is_written: bool,
) -> Result<TraceLine<'a>, AllocError>
    ensures line { IfOk result (λ told. told ≡ word_numbered (number_of word.now words.old)
        is_written) }
    ensures words { OnOk result (words.new ≡ with_word word.now words.old) }
{
    let number = words.number(word)?;
    Ok(word_numbered(number, is_written))
}
