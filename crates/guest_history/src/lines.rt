//! The lines that are written to a debugger that goes back.

ghost use Rattle.std.specs.Prelude.{◌≡◌, IfOk, IfSome, IsErr, None, Ok};
ghost use Rattle.text_lines.specs.Text.{words_of};
ghost use Rattle.debug_session.specs.Conversation.{IsRemark};
ghost use Rattle.guest_history.specs.HistoryLines.{AsksOf, WritesOne, WritesOwn, WritesTwo};
ghost use Rattle.guest_history.specs.declared.lines.HistoryLine.{HistoryLine};

use debug_session::{DebugLine, Dialect, debug_line};
use text_lines::{BadLine, next_word, word_number};

/// What a line asks for.
#[derive(Clone, Copy, Debug, PartialEq, Eq)]
pub(crate) enum HistoryLine {
    /// Go so many steps back.
    Back { count: u32 },
    /// Go back to the last place where a point would have stopped.
    BackGo,
    /// The same, but no more than so many steps back.
    BackGoWithin { count: u32 },
    /// Show how many steps were done.
    At,
    /// What any debugger does.
    Plain(DebugLine),
}

/// What a line asks for, if it is not skipped.
#[tactic(auto, using(crate::proofs::OwnLines::asks_own, crate::proofs::OwnLines::asks_nothing))]
pub(crate) fn history_line(line: &[u8]) -> Result<Option<HistoryLine>, BadLine>
    ensures skipped { result ≡ Ok None → IsRemark line.now }
    ensures asked { IfOk result (λ found. IfSome found (λ asked. AsksOf asked line.now)) }
    ensures bad { IsErr result → (asked : HistoryLine) → ¬ AsksOf asked line.now }
    ensures no_remark { IsErr result → ¬ IsRemark line.now }
{
    if let Some(asked) = own_line(line) {
        return Ok(Some(asked));
    }
    match debug_line(Dialect::Fuller, line) {
        Ok(Some(asked)) => Ok(Some(HistoryLine::Plain(asked))),
        Ok(None) => Ok(None),
        Err(BadLine) => Err(BadLine),
    }
}

/// What a line asks for that other debuggers don't have.
#[tactic(auto, using(crate::proofs::OwnLines::writes_one, crate::proofs::OwnLines::none_of_one, crate::proofs::OwnLines::none_of_none, crate::proofs::OwnLines::writes_two, crate::proofs::OwnLines::none_of_two, crate::proofs::OwnLines::none_of_many))]
fn own_line(line: &[u8]) -> Option<HistoryLine>
    ensures found { IfSome result (λ asked. WritesOwn asked (words_of line.now)) }
    ensures none { result ≡ None → (asked : HistoryLine) → ¬ WritesOwn asked (words_of line.now) }
{
    let (name, rest) = next_word(line)?;
    let Some((word, rest)) = next_word(rest) else {
        return own_word(name);
    };
    if next_word(rest).is_some() {
        return None;
    }
    own_words(name, word)
}

/// The same of a word and a number.
fn own_words(name: &[u8], word: &[u8]) -> Option<HistoryLine>
    ensures found { IfSome result (λ asked. WritesTwo asked name.now word.now) }
    ensures none { result ≡ None → (asked : HistoryLine) → ¬ WritesTwo asked name.now word.now }
{
    let count = word_number(word)?;
    if name == b"back".as_slice() {
        Some(HistoryLine::Back { count })
    } else if name == b"back-go".as_slice() {
        Some(HistoryLine::BackGoWithin { count })
    } else {
        None
    }
}

/// The same of one word.
fn own_word(name: &[u8]) -> Option<HistoryLine>
    ensures found { IfSome result (λ asked. WritesOne asked name.now) }
    ensures none { result ≡ None → (asked : HistoryLine) → ¬ WritesOne asked name.now }
{
    if name == b"back".as_slice() {
        Some(HistoryLine::Back { count: 1 })
    } else if name == b"back-go".as_slice() {
        Some(HistoryLine::BackGo)
    } else if name == b"at".as_slice() {
        Some(HistoryLine::At)
    } else {
        None
    }
}
