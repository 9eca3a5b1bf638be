//! The lines that are written to a debugger.

ghost use Rattle.std.specs.Prelude.{◌≡◌, ◌↔◌, ◌∷◌, [], IfOk, IfSome, IsErr, IsTrue, IsUtf8, None, Ok};
ghost use Rattle.text_lines.specs.Text.{words_of};
ghost use Rattle.text_lines.specs.Lines.{IsSkipped};
ghost use Rattle.debug_session.specs.Lines.{AsksFor, WritesFuller, WritesLine, WritesPair, WritesWord};
ghost use Rattle.debug_session.specs.declared.lines.DebugLine.{DebugLine};

use std::str;
use text_lines::{BadLine, is_skipped, next_word, word_number};

/// Which lines a conversation has.
#[derive(Clone, Copy, Debug, PartialEq, Eq)]
pub enum Dialect {
    /// Those of `paged debug`.
    Plain,
    /// Those and `run`, `go-hart`, `end` and `live`.
    Fuller,
}

/// What a line asks of a debugger.
#[derive(Clone, Copy, Debug, PartialEq, Eq)]
pub enum DebugLine {
    /// Stop before the instruction at an address.
    Break { address: u32 },
    /// Stop after a change of one of so many bytes from an address on.
    Watch { address: u32, length: u32 },
    /// Remove a point.
    Remove { number: u32 },
    /// Run one instruction of a hart.
    Step { hart: u32 },
    /// Run so many instructions at most, by turns.
    Go { limit: u32 },
    /// Show a hart's registers.
    Regs { hart: u32 },
    /// Show so many bytes from an address on.
    Mem { address: u32, length: u32 },
    /// The same as `Go`, with the harts of the last step and of the next in the reply.
    Run { limit: u32 },
    /// Run so many instructions at most of only one hart, with the harts of the last step and of the next in the reply.
    GoHart { hart: u32, limit: u32 },
    /// Show how the process ended.
    End,
    /// Show whether a hart is live.
    Live { hart: u32 },
    /// End the conversation.
    Quit,
}

/// What a line asks for, if it is not skipped. A skipped line has to be UTF-8, as all lines.
pub fn debug_line(dialect: Dialect, line: &[u8]) -> Result<Option<DebugLine>, BadLine>
    ensures skipped { result ≡ Ok None ↔ (IsSkipped line.now × IsUtf8 line.now) }
    ensures asked { IfOk result (λ found. IfSome found (λ asked. AsksFor dialect asked line.now)) }
    ensures bad { IsErr result → (asked : DebugLine) → ¬ AsksFor dialect asked line.now }
{
    if is_skipped(line) {
        return if is_utf8(line) {
            Ok(None)
        } else {
            Err(BadLine)
        };
    }
    let Some((name, rest)) = next_word(line) else {
        return Err(BadLine);
    };
    match line_with(dialect, name, rest) {
        Some(asked) => Ok(Some(asked)),
        None => Err(BadLine),
    }
}

fn is_utf8(line: &[u8]) -> bool
    ensures { IsTrue result ↔ IsUtf8 line.now }
{
    str::from_utf8(line).is_ok()
}

/// What a name asks for with the words after it.
fn line_with(dialect: Dialect, name: &[u8], rest: &[u8]) -> Option<DebugLine>
    ensures found { IfSome result (λ asked.
        WritesLine dialect asked (name.now ∷ words_of rest.now)) }
    ensures none { result ≡ None → (asked : DebugLine) →
        ¬ WritesLine dialect asked (name.now ∷ words_of rest.now) }
{
    let Some((first, rest)) = next_word(rest) else {
        return line_alone(dialect, name);
    };
    let Some((second, rest)) = next_word(rest) else {
        return line_of_one(dialect, name, first);
    };
    if next_word(rest).is_some() {
        return None;
    }
    line_of_two(dialect, name, first, second)
}

/// What one word asks for.
fn line_alone(dialect: Dialect, name: &[u8]) -> Option<DebugLine>
    ensures found { IfSome result (λ asked. WritesLine dialect asked (name.now ∷ [])) }
    ensures none { result ≡ None → (asked : DebugLine) →
        ¬ WritesLine dialect asked (name.now ∷ []) }
{
    if name == b"quit".as_slice() {
        Some(DebugLine::Quit)
    } else {
        fuller_word(dialect, name)
    }
}

/// What one word asks for beyond the plain lines.
fn fuller_word(dialect: Dialect, name: &[u8]) -> Option<DebugLine>
    ensures found { IfSome result (λ asked. WritesWord dialect asked name.now) }
    ensures none { result ≡ None → (asked : DebugLine) → ¬ WritesWord dialect asked name.now }
{
    match dialect {
        Dialect::Plain => None,
        Dialect::Fuller => {
            if name == b"end".as_slice() {
                Some(DebugLine::End)
            } else {
                None
            }
        }
    }
}

/// What a name and a number ask for.
fn line_of_one(dialect: Dialect, name: &[u8], first: &[u8]) -> Option<DebugLine>
    ensures found { IfSome result (λ asked.
        WritesLine dialect asked (name.now ∷ first.now ∷ [])) }
    ensures none { result ≡ None → (asked : DebugLine) →
        ¬ WritesLine dialect asked (name.now ∷ first.now ∷ []) }
{
    let number = word_number(first)?;
    if name == b"break".as_slice() {
        Some(DebugLine::Break { address: number })
    } else if name == b"remove".as_slice() {
        Some(DebugLine::Remove { number })
    } else if name == b"step".as_slice() {
        Some(DebugLine::Step { hart: number })
    } else if name == b"go".as_slice() {
        Some(DebugLine::Go { limit: number })
    } else if name == b"regs".as_slice() {
        Some(DebugLine::Regs { hart: number })
    } else {
        fuller_line(dialect, name, number)
    }
}

/// What a name and a number ask for beyond the plain lines.
fn fuller_line(dialect: Dialect, name: &[u8], number: u32) -> Option<DebugLine>
    ensures found { IfSome result (λ asked. WritesFuller dialect asked name.now number) }
    ensures none { result ≡ None → (asked : DebugLine) →
        ¬ WritesFuller dialect asked name.now number }
{
    match dialect {
        Dialect::Plain => None,
        Dialect::Fuller => {
            if name == b"run".as_slice() {
                Some(DebugLine::Run { limit: number })
            } else if name == b"live".as_slice() {
                Some(DebugLine::Live { hart: number })
            } else {
                None
            }
        }
    }
}

/// What a name and two numbers ask for.
fn line_of_two(dialect: Dialect, name: &[u8], first: &[u8], second: &[u8]) -> Option<DebugLine>
    ensures found { IfSome result (λ asked.
        WritesLine dialect asked (name.now ∷ first.now ∷ second.now ∷ [])) }
    ensures none { result ≡ None → (asked : DebugLine) →
        ¬ WritesLine dialect asked (name.now ∷ first.now ∷ second.now ∷ []) }
{
    let address = word_number(first)?;
    let length = word_number(second)?;
    if name == b"watch".as_slice() {
        Some(DebugLine::Watch { address, length })
    } else if name == b"mem".as_slice() {
        Some(DebugLine::Mem { address, length })
    } else {
        fuller_pair(dialect, name, address, length)
    }
}

/// What a name and two numbers ask for beyond the plain lines.
fn fuller_pair(dialect: Dialect, name: &[u8], first: u32, second: u32) -> Option<DebugLine>
    ensures found { IfSome result (λ asked. WritesPair dialect asked name.now first second) }
    ensures none { result ≡ None → (asked : DebugLine) →
        ¬ WritesPair dialect asked name.now first second }
{
    match dialect {
        Dialect::Plain => None,
        Dialect::Fuller => {
            if name == b"go-hart".as_slice() {
                Some(DebugLine::GoHart {
                    hart: first,
                    limit: second,
                })
            } else {
                None
            }
        }
    }
}
