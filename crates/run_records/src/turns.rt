//! Lines of a record that are turns, steps and endings.

ghost use Rattle.std.specs.Prelude.{◌≡◌};
ghost use Rattle.std.specs.Option.{option_and_then};
ghost use Rattle.run_records.specs.Words.{word_of};
ghost use Rattle.run_records.specs.RecordLines.{
  cause_numbered,
  end_of,
  exited_of,
  kill_numbered,
  killed_of,
  steps_of,
  trapped_of,
  turn_of,
};

use crate::numbers::{after_word, cut, number_in, word_in};
use flat_machine::{End, KillCause, Turn};
use rv_exec::Cause;

/// The turn that a line gives.
#[tactic(auto, unfolding(crate::specs::RecordLines::turn_of))]
pub(crate) fn turn_in(line: &[u8]) -> Option<Turn>
    ensures { result ≡ turn_of line.now }
{
    let (hart, count) = cut(line)?;
    let hart = word_in(hart)?;
    let count = word_in(count)?;
    if count == 0 {
        return None;
    }
    Some(Turn { hart, count })
}

/// The number of steps that a line gives.
#[tactic(auto, unfolding(crate::specs::RecordLines::steps_of))]
pub(crate) fn steps_in(line: &[u8]) -> Option<u64>
    ensures { result ≡ steps_of line.now }
{
    let steps = after_word(b"steps", line)?;
    number_in(steps, u64::MAX)
}

/// The ending that a line gives.
#[tactic(auto, unfolding(crate::specs::RecordLines::end_of))]
pub(crate) fn end_in(line: &[u8]) -> Option<End>
    ensures { result ≡ end_of line.now }
{
    if let Some(end) = exited_in(line) {
        return Some(end);
    }
    if let Some(end) = trapped_in(line) {
        return Some(end);
    }
    killed_in(line)
}

#[tactic(auto, unfolding(crate::specs::RecordLines::exited_of))]
fn exited_in(line: &[u8]) -> Option<End>
    ensures { result ≡ exited_of line.now }
{
    let status = after_word(b"exited", line)?;
    let status = word_in(status)?;
    Some(End::Exited(status))
}

#[tactic(auto, unfolding(crate::specs::RecordLines::trapped_of))]
fn trapped_in(line: &[u8]) -> Option<End>
    ensures { result ≡ trapped_of line.now }
{
    let words = after_word(b"trapped", line)?;
    let (hart, words) = cut(words)?;
    let (cause, words) = cut(words)?;
    let (pc, value) = cut(words)?;
    let hart = word_in(hart)?;
    let cause = cause_in(cause)?;
    let pc = word_in(pc)?;
    let value = word_in(value)?;
    Some(End::Trapped {
        hart,
        cause,
        pc,
        value,
    })
}

#[tactic(auto, unfolding(crate::specs::RecordLines::killed_of))]
fn killed_in(line: &[u8]) -> Option<End>
    ensures { result ≡ killed_of line.now }
{
    let number = after_word(b"killed", line)?;
    let number = word_in(number)?;
    let cause = kill_numbered(number)?;
    Some(End::Killed(cause))
}

/// The cause of a trap whose number a word writes.
fn cause_in(word: &[u8]) -> Option<Cause>
    ensures { result ≡ option_and_then cause_numbered (word_of word.now) }
{
    match word_in(word) {
        Some(number) => cause_numbered(number),
        None => None,
    }
}

/// The cause of a trap that has this number.
#[tactic(auto, unfolding(crate::specs::RecordLines::cause_numbered))]
fn cause_numbered(number: u32) -> Option<Cause>
    ensures { result ≡ cause_numbered number }
{
    match number {
        0 => Some(Cause::InstructionMisaligned),
        2 => Some(Cause::IllegalInstruction),
        3 => Some(Cause::Breakpoint),
        4 => Some(Cause::LoadMisaligned),
        6 => Some(Cause::StoreMisaligned),
        12 => Some(Cause::InstructionPageFault),
        13 => Some(Cause::LoadPageFault),
        15 => Some(Cause::StorePageFault),
        _ => None,
    }
}

/// The cause of a kill that has this number.
#[tactic(auto, unfolding(crate::specs::RecordLines::kill_numbered))]
fn kill_numbered(number: u32) -> Option<KillCause>
    ensures { result ≡ kill_numbered number }
{
    match number {
        1 => Some(KillCause::NoSwap),
        2 => Some(KillCause::LoadFailed),
        3 => Some(KillCause::Damaged),
        4 => Some(KillCause::ScheduleFull),
        5 => Some(KillCause::NoMemory),
        6 => Some(KillCause::Limit),
        _ => None,
    }
}
