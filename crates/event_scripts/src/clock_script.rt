//! The lines of a clock script.

ghost use Rattle.std.specs.Prelude.{◌≡◌, ◌↔◌, ◌∷◌, [], IfOk, IfSome, IsErr, None, Ok, Err, position};
ghost use Rattle.std.specs.Option.{SomeIff};
ghost use Rattle.text_lines.specs.Text.{words_of};
ghost use Rattle.event_scripts.specs.ClockScript.{WritesCall, IsKey, key_value, is_slash};
ghost use Rattle.text_lines.specs.Lines.{IsSkipped};
ghost use Rattle.event_scripts.specs.declared.clock_script.ClockCall.{ClockCall};

use clock_policy::{Bit, Key};
use page_memory::PAGE_COUNT;
use text_lines::{BadLine, is_skipped, next_word, number, numeral};

/// The highest number of a process in a script.
const MOST_PROCESS: u32 = 65_535;

/// The highest number of a page.
const MOST_PAGE: u32 = PAGE_COUNT - 1;

/// A call of the list that a line asks for.
#[derive(Clone, Copy, Debug, PartialEq, Eq)]
pub enum ClockCall {
    Admit(Key),
    Ask,
    Answer(Bit),
    Restore(Key),
    Withdraw(Key),
    Purge(u32),
    /// `list`, which prints the state.
    Show,
}

/// The call that a line of a clock script represents, if the line is not skipped.
pub fn call_on_line(line: &[u8]) -> Result<Option<ClockCall>, BadLine>
    ensures skipped { result ≡ Ok None ↔ IsSkipped line.now }
    ensures call { IfOk result (λ found. IfSome found (λ call.
        WritesCall call (words_of line.now))) }
    ensures bad { IsErr result → (call : ClockCall) → ¬ WritesCall call (words_of line.now) }
{
    if is_skipped(line) {
        return Ok(None);
    }
    let Some((name, rest)) = next_word(line) else {
        return Err(BadLine);
    };
    let call = match next_word(rest) {
        None => call_without(name),
        Some((argument, rest)) => {
            if next_word(rest).is_some() {
                return Err(BadLine);
            }
            call_with(name, argument)
        }
    };
    match call {
        Some(call) => Ok(Some(call)),
        None => Err(BadLine),
    }
}

/// A call that is one word.
fn call_without(name: &[u8]) -> Option<ClockCall>
    ensures found { IfSome result (λ call. WritesCall call (name.now ∷ [])) }
    ensures none { result ≡ None → (call : ClockCall) → ¬ WritesCall call (name.now ∷ []) }
{
    if name == b"ask".as_slice() {
        Some(ClockCall::Ask)
    } else if name == b"zero".as_slice() {
        Some(ClockCall::Answer(Bit::Zero))
    } else if name == b"one".as_slice() {
        Some(ClockCall::Answer(Bit::One))
    } else if name == b"gone".as_slice() {
        Some(ClockCall::Answer(Bit::Gone))
    } else if name == b"list".as_slice() {
        Some(ClockCall::Show)
    } else {
        None
    }
}

/// A call that is a word and what it is about.
fn call_with(name: &[u8], argument: &[u8]) -> Option<ClockCall>
    ensures found { IfSome result (λ call. WritesCall call (name.now ∷ argument.now ∷ [])) }
    ensures none { result ≡ None → (call : ClockCall) →
        ¬ WritesCall call (name.now ∷ argument.now ∷ []) }
{
    if name == b"admit".as_slice() {
        Some(ClockCall::Admit(key(argument)?))
    } else if name == b"restore".as_slice() {
        Some(ClockCall::Restore(key(argument)?))
    } else if name == b"withdraw".as_slice() {
        Some(ClockCall::Withdraw(key(argument)?))
    } else if name == b"purge".as_slice() {
        Some(ClockCall::Purge(number(argument, MOST_PROCESS)?))
    } else {
        None
    }
}

/// The page that `P/V` names.
fn key(text: &[u8]) -> Option<Key>
    ensures { SomeIff result (IsKey text.now) (key_value text.now) }
{
    let slash = slash(text)?;
    let process = numeral(&text[..slash], 10, MOST_PROCESS)?;
    let vpn = numeral(&text[slash + 1..], 10, MOST_PAGE)?;
    Some(Key { process, vpn })
}

/// The position of the first slash.
fn slash(text: &[u8]) -> Option<usize>
    ensures { result ≡ position is_slash text.now }
{
    text.iter().position(|byte| *byte == b'/')
}
