//! The lines of a drive script.

ghost use Rattle.std.specs.Prelude.{◌≡◌, ◌↔◌, ◌∷◌, [], IfOk, IfSome, IsErr, None, Ok};
ghost use Rattle.text_lines.specs.Text.{words_of};
ghost use Rattle.machine_core.specs.declared.event.Event.{Event};
ghost use Rattle.event_scripts.specs.DriveScript.{IsOfCleaning, WritesEvent};
ghost use Rattle.text_lines.specs.Lines.{IsSkipped};

use clock_policy::Key;
use flat_machine::KillCause;
use machine_core::Event;
use text_lines::{BadLine, is_skipped, next_word, word_number};

/// The event that a line of a drive script writes, if it is not skipped.
pub fn event_on_line(line: &[u8]) -> Result<Option<Event>, BadLine>
    ensures skipped { result ≡ Ok None ↔ IsSkipped line.now }
    ensures event { IfOk result (λ found. IfSome found (λ event.
        WritesEvent event (words_of line.now))) }
    ensures bad { IsErr result → (event : Event) → ¬ WritesEvent event (words_of line.now) }
{
    if is_skipped(line) {
        return Ok(None);
    }
    let Some((name, rest)) = next_word(line) else {
        return Err(BadLine);
    };
    match event_with(name, rest) {
        Some(event) => Ok(Some(event)),
        None => Err(BadLine),
    }
}

/// The event of a name and the words after it.
fn event_with(name: &[u8], rest: &[u8]) -> Option<Event>
    ensures found { IfSome result (λ event. WritesEvent event (name.now ∷ words_of rest.now)) }
    ensures none { result ≡ None → (event : Event) →
        ¬ WritesEvent event (name.now ∷ words_of rest.now) }
{
    let Some((first, rest)) = next_word(rest) else {
        return event_alone(name);
    };
    let Some((second, rest)) = next_word(rest) else {
        return event_of_one(name, first);
    };
    if next_word(rest).is_some() {
        return None;
    }
    event_of_two(name, first, second)
}

/// An event that is one word.
fn event_alone(name: &[u8]) -> Option<Event>
    ensures found { IfSome result (λ event. WritesEvent event (name.now ∷ [])) }
    ensures none { result ≡ None → (event : Event) → ¬ WritesEvent event (name.now ∷ []) }
{
    if name == b"sweep".as_slice() {
        Some(Event::Sweep)
    } else {
        None
    }
}

/// An event that is a word and a number.
fn event_of_one(name: &[u8], first: &[u8]) -> Option<Event>
    ensures found { IfSome result (λ event. WritesEvent event (name.now ∷ first.now ∷ [])) }
    ensures none { result ≡ None → (event : Event) → ¬ WritesEvent event (name.now ∷ first.now ∷
        []) }
{
    if name == b"purge".as_slice() {
        Some(Event::Purge {
            process: word_number(first)?,
        })
    } else {
        None
    }
}

/// An event that is a word and two numbers.
fn event_of_two(name: &[u8], first: &[u8], second: &[u8]) -> Option<Event>
    ensures found { IfSome result (λ event. WritesEvent event (name.now ∷ first.now ∷ second.now ∷
        [])) }
    ensures none { result ≡ None → (event : Event) → ¬ WritesEvent event (name.now ∷ first.now ∷
        second.now ∷ []) }
{
    let process = word_number(first)?;
    let second = word_number(second)?;
    let key = Key {
        process,
        vpn: second,
    };
    if name == b"step".as_slice() {
        Some(Event::Step {
            process,
            hart: second,
        })
    } else if name == b"notice".as_slice() {
        Some(Event::Notice {
            process,
            hart: second,
        })
    } else if name == b"collect".as_slice() {
        Some(Event::Collect(key))
    } else if name == b"saved".as_slice() {
        Some(Event::Saved(key))
    } else if name == b"pagein".as_slice() {
        Some(Event::PageIn(key))
    } else if name == b"kill".as_slice() {
        let cause = KillCause::from_number(second)?;
        Some(Event::Kill { process, cause })
    } else {
        cleaning_event(name, key)
    }
}

/// An event of a page that is cleaned.
fn cleaning_event(name: &[u8], key: Key) -> Option<Event>
    ensures found { IfSome result (λ event. IsOfCleaning name.now key event) }
    ensures none { result ≡ None → (event : Event) → ¬ IsOfCleaning name.now key event }
{
    if name == b"clean".as_slice() {
        Some(Event::Clean(key))
    } else if name == b"copy".as_slice() {
        Some(Event::Copy(key))
    } else if name == b"cleaned".as_slice() {
        Some(Event::Cleaned(key))
    } else {
        None
    }
}
