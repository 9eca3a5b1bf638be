//! What words say.

ghost use Rattle.std.specs.Prelude.{◌≡◌, ◌≤◌, ◌↔◌, [], ℕ, Option, Some, IfOk, IfSome, IsErr, IsTrue, codes, option_map, unwrap_or};
ghost use Rattle.clap.specs.Words.{kind_of};
ghost use Rattle.clap.specs.declared.error.kind.ErrorKind.TheVariants.{OutOfMemory};
ghost use Rattle.command_line.specs.Requests.{IsNumberIfGiven};
ghost use Rattle.guest_io.specs.Words.{word_of};
ghost use Rattle.guest_io.specs.declared.usage_fault.UsageFault.TheVariants.{NoMemory};

use crate::usage_fault::UsageFault;
use clap::ArgMatches;
use clap::error::ErrorKind;
use std::alloc::Global;
use text_lines::numeral;

/// Why words are no request: the first line of what the library says, without its `error: `.
pub fn wrong_words<'a>(alloc: Global, error: &clap::Error) -> UsageFault<'a>
    ensures memory { kind_of error.now ≡ OutOfMemory → result ≡ NoMemory }
{
    if matches!(error.kind(), ErrorKind::OutOfMemory) {
        return UsageFault::NoMemory;
    }
    let Ok(text) = format!(in alloc; "{error}") else {
        return UsageFault::NoMemory;
    };
    let mut lines = text.lines();
    let line = lines.next().unwrap_or("");
    let reason = line.strip_prefix("error: ").unwrap_or(line);
    // Behind a colon the next line names the argument.
    let rest = if reason.ends_with(':') {
        lines.next().unwrap_or("").trim_start()
    } else {
        ""
    };
    let space = if rest.is_empty() { "" } else { " " };
    match format!(in alloc; "{reason}{space}{rest}") {
        Ok(reason) => UsageFault::Words(reason),
        Err(_) => UsageFault::NoMemory,
    }
}

/// The number of an option, from `least` to `most`, where it is given.
pub fn number<'a>(
    matches: &ArgMatches<'a>,
    name: &'static str,
    least: u32,
    most: u32,
) -> Result<Option<u32>, UsageFault<'a>>
    ensures number { IfOk result (λ number. IsNumberIfGiven least most number
        (word_of name.now matches.now)) }
    ensures bad { IsErr result → (number : Option ℕ) → ¬ IsNumberIfGiven least most number
        (word_of name.now matches.now) }
    ensures within { IfOk result (λ found. IfSome found (λ number. (least ≤ number) ×
        (number ≤ most))) }
{
    let Some(word) = found(matches, name) else {
        return Ok(None);
    };
    match numeral(word.as_bytes(), 10, most) {
        Some(number) if number >= least => Ok(Some(number)),
        _ => Err(UsageFault::Number {
            name,
            word,
            least,
            most,
        }),
    }
}

/// A word that the command requires.
pub fn text<'a>(matches: &ArgMatches<'a>, name: &str) -> &'a str
    ensures { result.now ≡ unwrap_or (word_of name.now matches.now) [] }
{
    found(matches, name).unwrap_or("")
}

/// Whether a flag is given.
pub fn is_given(matches: &ArgMatches<'_>, name: &str) -> bool
    ensures { IsTrue result ↔ (word_of name.now matches.now ≡ Some (codes "true")) }
{
    match found(matches, name) {
        Some(word) => word == "true",
        None => false,
    }
}

/// The word of an argument, where one was given.
#[tactic(auto, using(crate::proofs::Rows::word_by_rows))]
fn found<'a>(matches: &ArgMatches<'a>, name: &str) -> Option<&'a str>
    ensures { option_map (λ word. word.now) result ≡ word_of name.now matches.now }
{
    matches.get_str(name)
}
