//! What the arguments of a command are.

ghost use Rattle.std.specs.Prelude.{ℕ, Option, IfSome, ◌≡◌, ◌≤◌, ◌↔◌, IfOk, IfErr, IsErr, IsTrue, List, OkIff, Err, None, Some, codes, map, option_map};
ghost use Rattle.std.specs.Str.Parse.{digits_value};
ghost use Rattle.clap.specs.Matches.{found_of};
ghost use Rattle.clap.specs.Walk.{all_of, first_of, rows_of};
ghost use Rattle.command_line.specs.Requests.{AreImages, IsBetween, IsNumberIfGiven, IsOption, usual_limit, highest_limit};

use crate::request::UsageError;
use clap::ArgMatches;
use machine_limits::MOST_PROCESSES;
use std::alloc::Global;
use text_lines::numeral;

/// The value of an argument, if it was given.
#[tactic(auto, using(crate::proofs::Rows::value_by_rows))]
pub fn found<'a>(matches: &ArgMatches<'a>, name: &str) -> Option<&'a str>
    ensures { option_map (λ text. text.now) result ≡ first_of name.now
        (rows_of (found_of matches.now)) }
{
    matches.get_str(name)
}

/// The value of an argument that has to be given.
pub fn value<'a>(matches: &ArgMatches<'a>, name: &str) -> Result<&'a str, UsageError>
    ensures given { IfOk result (λ text. first_of name.now (rows_of (found_of matches.now)) ≡
        Some text.now) }
    ensures missing { IsErr result → first_of name.now (rows_of (found_of matches.now)) ≡ None }
    ensures refused { IfErr result (λ error. error ≡ UsageError.BadUsage) }
{
    match found(matches, name) {
        Some(text) => Ok(text),
        None => Err(UsageError::BadUsage),
    }
}

/// The values of an argument that may be given several times.
#[tactic(auto, using(crate::proofs::Rows::values_by_rows))]
fn all<'m, 'a>(matches: &'m ArgMatches<'a>, name: &str) -> Option<&'m [&'a str]>
    ensures { option_map (λ texts. map (λ text. text.now) texts.now) result ≡ all_of name.now
        (rows_of (found_of matches.now)) }
{
    matches.get_strs(name)
}

/// The files of the images, of which a machine has so many at most.
pub fn images<'a>(alloc: Global, matches: &ArgMatches<'a>) -> Result<Vec<&'a str>, UsageError>
    ensures given { IfOk result (λ names. AreImages (rows_of (found_of matches.now)) (map (λ name.
        name.now) names.items)) }
    ensures bad { result ≡ Err UsageError.BadUsage → (names : List (List ℕ)) →
        ¬ AreImages (rows_of (found_of matches.now)) names }
{
    let Some(names) = all(matches, "image") else {
        return Err(UsageError::BadUsage);
    };
    if names.len() > MOST_PROCESSES {
        return Err(UsageError::BadUsage);
    }
    Ok(names.to_vec(alloc)?)
}

/// Whether a flag is set.
pub fn is_given(matches: &ArgMatches<'_>, name: &str) -> bool
    ensures { IsTrue result ↔ (first_of name.now (rows_of (found_of matches.now)) ≡
        Some (codes "true")) }
{
    match found(matches, name) {
        Some(text) => text == "true",
        None => false,
    }
}

/// The most instructions or events that are run.
pub fn limit(matches: &ArgMatches<'_>) -> Result<u32, UsageError>
    ensures number { IfOk result (λ number. IsOption usual_limit 1 highest_limit number
        (first_of (codes "limit") (rows_of (found_of matches.now)))) }
    ensures bad { IsErr result → (number : ℕ) → ¬ IsOption usual_limit 1 highest_limit number
        (first_of (codes "limit") (rows_of (found_of matches.now))) }
    ensures within { IfOk result (λ number. (1 ≤ number) × (number ≤ highest_limit)) }
    ensures refused { IfErr result (λ error. error ≡ UsageError.BadUsage) }
{
    number_or(matches, "limit", 100_000_000, 1, 1_000_000_000)
}

/// The number of an option, in a range, or what it is where the option is not given.
pub fn number_or(
    matches: &ArgMatches<'_>,
    name: &str,
    default: u32,
    least: u32,
    most: u32,
) -> Result<u32, UsageError>
    requires at_least { least ≤ default }
    requires at_most { default ≤ most }
    ensures number { IfOk result (λ number. IsOption default least most number (first_of name.now
        (rows_of (found_of matches.now)))) }
    ensures bad { IsErr result → (number : ℕ) → ¬ IsOption default least most number
        (first_of name.now (rows_of (found_of matches.now))) }
    ensures within { IfOk result (λ number. (least ≤ number) × (number ≤ most)) }
    ensures refused { IfErr result (λ error. error ≡ UsageError.BadUsage) }
{
    match found(matches, name) {
        Some(text) => in_range(text, least, most),
        None => Ok(default),
    }
}

/// The number of an option, in a range, if it is given.
pub fn number_if_given(
    matches: &ArgMatches<'_>,
    name: &str,
    least: u32,
    most: u32,
) -> Result<Option<u32>, UsageError>
    ensures number { IfOk result (λ number. IsNumberIfGiven least most number (first_of name.now
        (rows_of (found_of matches.now)))) }
    ensures bad { IsErr result → (number : Option ℕ) →
        ¬ IsNumberIfGiven least most number (first_of name.now (rows_of (found_of matches.now))) }
    ensures within { IfOk result (λ number. IfSome number (λ number. (least ≤ number) ×
        (number ≤ most))) }
    ensures refused { IfErr result (λ error. error ≡ UsageError.BadUsage) }
{
    match found(matches, name) {
        Some(text) => Ok(Some(in_range(text, least, most)?)),
        None => Ok(None),
    }
}

/// The number that a text writes in decimal, where it lies in a range.
pub fn in_range(text: &str, least: u32, most: u32) -> Result<u32, UsageError>
    ensures number { OkIff result (IsBetween least most text.now) (digits_value 10 text.now) }
    ensures refused { IfErr result (λ error. error ≡ UsageError.BadUsage) }
{
    match numeral(text.as_bytes(), 10, most) {
        Some(number) if number >= least => Ok(number),
        _ => Err(UsageError::BadUsage),
    }
}
