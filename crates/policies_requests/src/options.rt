//! What single options say.

ghost use Rattle.std.specs.Prelude.{◌≡◌, ◌≤◌, ◌↔◌, Some, codes, map, option_map, IfOk, IsTrue};
ghost use Rattle.clap.specs.Matches.{found_of};
ghost use Rattle.clap.specs.Walk.{all_of, first_of, rows_of};
ghost use Rattle.policies_requests.specs.Options.{AsksPrinting, IsOption, IsSet};

use crate::fault::RequestFault;
use crate::frame_lists::{ListFault, sizes_in};
use clap::ArgMatches;
use miss_counts::TableSize;
use policies_tables::Printing;
use std::alloc::Global;
use text_lines::numeral;

/// What a list of frames may be.
const FRAMES: &str =
    "numbers from 1 to 16777216, ranges of them, as 4-64 or 4-64x2, or parts of the pages, as 0.1%, parted by commas";

/// The value of an argument, if it is given.
#[tactic(auto, using(crate::proofs::Rows::value_by_rows))]
pub(crate) fn found<'a>(matches: &ArgMatches<'a>, name: &str) -> Option<&'a str>
    ensures { option_map (λ text. text.now) result ≡ first_of name.now
        (rows_of (found_of matches.now)) }
{
    matches.get_str(name)
}

/// The values of an argument that may be given several times.
#[tactic(auto, using(crate::proofs::Rows::values_by_rows))]
pub(crate) fn all<'m, 'a>(matches: &'m ArgMatches<'a>, name: &str) -> Option<&'m [&'a str]>
    ensures { option_map (λ texts. map (λ text. text.now) texts.now) result ≡ all_of name.now
        (rows_of (found_of matches.now)) }
{
    matches.get_strs(name)
}

/// Whether a flag is given.
pub(crate) fn is_given(matches: &ArgMatches<'_>, name: &str) -> bool
    ensures { IsTrue result ↔ IsSet name.now (rows_of (found_of matches.now)) }
{
    match found(matches, name) {
        Some(text) => text == "true",
        None => false,
    }
}

/// The name of the trace.
pub(crate) fn trace<'a>(matches: &ArgMatches<'a>) -> Result<&'a str, RequestFault<'a>>
    ensures { IfOk result (λ trace. first_of (codes "trace") (rows_of (found_of matches.now)) ≡
        Some trace.now) }
{
    match found(matches, "trace") {
        Some(trace) => Ok(trace),
        None => Err(RequestFault::BadUsage),
    }
}

pub(crate) fn printing(matches: &ArgMatches<'_>) -> Printing
    ensures { AsksPrinting (rows_of (found_of matches.now)) result }
{
    Printing {
        is_csv: is_given(matches, "csv"),
        is_ratio: is_given(matches, "ratio"),
    }
}

/// The number of an option, or what it is where the option is not given.
pub(crate) fn number_from<'a>(
    matches: &ArgMatches<'a>,
    name: &'static str,
    default: u32,
    least: u32,
    most: u32,
    allowed: &'static str,
) -> Result<u32, RequestFault<'a>>
    ensures number { IfOk result (λ number. IsOption default least most number (first_of name.now
        (rows_of (found_of matches.now)))) }
    ensures within { default ≤ most → IfOk result (λ number. number ≤ most) }
{
    let Some(text) = found(matches, name) else {
        return Ok(default);
    };
    match numeral(text.as_bytes(), 10, most) {
        Some(number) if number >= least => Ok(number),
        _ => Err(RequestFault::Value(name, text, allowed)),
    }
}

/// The numbers of frames that a list has.
pub(crate) fn listed_sizes<'a>(
    alloc: Global,
    list: &'a str,
) -> Result<Vec<TableSize>, RequestFault<'a>> {
    match sizes_in(alloc, list) {
        Ok(sizes) => Ok(sizes),
        Err(fault) => Err(list_wrong(fault, list)),
    }
}

fn list_wrong<'a>(fault: ListFault<'a>, list: &'a str) -> RequestFault<'a> {
    match fault {
        ListFault::NoMemory => RequestFault::NoMemory,
        ListFault::Word(word) => RequestFault::Value("frames", word, FRAMES),
        ListFault::TooMany => RequestFault::Value("frames", list, "4096 numbers at most"),
    }
}
