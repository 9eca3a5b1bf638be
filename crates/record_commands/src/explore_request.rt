//! From words to a request for `guest explore`.

use crate::explore_words::guest;
use crate::request::{By, ExploreRequest};
use clap::ArgMatches;
use guest_io::{UsageFault, is_given, number, text, wrong_words};
use std::alloc::Global;
use std::convert::AsStr;
use text_lines::numeral;

/// How many runs there are where no number is asked for, and the first seed.
const USUAL_RUNS: u32 = 100;

const USUAL_SEED: u32 = 1;

/// After how many steps a run is ended then.
const USUAL_LIMIT: u32 = 1_000_000;

/// The depth of faults that priorities are for then.
const USUAL_DEPTH: u32 = 3;

const DEEPEST: u32 = 100;

/// The request that the words after the program's name make.
pub(crate) fn read_request<'a, S: AsStr>(
    alloc: Global,
    words: &'a [S],
    is_watched: bool,
) -> Result<ExploreRequest<'a>, UsageFault<'a>> {
    match guest(alloc)?.try_get_matches_from(words) {
        Ok(matches) => match matches.subcommand() {
            Some((_, matches)) => request_of(matches, is_watched),
            None => request_of(&matches, is_watched),
        },
        Err(error) => Err(wrong_words(alloc, &error)),
    }
}

/// The request of words that are those of the command.
fn request_of<'a>(
    matches: &ArgMatches<'a>,
    is_watched: bool,
) -> Result<ExploreRequest<'a>, UsageFault<'a>> {
    let (seed, runs) = seeds(matches)?;
    let limit = number(matches, "limit", 1, u32::MAX)?.unwrap_or(USUAL_LIMIT);
    Ok(ExploreRequest {
        runs,
        seed,
        until: number(matches, "until", 1, u32::MAX)?,
        limit: u64::from(limit),
        by: by(matches)?,
        folder: matches.get_str("save"),
        is_csv: is_given(matches, "csv"),
        is_watched,
        image: text(matches, "image"),
    })
}

/// The first seed, and how many runs there are.
fn seeds<'a>(matches: &ArgMatches<'a>) -> Result<(u32, u32), UsageFault<'a>> {
    let runs = number(matches, "runs", 1, u32::MAX)?;
    let seed = number(matches, "seed", 0, u32::MAX)?;
    let Some(word) = matches.get_str("seeds") else {
        return Ok((seed.unwrap_or(USUAL_SEED), runs.unwrap_or(USUAL_RUNS)));
    };
    if runs.is_some() {
        return Err(not_with("runs", "with --seeds"));
    }
    if seed.is_some() {
        return Err(not_with("seed", "with --seeds"));
    }
    match seeds_of(word) {
        Some(seeds) => Ok(seeds),
        None => Err(UsageFault::Word {
            name: "seeds",
            word,
            wanted: "FIRST..LAST is wanted, two numbers up to 4294967295, and less than 4294967296 seeds",
        }),
    }
}

/// The first seed of `FIRST..LAST`, and how many seeds these are, which are one at least.
fn seeds_of(word: &str) -> Option<(u32, u32)> {
    let (first, last) = word.split_once("..")?;
    let first = numeral(first.as_bytes(), 10, u32::MAX)?;
    let last = numeral(last.as_bytes(), 10, u32::MAX)?;
    let runs = last.checked_sub(first)?.checked_add(1)?;
    Some((first, runs))
}

/// How the turns of a run are chosen.
fn by<'a>(matches: &ArgMatches<'a>) -> Result<By, UsageFault<'a>> {
    let depth = number(matches, "depth", 1, DEEPEST)?;
    let Some(word) = matches.get_str("by") else {
        return by_turns(depth);
    };
    if word == "turns" {
        return by_turns(depth);
    }
    if word != "priorities" {
        return Err(UsageFault::Word {
            name: "by",
            word,
            wanted: "turns or priorities is wanted",
        });
    }
    Ok(By::Priorities {
        depth: depth.unwrap_or(USUAL_DEPTH),
    })
}

fn by_turns<'a>(depth: Option<u32>) -> Result<By, UsageFault<'a>> {
    match depth {
        Some(_) => Err(not_with("depth", "without --by priorities")),
        None => Ok(By::Turns),
    }
}

fn not_with<'a>(option: &'static str, with: &'static str) -> UsageFault<'a> {
    UsageFault::Option { option, with }
}
