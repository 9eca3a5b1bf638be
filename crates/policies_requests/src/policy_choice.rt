//! Which policies are asked for.

ghost use Rattle.std.specs.Prelude.{◌≡◌, true, IfOk};

use crate::fault::RequestFault;
use crate::options::{is_given, number_from};
use crate::policy_names::{has_word, policies_in, usual_policies};
use clap::ArgMatches;
use miss_counts::{PolicyName, PolicySet, TableSize, frames_for, has_part};
use page_policies::{Frames, USUAL_SEED};
use policies_tables::OPTIMUM;
use std::alloc::{AllocError, Global};

/// Why the optimum goes with none that are skipped.
const WHOLE: &str = "what the optimum misses is told of a whole string alone";

/// What `--seed` may be.
const SEEDS: &str = "a number from 0 to 4294967295";

/// Why the optimum writes no page back.
const NO_WRITE_BACKS: &str = "its misses are counted, and not which pages it has in frames";

/// The policies that a trace is played on, which marks writes or does not. The optimum goes with no references that are skipped.
pub(crate) fn replayed_policies<'a>(
    alloc: Global,
    matches: &ArgMatches<'a>,
    sizes: &[TableSize],
    skip: u32,
    has_writes: bool,
) -> Result<PolicySet, RequestFault<'a>>
    ensures whole { IfOk result (λ wanted. wanted.optimum ≡ true → skip ≡ 0) }
{
    let optimum = is_given(matches, "optimum");
    let wanted = wanted_policies(alloc, matches, optimum, optimum, sizes, has_writes)?;
    if skip > 0 && wanted.optimum {
        return Err(RequestFault::Together("skip", "optimum", WHOLE));
    }
    Ok(wanted)
}

/// The policies whose pages are written back: `all` is all but the optimum.
pub(crate) fn writing_policies<'a>(
    alloc: Global,
    matches: &ArgMatches<'a>,
    sizes: &[TableSize],
) -> Result<Vec<PolicyName>, RequestFault<'a>> {
    match matches.get_str("policies") {
        Some(list) if has_word(list, OPTIMUM) => {
            return Err(RequestFault::Value("policies", OPTIMUM, NO_WRITE_BACKS));
        }
        _ => {}
    }
    let PolicySet { policies, .. } = wanted_policies(alloc, matches, false, false, sizes, true)?;
    Ok(policies)
}

/// The policies that are named, or else the usual ones that serve each number of frames, with the optimum where that is usual; and
/// with the optimum too where that is added. It is refused where nothing is counted.
pub(crate) fn wanted_policies<'a>(
    alloc: Global,
    matches: &ArgMatches<'a>,
    usual: bool,
    added: bool,
    sizes: &[TableSize],
    has_writes: bool,
) -> Result<PolicySet, RequestFault<'a>> {
    let frames = plain_frames(alloc, sizes)?;
    let seed = seed(matches)?;
    let Some(list) = matches.get_str("policies") else {
        return Ok(usual_policies(alloc, frames.as_slice(), usual || added)?);
    };
    let named = policies_in(alloc, list, seed, has_writes)?;
    let optimum = named.optimum || added;
    served(
        PolicySet {
            policies: named.policies,
            optimum,
        },
        frames.as_slice(),
    )
}

/// The numbers of frames, or none where one of them follows from a string's pages.
fn plain_frames(alloc: Global, sizes: &[TableSize]) -> Result<Vec<Frames>, AllocError> {
    if has_part(sizes) {
        return Ok(Vec::new(alloc));
    }
    frames_for(alloc, sizes, 0)
}

/// The seed of `random`.
fn seed<'a>(matches: &ArgMatches<'a>) -> Result<u64, RequestFault<'a>> {
    let seed = number_from(matches, "seed", USUAL_SEED as u32, 0, u32::MAX, SEEDS)?;
    Ok(u64::from(seed))
}

/// These policies, where one of them serves one of the numbers of frames, or where the numbers are not known yet.
fn served<'a>(wanted: PolicySet, frames: &[Frames]) -> Result<PolicySet, RequestFault<'a>> {
    match frames.first() {
        Some(first) if !wanted.is_counted(frames) => {
            Err(RequestFault::ClockProFrames(first.number()))
        }
        _ => Ok(wanted),
    }
}
