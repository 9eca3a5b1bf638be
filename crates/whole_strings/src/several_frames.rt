//! What the optimum misses with several numbers of frames.

ghost use Rattle.std.specs.Prelude.{◌≡◌, ◌+◌, ◌<◌, ◌^◌, cond, nat_lt, max, List, length, map, IfOk};
ghost use Rattle.clock_policy.specs.declared.key.Key.{Key};
ghost use Rattle.page_policies.specs.Optimal.{optimal_misses};
ghost use Rattle.page_policies.specs.NextUses.{next_uses};
ghost use Rattle.whole_strings.specs.OptimumCurve.{IsOptimumCurve};
ghost use Rattle.whole_strings.specs.OptimumCounts.{count_up_to, is_shared, shared_depth};

use crate::each_optimum::curve_of;
use crate::optimum::count_misses;
use crate::string_uses::next_uses;
use clock_policy::Key;
use page_policies::Frames;
use std::alloc::{AllocError, Global};

/// So many places of the stack are passed in about the time that a reference takes with one number of frames.
const PLACES_A_PASS: usize = 64;

/// One more where the number is at most so many.
fn count_if(count: usize, number: usize, most: usize) -> usize
    requires { count < 2 ^ 63 }
    ensures { result ≡ count + cond (nat_lt most number) 0 1 }
{
    if most < number { count } else { count + 1 }
}

/// How many of the numbers are at most so many.
fn count_up_to(frames: &[Frames], most: usize) -> usize
    ensures { result ≡ count_up_to most frames.now }
{
    let mut count = 0;
    'frames: for number in frames {
        count = count_if(count, number.number(), most);
    }
    count
}

/// Whether the stack down to this number of frames takes no longer than a pass for each of the numbers up to it.
fn is_shared(frames: &[Frames], number: usize) -> bool
    ensures { result ≡ is_shared frames.now number }
{
    number.saturating_sub(1) / PLACES_A_PASS < count_up_to(frames, number)
}

/// The number where that is so and it is greater, or else what was found before.
fn deeper(frames: &[Frames], depth: usize, number: usize) -> usize
    ensures { result ≡ cond (is_shared frames.now number) (max number depth) depth }
{
    if is_shared(frames, number) {
        number.max(depth)
    } else {
        depth
    }
}

/// The greatest of the numbers for which that is so; 0 where it is for none.
fn shared_depth(frames: &[Frames]) -> usize
    ensures { result ≡ shared_depth frames.now }
{
    let mut depth = 0;
    'frames: for number in frames {
        depth = deeper(frames, depth, number.number());
    }
    depth
}

/// What the optimum misses with so many frames, from its curve where that goes so far, and else from how far ahead each page is used again.
fn count_of(
    alloc: Global,
    uses: &[usize],
    curve: &[usize],
    frames: Frames,
) -> Result<usize, AllocError>
    ensures { IfOk result (λ count. (string : List Key) → uses.now ≡ next_uses string →
        IsOptimumCurve (length curve.now) curve.now string →
        count ≡ optimal_misses frames.number string) }
{
    match curve.get(frames.number() - 1) {
        Some(count) => Ok(*count),
        None => count_misses(uses, alloc, frames),
    }
}

/// What the optimum misses of a string with each of these numbers of frames. It takes one pass over the string for all of them but those
/// that are large for how few they are, and one for each of those.
pub fn optimum_counts(
    alloc: Global,
    string: &[Key],
    frames: &[Frames],
) -> Result<Vec<usize>, AllocError>
    ensures { IfOk result (λ counts. counts.items ≡ map (λ f. optimal_misses f.number string.now)
        frames.now) }
{
    let uses = next_uses(alloc, string)?;
    let curve = curve_of(alloc, string, uses.as_slice(), shared_depth(frames))?;
    let mut counts = Vec::new(alloc);
    'frames: for number in frames {
        counts.push(count_of(alloc, uses.as_slice(), curve.as_slice(), *number)?)?;
    }
    Ok(counts)
}
