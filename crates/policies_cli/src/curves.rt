//! What is counted of a trace with every number of frames, or with every window.

ghost use Rattle.std.specs.Prelude.{◌≡◌, ◌≤◌, ◌<◌, ℕ, length, IfOk, IfErr};
ghost use Rattle.page_policies.specs.PolicyFrames.{most_policy_frames};
ghost use Rattle.whole_strings.specs.LruDepths.{IsLruCurve};
ghost use Rattle.whole_strings.specs.OptimumCurve.{IsOptimumCurve};
ghost use Rattle.whole_strings.specs.PageCounts.{page_count};
ghost use Rattle.policies_cli.specs.Curves.{AreCurves, AreWindows, IsEstimate, OptimumWhere};
ghost use Rattle.policies_cli.specs.declared.wrong.Wrong.TheVariants.{ManyPages};

use crate::wrong::Wrong;
use clock_policy::Key;
use page_policies::{Frames, MOST_POLICY_FRAMES};
use policies_tables::Sample;
use std::alloc::{AllocError, Global};
use std::num::NonZeroU32;
use whole_strings::{WindowCounts, lru_curve, optimum_curve, window_curve};

/// What a string misses with 1, 2 and more frames, up to as many as it has pages.
#[derive(Drop)]
pub struct Curves {
    pub lru: Vec<usize>,
    /// None where it is not asked for.
    pub optimum: Vec<usize>,
    /// How many references the string has.
    pub references: u64,
}

/// What LRU misses of a sample, and what it is a sample of.
#[derive(Drop)]
pub struct Estimate {
    pub lru: Vec<usize>,
    pub of: Sample,
}

/// What a string comes to with a window of 1, 2 and more references.
#[derive(Drop)]
pub struct Windows {
    pub curve: Vec<WindowCounts>,
    /// How many references the string has.
    pub references: u64,
}

/// LRU in one pass, and the optimum in another where that is asked for. More pages than a policy may have frames are refused.
pub(crate) fn curves_of<'a>(
    alloc: Global,
    string: &[Key],
    has_optimum: bool,
) -> Result<Curves, Wrong<'a>>
    ensures curves { IfOk result (AreCurves has_optimum string.now) }
    ensures refused { IfErr result (λ wrong. (pages : ℕ) → wrong ≡ ManyPages pages → (pages ≡
        page_count string.now) × (most_policy_frames < pages)) }
{
    let lru = lru_curve(alloc, string)?;
    if lru.len() > MOST_POLICY_FRAMES {
        return Err(Wrong::ManyPages(lru.len()));
    }
    let optimum = optimum_where(alloc, string, lru.len(), has_optimum)?;
    Ok(Curves {
        lru,
        optimum,
        references: string.len() as u64,
    })
}

/// What the optimum misses with 1, 2 and more frames, up to so many, where it is asked for.
fn optimum_where(
    alloc: Global,
    string: &[Key],
    pages: usize,
    has_optimum: bool,
) -> Result<Vec<usize>, AllocError>
    requires { pages ≤ most_policy_frames }
    ensures { IfOk result (λ curve. OptimumWhere has_optimum pages curve.items string.now) }
{
    if !has_optimum {
        return Ok(Vec::new(alloc));
    }
    let curve = optimum_up_to(alloc, string, pages)?;
    Ok(curve)
}

/// The same where it is.
#[tactic(auto, using(whole_strings::proofs::OptimumCurveLaws::no_curve))]
fn optimum_up_to(alloc: Global, string: &[Key], pages: usize) -> Result<Vec<usize>, AllocError>
    requires { pages ≤ most_policy_frames }
    ensures { IfOk result (λ curve. IsOptimumCurve pages curve.items string.now) }
{
    match Frames::new(pages) {
        Some(most) => optimum_curve(alloc, string, most),
        None => Ok(Vec::new(alloc)),
    }
}

/// What LRU misses of a sample of one page in so many, of a string of so many references.
pub(crate) fn estimate_of(
    alloc: Global,
    sample: &[Key],
    one_in: NonZeroU32,
    references: u64,
) -> Result<Estimate, AllocError>
    ensures { IfOk result (IsEstimate one_in.value references sample.now) }
{
    let lru = lru_curve(alloc, sample)?;
    let of = Sample {
        one_in: one_in.get(),
        sampled: sample.len() as u64,
        references,
    };
    Ok(Estimate { lru, of })
}

/// The working sets with every window.
pub(crate) fn windows_of(alloc: Global, string: &[Key]) -> Result<Windows, AllocError>
    ensures { IfOk result (AreWindows string.now) }
{
    let curve = window_curve(alloc, string)?;
    Ok(Windows {
        curve,
        references: string.len() as u64,
    })
}
