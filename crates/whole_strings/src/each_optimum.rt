//! What the optimum misses with every number of frames.

ghost use Rattle.std.specs.Prelude.{◌≡◌, ◌+◌, ◌-◌, ◌<◌, ◌≤◌, ◌^◌, ◌++◌, ◌∷◌, [], ℕ, cond, nat_lt, take, length, slice_index_or, slice_set, IfOk, OnOk, MatchOption};
ghost use Rattle.page_policies.specs.NextUses.{next_uses};
ghost use Rattle.whole_strings.specs.LruDepths.{hits_within, referred};
ghost use Rattle.whole_strings.specs.OptimumCurve.{IsOptimumCurve, FallsTo};
ghost use Rattle.whole_strings.specs.OptimumStack.{nearer, farther, place_depth, restacked, CountsOptimum};

use crate::lru_depths::note_depth;
use crate::optimum::next_place;
use crate::string_uses::next_uses;
use clock_policy::Key;
use page_policies::Frames;
use std::alloc::{AllocError, Global};

/// Of two places the nearer one.
fn nearer(a: usize, b: usize) -> usize
    ensures { result ≡ nearer a b }
{
    if b < a { b } else { a }
}

/// Of two places the farther one.
fn farther(a: usize, b: usize) -> usize
    ensures { result ≡ farther a b }
{
    if b < a { a } else { b }
}

/// Of the place that is here and the one that is carried, the nearer stays, and the farther is carried on.
fn pass(places: &mut [usize], here: usize, carried: usize) -> usize
    requires { here < length places.old }
    ensures places { places.new ≡ slice_set places.old here (nearer carried (slice_index_or
        places.old here 0)) }
    ensures carried { result ≡ farther carried (slice_index_or places.old here 0) }
{
    let place = places[here];
    places[here] = nearer(carried, place);
    farther(carried, place)
}

/// Puts the place first, and carries down what was first. Returns how many were before `at`, and what is carried past the end.
fn carry_down(places: &mut [usize], at: usize, next: usize) -> (usize, Option<usize>)
    requires { 0 < length places.old }
    ensures depth { result.0 ≡ place_depth at places.old }
    ensures places { MatchOption result.1 (restacked at next places.old ≡ places.new) (λ left.
        restacked at next places.old ≡ places.new ++ left ∷ []) }
    ensures size { length places.new ≡ length places.old }
{
    let mut carried = places[0];
    places[0] = next;
    if carried == at {
        return (0, None);
    }
    'places: for here in 1..places.len() {
        if places[here] == at {
            places[here] = carried;
            return (here, None);
        }
        carried = pass(places, here, carried);
    }
    (places.len(), Some(carried))
}

/// The reference at `at`, whose page is used next at `next`, where at most so many first places of the stack are known. Returns how many
/// were before its own; where it is none of these, how many there were.
fn restack(stack: &mut Vec<usize>, most: usize, at: usize, next: usize) -> Result<usize, AllocError>
    requires some { 0 < most }
    requires few { length stack.old.items ≤ most }
    ensures stack { OnOk result (stack.new.items ≡ take most (restacked at next stack.old.items)) }
    ensures depth { IfOk result (λ depth. depth ≡ place_depth at stack.old.items) }
{
    if stack.is_empty() {
        stack.push(next)?;
        return Ok(0);
    }
    let (depth, left) = carry_down(stack.as_mut_slice(), at, next);
    if let Some(place) = left {
        if stack.len() < most {
            stack.push(place)?;
        }
    }
    Ok(depth)
}

/// One hit more at this depth, or a page more, where so many depths are counted at most.
fn note_within(hits: &mut Vec<usize>, depth: usize, most: usize) -> Result<(), AllocError>
    requires { (d : ℕ) → d < length hits.old.items → slice_index_or hits.old.items d 0 < 2 ^ 63 }
    ensures { OnOk result (hits.new.items ≡ cond (nat_lt depth most) (referred depth hits.old.items)
        hits.old.items) }
{
    if depth < most {
        note_depth(hits, depth)?;
    }
    Ok(())
}

/// How many references of a string find their place at each of the stack's first depths, so many at most, from how far ahead each page is
/// used again.
fn count_hits(
    alloc: Global,
    string: &[Key],
    uses: &[usize],
    most: usize,
) -> Result<Vec<usize>, AllocError>
    requires uses { uses.now ≡ next_uses string.now }
    requires some { 0 < most }
    ensures { IfOk result (λ hits. CountsOptimum most hits.items string.now) }
{
    let _ = string;
    let mut stack = Vec::new(alloc);
    let mut hits = Vec::new(alloc);
    'references: for at in 0..uses.len() {
        let next = next_place(uses.len(), at, uses[at]);
        let depth = restack(&mut stack, most, at, next)?;
        note_within(&mut hits, depth, most)?;
    }
    Ok(hits)
}

/// How many hits there are at a depth; past the last one none.
fn hits_at(hits: &[usize], depth: usize) -> usize
    ensures { result ≡ slice_index_or hits.now depth 0 }
{
    match hits.get(depth) {
        Some(count) => *count,
        None => 0,
    }
}

/// From so many misses without frames those with 1, 2 and more, up to so many.
fn falls(
    alloc: Global,
    hits: &[usize],
    references: usize,
    most: usize,
) -> Result<Vec<usize>, AllocError>
    ensures { IfOk result (λ curve. FallsTo most references hits.now curve.items) }
{
    let mut left = references;
    let mut curve = Vec::new(alloc);
    'depths: for depth in 0..most {
        left = left.saturating_sub(hits_at(hits, depth));
        curve.push(left)?;
    }
    Ok(curve)
}

/// What the optimum misses of a string with 1, 2, 3 and more frames, up to so many, from how far ahead each page is used again.
#[tactic(auto, using(crate::proofs::OptimumCurveLaws::falls_are, crate::proofs::OptimumCurveLaws::no_curve))]
pub(crate) fn curve_of(
    alloc: Global,
    string: &[Key],
    uses: &[usize],
    most: usize,
) -> Result<Vec<usize>, AllocError>
    requires { uses.now ≡ next_uses string.now }
    ensures { IfOk result (λ curve. IsOptimumCurve most curve.items string.now) }
{
    if most == 0 {
        return Ok(Vec::new(alloc));
    }
    let hits = count_hits(alloc, string, uses, most)?;
    falls(alloc, hits.as_slice(), string.len(), most)
}

/// What the optimum misses of a string with 1, 2, 3 and more frames, up to so many. It takes one pass over the string, and for each
/// reference time in proportion to the pages before its own in the order of the optimum's stack, but to so many of them at most.
pub fn optimum_curve(alloc: Global, string: &[Key], most: Frames) -> Result<Vec<usize>, AllocError>
    ensures { IfOk result (λ curve. IsOptimumCurve most.number curve.items string.now) }
{
    let uses = next_uses(alloc, string)?;
    curve_of(alloc, string, uses.as_slice(), most.number())
}
