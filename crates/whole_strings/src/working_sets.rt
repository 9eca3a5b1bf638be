//! Working sets with every window.

ghost use Rattle.std.specs.Prelude.{◌≡◌, ◌<◌, ◌^◌, cond, nat_lt, length, slice_index_or, IfOk, List};
ghost use Rattle.clock_policy.specs.declared.key.Key.{Key};
ghost use Rattle.page_policies.specs.NextUses.{next_uses};
ghost use Rattle.whole_strings.specs.LruDepths.{noted};
ghost use Rattle.whole_strings.specs.WorkingSets.{IsWindowCurve, IsAhead, IsReturning, Inside};

use crate::lru_depths::note_hit;
use crate::string_uses::next_uses;
use clock_policy::Key;
use std::alloc::{AllocError, Global};

/// What a string comes to with a window of so many references.
#[derive(Clone, Copy, Debug, PartialEq, Eq)]
pub struct WindowCounts {
    /// How many pages the working set has after each reference, added up: a sum that stays at its last value.
    pub sizes: u64,
    /// How many references are to a page that is not in the working set before them.
    pub misses: usize,
}

/// For each number how many references have so many others before their page's next use, or else before the end.
fn count_ahead(alloc: Global, uses: &[usize]) -> Result<Vec<usize>, AllocError>
    requires { Inside uses.now }
    ensures { IfOk result (λ counts. (string : List Key) → uses.now ≡ next_uses string →
        IsAhead counts.items string) }
{
    let mut counts = vec![in alloc; 0usize; uses.len()]?;
    'uses: for at in 0..uses.len() {
        note_hit(counts.as_mut_slice(), uses[at]);
    }
    Ok(counts)
}

/// For each number how many references have so many others before their page's next use, where there is one.
fn count_returning(alloc: Global, uses: &[usize]) -> Result<Vec<usize>, AllocError>
    requires { Inside uses.now }
    ensures { IfOk result (λ counts. (string : List Key) → uses.now ≡ next_uses string →
        IsReturning counts.items string) }
{
    let mut counts = vec![in alloc; 0usize; uses.len()]?;
    'uses: for at in 0..uses.len() {
        note_return(counts.as_mut_slice(), uses[at], uses.len() - 1 - at);
    }
    Ok(counts)
}

/// A page's next use has so many references before it, and is one where so many are left.
fn note_return(counts: &mut [usize], ahead: usize, left: usize)
    requires inside { ahead < length counts.old }
    requires small { slice_index_or counts.old ahead 0 < 2 ^ 63 }
    ensures { counts.new ≡ cond (nat_lt ahead left) (noted ahead counts.old) counts.old }
{
    if ahead < left {
        note_hit(counts, ahead);
    }
}

/// The curve, by how far ahead pages are used again: with a window of one more each reference's page stays for one reference more, where
/// it is not used before.
fn add_up(alloc: Global, ahead: &[usize], again: &[usize]) -> Result<Vec<WindowCounts>, AllocError>
    requires { length again.now ≡ length ahead.now }
    ensures { IfOk result (λ curve. (string : List Key) → IsAhead ahead.now string →
        IsReturning again.now string → IsWindowCurve curve.items string) }
{
    let references = ahead.len();
    let mut curve = Vec::new(alloc);
    let mut sizes = 0u64;
    let mut below = 0usize;
    let mut found = 0usize;
    'windows: for window in 0..ahead.len() {
        sizes = sizes.saturating_add(references.saturating_sub(below) as u64);
        below = below.saturating_add(ahead[window]);
        found = found.saturating_add(again[window]);
        let misses = references.saturating_sub(found);
        curve.push(WindowCounts { sizes, misses })?;
    }
    Ok(curve)
}

/// What the working sets of a string come to with a window of 1, 2, 3 and more references, up to all of them. It takes one pass over the
/// string from its end on.
pub fn window_curve(alloc: Global, string: &[Key]) -> Result<Vec<WindowCounts>, AllocError>
    ensures { IfOk result (λ curve. IsWindowCurve curve.items string.now) }
{
    let uses = next_uses(alloc, string)?;
    let ahead = count_ahead(alloc, uses.as_slice())?;
    let again = count_returning(alloc, uses.as_slice())?;
    add_up(alloc, ahead.as_slice(), again.as_slice())
}
