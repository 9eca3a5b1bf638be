//! The optimum with one number of frames.

ghost use Rattle.std.specs.Prelude.{◌≡◌, ◌+◌, ◌<◌, ◌^◌, not, List, IfOk};
ghost use Rattle.clock_policy.specs.declared.key.Key.{Key};
ghost use Rattle.page_policies.specs.Optimal.{optimal_misses};
ghost use Rattle.page_policies.specs.NextUses.{next_uses};
ghost use Rattle.whole_strings.specs.NextPlaces.{place, Due, Roomed, Refers};

use page_policies::Frames;
use std::alloc::{AllocError, Global};
use std::collections::BTreeSet;

/// The place of a next use in a string of so many references, from how many others come before it; past the end, and of its own, where
/// the page is never used again.
pub(crate) fn next_place(length: usize, at: usize, ahead: usize) -> usize
    requires inside { at < length }
    requires small { length < 2 ^ 63 }
    ensures { result ≡ place length at ahead }
{
    if ahead < length - at - 1 {
        at + 1 + ahead
    } else {
        length + at
    }
}

/// Takes the page of the reference at `at` out where it is there, which it is exactly where the least place is `at`.
fn take_due(resident: &mut BTreeSet<usize>, at: usize) -> bool
    ensures { Due at resident.old.keys resident.new.keys result }
{
    let due = match resident.first() {
        Some(first) => *first == at,
        None => false,
    };
    if due {
        resident.pop_first();
    }
    due
}

/// Where each frame has a page the one leaves whose next use is farthest.
fn make_room(resident: &mut BTreeSet<usize>, frames: usize)
    requires { 0 < frames }
    ensures { Roomed frames resident.old.keys resident.new.keys }
{
    if frames <= resident.len() {
        resident.pop_last();
    }
}

/// The reference at `at`, whose page is used next at `next`. Whether it hit.
fn refer(
    resident: &mut BTreeSet<usize>,
    frames: usize,
    at: usize,
    next: usize,
) -> Result<bool, AllocError>
    requires { 0 < frames }
    ensures { IfOk result (λ hit. Refers frames at next resident.old.keys resident.new.keys hit) }
{
    let hit = take_due(resident, at);
    if !hit {
        make_room(resident, frames);
    }
    match resident.insert(next) {
        Ok(_) => Ok(hit),
        Err(_) => Err(AllocError),
    }
}

/// How many references miss with so many frames, from how far ahead each page is used again.
pub(crate) fn count_misses(
    uses: &[usize],
    alloc: Global,
    frames: Frames,
) -> Result<usize, AllocError>
    ensures { IfOk result (λ count. (string : List Key) → uses.now ≡ next_uses string →
        count ≡ optimal_misses frames.number string) }
{
    let mut resident = BTreeSet::new(alloc);
    let mut count = 0;
    for at in 0..uses.len() {
        let next = next_place(uses.len(), at, uses[at]);
        if !refer(&mut resident, frames.number(), at, next)? {
            count += 1;
        }
    }
    Ok(count)
}
