//! What every policy owes.

ghost use Rattle.std.specs.Prelude.{◌≡◌, ℕ, ◌+◌, List, [], ◌∷◌, IfOk, OnErr, ◌↔◌, Err, zero};
ghost use Rattle.clock_policy.specs.declared.key.Key.{Key};
ghost use Rattle.page_policies.specs.HitsAndMisses.{miss_count};

use crate::frames::Frames;
use crate::refusal::PolicyRefusal;
use clock_policy::Key;
use std::alloc::{AllocError, Global};

/// Whether a reference found its page in a frame.
#[derive(Clone, Copy, Debug, PartialEq, Eq)]
pub enum HitOrMiss {
    Hit,
    Miss,
}

/// A replacement policy and what it has in its frames, in the memory of the pages.
///
/// After an error nothing is said of it.
pub trait Policy: Drop {
    /// How many references of a string miss with so many frames that are empty at first, by the policy's definition.
    ghost misses: { ℕ → List Key → ℕ };

    /// How many references of a string would miss from here on.
    ghost to_miss: { Self → List Key → ℕ };

    /// Which numbers of frames the policy does not serve, of those that `Frames` may be.
    ghost refuses: { ℕ → Type 0 };

    /// Whether a reference to the page may want memory: one for which nothing grows does not.
    ghost grows: { Self → Key → Type 0 };

    /// The policy with all its frames empty.
    fn new(alloc: Global, frames: Frames) -> Result<Self, PolicyRefusal>
        ensures misses { IfOk result (λ policy. (string : List Key) →
            to_miss policy string ≡ misses frames.number string) }
        ensures bad_size { (result ≡ Err PolicyRefusal.BadSize) ↔ refuses frames.number };

    /// A page is used.
    fn refer(&mut self, page: Key) -> Result<HitOrMiss, AllocError>
        ensures outcome { IfOk result (λ outcome. (string : List Key) → to_miss self.old (page ∷
            string) ≡ miss_count outcome + to_miss self.new string) }
        ensures memory { OnErr result (grows self.old page) };

    ghost none_to_miss: { (policy : Self) → to_miss policy [] ≡ 0 };
}

/// How many references of the string miss under the policy with so many frames.
pub fn misses<P: Policy>(
    alloc: Global,
    frames: Frames,
    string: &[Key],
) -> Result<usize, PolicyRefusal>
    ensures count { IfOk result (λ count. count ≡ P.misses frames.number string.now) }
    ensures bad_size { (result ≡ Err PolicyRefusal.BadSize) ↔ P.refuses frames.number }
{
    let mut policy = P::new(alloc, frames)?;
    let mut count = 0;
    for page in string {
        match policy.refer(*page)? {
            HitOrMiss::Hit => {}
            HitOrMiss::Miss => count += 1,
        }
    }
    Ok(count)
}
