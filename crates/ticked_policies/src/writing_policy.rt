//! What a policy owes that knows which references write.

ghost use Rattle.std.specs.Prelude.{◌≡◌, ℕ, ◌+◌, List, [], ◌∷◌, IfOk, OnErr};
ghost use Rattle.clock_policy.specs.declared.key.Key.{Key};
ghost use Rattle.ticked_policies.specs.declared.page_use.PageUse.{PageUse};
ghost use Rattle.page_policies.specs.HitsAndMisses.{miss_count};

use crate::page_use::PageUse;
use page_policies::HitOrMiss;
use std::alloc::AllocError;

/// A replacement policy, as `Policy`, to which each reference says whether it writes.
///
/// After an error nothing is said of it.
pub trait WritingPolicy: Drop {
    /// How many references of a string would miss from here on.
    ghost to_miss: { Self → List PageUse → ℕ };

    /// Whether a reference to the page may want memory: one for which nothing grows does not.
    ghost grows: { Self → Key → Type 0 };

    /// A page is used.
    fn refer(&mut self, page_use: PageUse) -> Result<HitOrMiss, AllocError>
        ensures outcome { IfOk result (λ outcome. (string : List PageUse) → to_miss self.old
            (page_use ∷ string) ≡ miss_count outcome + to_miss self.new string) }
        ensures memory { OnErr result (grows self.old page_use.page) };

    ghost none_to_miss: { (policy : Self) → to_miss policy [] ≡ 0 };
}
