//! Linux's two lists.

ghost use Rattle.std.specs.Prelude.{◌≡◌, refl, true, false, List, IfOk};
ghost use Rattle.std.specs.HashSet.{contains};
ghost use Rattle.clock_policy.specs.declared.key.Key.{Key};
ghost use Rattle.page_policies.specs.Strings.{holds, is_page, misses as misses_by};
ghost use Rattle.kernel_policies.specs.TwoLists.{in_lists, lists_of, two_lists, two_lists_misses};
ghost use Rattle.kernel_policies.specs.TwoLists.{usual_parts};

use crate::lists::Lists;
use crate::two_lists_parts::TwoListsParts;
use clock_policy::Key;
use page_policies::{Frames, HitOrMiss, Policy, PolicyRefusal};
use std::alloc::{AllocError, Global};
use ticked_policies::Arrival;

/// Linux's two lists: a page that is used again becomes active, at once where it left not long ago.
#[derive(Drop)]
pub struct TwoLists {
    frames: usize,
    ratio: usize,
    arrival: Arrival,
    lists: Lists,
}

impl TwoLists {
    /// With its frames empty.
    pub fn with_parts(
        alloc: Global,
        frames: Frames,
        parts: TwoListsParts,
    ) -> Result<Self, AllocError>
        ensures { IfOk result (λ policy. (string : List Key) → ⟦<TwoLists as Policy>⟧.to_miss policy
            string ≡ two_lists_misses parts frames.number string) }
    {
        Ok(TwoLists {
            frames: frames.number(),
            ratio: parts.ratio(frames),
            arrival: parts.arrival,
            lists: Lists::new(alloc)?,
        })
    }
}

impl Policy for TwoLists {
    ghost misses = { two_lists_misses usual_parts };

    ghost to_miss = { λ policy string. misses_by in_lists (two_lists policy.frames policy.ratio
        policy.arrival) (lists_of policy.lists) string };

    ghost refuses = { λ number. ⊥ };

    ghost grows = { λ policy page. holds page policy.lists.active ≡ true →
        contains is_page policy.lists.referenced page ≡ false };

    ghost none_to_miss = { λ policy. refl };

    fn new(alloc: Global, frames: Frames) -> Result<Self, PolicyRefusal> {
        Ok(TwoLists::with_parts(alloc, frames, TwoListsParts::USUAL)?)
    }

    fn refer(&mut self, page: Key) -> Result<HitOrMiss, AllocError> {
        if self
            .lists
            .step(self.frames, self.ratio, self.arrival, page)?
        {
            Ok(HitOrMiss::Hit)
        } else {
            Ok(HitOrMiss::Miss)
        }
    }
}
