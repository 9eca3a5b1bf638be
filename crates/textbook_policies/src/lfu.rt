//! LFU.

ghost use Rattle.std.specs.Prelude.{◌≡◌, refl, IfOk, OnOk};
ghost use Rattle.page_policies.specs.Strings.{misses as misses_by};
ghost use Rattle.textbook_policies.specs.Lfu.{in_lfu, lfu, lfu_misses, ranks_of};

use crate::ranked::Ranked;
use crate::ranking::Ranking;
use clock_policy::Key;
use page_policies::{Frames, HitOrMiss, Policy, PolicyRefusal};
use std::alloc::{AllocError, Global};

/// Least frequently used: the page leaves that was used least since it came in, of equals the one that came in first.
#[derive(Drop)]
pub struct Lfu {
    frames: usize,
    pages: Ranking,
    comings: u64,
}

impl Lfu {
    /// A page is used. Whether it was in a frame.
    fn step(&mut self, page: Key) -> Result<bool, AllocError>
        ensures hit { IfOk result (λ hit. hit ≡ in_lfu page (ranks_of self.old)) }
        ensures ranks { OnOk result (ranks_of self.new ≡ lfu self.old.frames page (ranks_of
            self.old)) }
        ensures frames { self.new.frames ≡ self.old.frames }
    {
        if let Some(rank) = self.pages.take(page) {
            let uses = rank.first.saturating_add(1);
            self.pages.put(page, Ranked::new(uses, rank.second, page))?;
            return Ok(true);
        }
        self.pages.make_room(self.frames);
        self.pages.put(page, Ranked::new(1, self.comings, page))?;
        self.comings = self.comings.saturating_add(1);
        Ok(false)
    }
}

impl Policy for Lfu {
    ghost use Rattle.std.specs.Prelude.{⊤};

    ghost misses = { lfu_misses };

    ghost to_miss = { λ policy string. misses_by in_lfu (lfu policy.frames) (ranks_of policy) string };

    ghost refuses = { λ number. ⊥ };

    ghost grows = { λ policy page. ⊤ };

    ghost none_to_miss = { λ policy. refl };

    #[tactic(auto, unfolding(crate::specs::Lfu::lfu_misses))]
    fn new(alloc: Global, frames: Frames) -> Result<Self, PolicyRefusal> {
        Ok(Lfu {
            frames: frames.number(),
            pages: Ranking::new(alloc),
            comings: 0,
        })
    }

    fn refer(&mut self, page: Key) -> Result<HitOrMiss, AllocError> {
        if self.step(page)? {
            Ok(HitOrMiss::Hit)
        } else {
            Ok(HitOrMiss::Miss)
        }
    }
}
