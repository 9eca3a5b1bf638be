//! CLOCK-Pro as the machine plays it.

ghost use Rattle.std.specs.Prelude.{◌≡◌, ◌<◌, ◌⊎◌, refl, true, false};
ghost use Rattle.std.specs.HashSet.{contains};
ghost use Rattle.clock_policy.specs.FrameCounts.{least_frames, most_frames};
ghost use Rattle.page_policies.specs.Strings.{is_page, misses as misses_by};
ghost use Rattle.younger_policies.specs.ClockProPlay.{in_play, clock_pro_used};
ghost use Rattle.younger_policies.specs.ClockProPlay.{clock_pro_used_misses, play_of};

use crate::clock_pro::{is_resident_kind, mark_used, new_clock, place};
use clock_policy::{Clock, Key};
use page_policies::{Frames, HitOrMiss, Policy, PolicyRefusal};
use std::alloc::{AllocError, Global};
use std::collections::HashSet;

/// CLOCK-Pro as the machine plays it: a page comes in with its mark set, since the instruction that faulted is run again.
#[derive(Drop)]
pub struct ClockProUsed<C: Clock> {
    clock: C,
    used: HashSet<Key>,
    /// how many questions make room at most
    turns: usize,
}

impl<C: Clock> Policy for ClockProUsed<C> {
    ghost misses = { clock_pro_used_misses };

    ghost to_miss = { λ policy string. misses_by in_play (clock_pro_used policy.turns)
        (play_of (C.state policy.clock) policy.used) string };

    ghost refuses = { λ number. (number < least_frames) ⊎ (most_frames < number) };

    ghost grows = { λ policy page. in_play page (play_of (C.state policy.clock) policy.used) ≡ true →
        contains is_page policy.used page ≡ false };

    ghost none_to_miss = { λ policy. refl };

    #[tactic(auto, unfolding(crate::specs::ClockProPlay::clock_pro_used_misses))]
    fn new(alloc: Global, frames: Frames) -> Result<Self, PolicyRefusal> {
        let clock = new_clock(alloc, frames)?;
        Ok(ClockProUsed {
            clock,
            used: HashSet::new(alloc),
            turns: 5 * frames.number(),
        })
    }

    fn refer(&mut self, page: Key) -> Result<HitOrMiss, AllocError> {
        if is_resident_kind(self.clock.kind_of(page)) {
            mark_used(&mut self.used, page)?;
            return Ok(HitOrMiss::Hit);
        }
        place(&mut self.clock, &mut self.used, self.turns, page)?;
        mark_used(&mut self.used, page)?;
        Ok(HitOrMiss::Miss)
    }
}
