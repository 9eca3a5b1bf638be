//! FIFO.

ghost use Rattle.std.specs.Prelude.{◌≡◌, refl, false};
ghost use Rattle.std.specs.Map.{keys_of};
ghost use Rattle.page_policies.specs.Strings.{holds, misses as misses_by};
ghost use Rattle.page_policies.specs.Queues.{fifo, fifo_misses};

use crate::frames::Frames;
use crate::policy::{HitOrMiss, Policy};
use crate::refusal::PolicyRefusal;
use clock_policy::Key;
use lru::LruCache;
use std::alloc::{AllocError, Global};
use std::num::NonZeroUsize;

/// First in, first out: the page that came in first leaves.
#[derive(Drop)]
pub struct Fifo {
    pages: LruCache<Key, ()>,
}

impl Policy for Fifo {
    ghost misses = { fifo_misses };

    ghost to_miss = { λ policy string. misses_by holds (fifo policy.pages.cap)
        (keys_of policy.pages.entries) string };

    ghost refuses = { λ number. ⊥ };

    ghost grows = { λ policy page. holds page (keys_of policy.pages.entries) ≡ false };

    ghost none_to_miss = { λ policy. refl };

    #[tactic(auto, unfolding(crate::specs::Queues::fifo_misses))]
    fn new(alloc: Global, frames: Frames) -> Result<Self, PolicyRefusal> {
        let room = NonZeroUsize::new(frames.number()).unwrap_or(NonZeroUsize::MIN);
        let pages = LruCache::sparse(alloc, room)?;
        Ok(Fifo { pages })
    }

    fn refer(&mut self, page: Key) -> Result<HitOrMiss, AllocError> {
        // For the proof only: a read shows that what is read is lawful.
        let _ = self.pages.len();
        if self.pages.contains(&page) {
            return Ok(HitOrMiss::Hit);
        }
        match self.pages.put(page, ()) {
            Ok(_) => Ok(HitOrMiss::Miss),
            Err(_) => Err(AllocError),
        }
    }
}
