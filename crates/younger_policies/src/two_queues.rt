//! 2Q.

ghost use Rattle.std.specs.Prelude.{◌≡◌, ◌≤◌, ◌<◌, ◌^◌, refl, false, length, List, IfOk, OnOk, OnErr};
ghost use Rattle.clock_policy.specs.declared.key.Key.{Key};
ghost use Rattle.page_policies.specs.Strings.{misses as misses_by};
ghost use Rattle.younger_policies.specs.TwoQueues.{in_two_queues, recent_out, main_out, rooms_of};
ghost use Rattle.younger_policies.specs.TwoQueues.{reclaimed, used, brought, two_queues};
ghost use Rattle.younger_policies.specs.TwoQueues.{two_queues_misses, usual_shares, queues_of};

use crate::two_queue_shares::{TwoQueueRooms, TwoQueueShares};
use clock_policy::Key;
use page_policies::{Frames, HitOrMiss, Policy, PolicyRefusal, Queue, cut};
use std::alloc::{AllocError, Global};

/// 2Q: a page comes into a queue first, and only one that comes back after it left that goes to a stack, whose last page leaves.
#[derive(Drop)]
pub struct TwoQueues {
    rooms: TwoQueueRooms,
    a1in: Queue,
    a1out: Queue,
    am: Queue,
}

impl TwoQueues {
    /// With its frames empty, divided so.
    #[tactic(auto, unfolding(crate::specs::TwoQueues::two_queues_misses))]
    pub fn with_shares(
        alloc: Global,
        frames: Frames,
        shares: TwoQueueShares,
    ) -> Result<Self, AllocError>
        ensures { IfOk result (λ policy. (string : List Key) → ⟦<TwoQueues as Policy>⟧.to_miss policy
            string ≡ two_queues_misses shares frames.number string) }
    {
        Ok(TwoQueues {
            rooms: shares.rooms(frames),
            a1in: Queue::new(alloc)?,
            a1out: Queue::new(alloc)?,
            am: Queue::new(alloc)?,
        })
    }

    /// The last page of the queue leaves, and is remembered.
    fn let_recent_out(&mut self) -> Result<(), AllocError>
        ensures queues { OnOk result (queues_of self.new ≡ recent_out self.old.rooms (queues_of
            self.old)) }
        ensures rooms { self.new.rooms ≡ self.old.rooms }
    {
        if let Some(page) = self.a1in.pop() {
            self.a1out.push(page)?;
        }
        cut(&mut self.a1out, self.rooms.kout);
        Ok(())
    }

    /// Room for one page.
    fn reclaim(&mut self) -> Result<(), AllocError>
        ensures queues { OnOk result (queues_of self.new ≡ reclaimed self.old.rooms (queues_of
            self.old)) }
        ensures rooms { self.new.rooms ≡ self.old.rooms }
    {
        if self.a1in.len() + self.am.len() < self.rooms.frames {
            return Ok(());
        }
        if self.rooms.kin < self.a1in.len() {
            return self.let_recent_out();
        }
        self.am.pop();
        Ok(())
    }

    /// A page comes in that is in no frame.
    fn bring(&mut self, page: Key) -> Result<(), AllocError>
        ensures queues { OnOk result (queues_of self.new ≡ brought self.old.rooms page (queues_of
            self.old)) }
        ensures rooms { self.new.rooms ≡ self.old.rooms }
    {
        let comes_back = self.a1out.contains(page);
        self.reclaim()?;
        if comes_back {
            self.a1out.remove(page);
            self.am.push(page)
        } else {
            self.a1in.push(page)
        }
    }

    /// A page is used. Whether it was in a frame.
    fn step(&mut self, page: Key) -> Result<bool, AllocError>
        ensures hit { IfOk result (λ hit. hit ≡ in_two_queues page (queues_of self.old)) }
        ensures queues { OnOk result (queues_of self.new ≡ two_queues self.old.rooms page
            (queues_of self.old)) }
        ensures memory { OnErr result (in_two_queues page (queues_of self.old) ≡ false) }
        ensures rooms { self.new.rooms ≡ self.old.rooms }
    {
        if self.am.touch(page) {
            return Ok(true);
        }
        if self.a1in.contains(page) {
            return Ok(true);
        }
        self.bring(page)?;
        Ok(false)
    }
}

impl Policy for TwoQueues {
    ghost misses = { two_queues_misses usual_shares };

    ghost to_miss = { λ policy string. misses_by in_two_queues (two_queues policy.rooms)
        (queues_of policy) string };

    ghost refuses = { λ number. ⊥ };

    ghost grows = { λ policy page. in_two_queues page (queues_of policy) ≡ false };

    ghost none_to_miss = { λ policy. refl };

    fn new(alloc: Global, frames: Frames) -> Result<Self, PolicyRefusal> {
        Ok(TwoQueues::with_shares(alloc, frames, TwoQueueShares::USUAL)?)
    }

    fn refer(&mut self, page: Key) -> Result<HitOrMiss, AllocError> {
        if self.step(page)? {
            Ok(HitOrMiss::Hit)
        } else {
            Ok(HitOrMiss::Miss)
        }
    }
}
