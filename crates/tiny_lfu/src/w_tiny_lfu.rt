//! W-TinyLFU.

ghost use Rattle.std.specs.Prelude.{◌≡◌, ◌+◌, ◌*◌, ◌<◌, ◌≤◌, refl, length, nat_lt, Some, IfOk};
ghost use Rattle.std.specs.Prelude.{List, OnOk, OnErr, cond, true, false};
ghost use Rattle.clock_policy.specs.declared.key.Key.{Key};
ghost use Rattle.page_policies.specs.Strings.{holds, misses as misses_by};
ghost use Rattle.tiny_lfu.specs.Sketch.{estimate};
ghost use Rattle.tiny_lfu.specs.WTinyLfu.{rooms_of, usual_shares, settled};
ghost use Rattle.tiny_lfu.specs.WTinyLfu.{promoted, victim, victim_out, let_in, contested};
ghost use Rattle.tiny_lfu.specs.WTinyLfu.{admitted, window_cut, brought, in_w_tiny_lfu, noted};
ghost use Rattle.tiny_lfu.specs.WTinyLfu.{w_tiny_lfu, w_tiny_lfu_misses, lists_of, touched};

use crate::shares::TinyLfuShares;
use crate::sketch_state::Sketch;
use crate::w_tiny_lfu_state::WTinyLfu;
use clock_policy::Key;
use page_policies::{Frames, HitOrMiss, Policy, PolicyRefusal, Queue};
use std::alloc::{AllocError, Global};

impl WTinyLfu {
    /// With its frames empty, divided so.
    #[tactic(auto, unfolding(crate::specs::WTinyLfu::w_tiny_lfu_misses))]
    pub fn with_shares(
        alloc: Global,
        frames: Frames,
        shares: TinyLfuShares,
    ) -> Result<Self, AllocError>
        ensures { IfOk result (λ policy. (string : List Key) → ⟦<WTinyLfu as Policy>⟧.to_miss policy
            string ≡ w_tiny_lfu_misses shares frames.number string) }
    {
        let rooms = shares.rooms(frames);
        Ok(WTinyLfu {
            rooms,
            window: Queue::new(alloc)?,
            probation: Queue::new(alloc)?,
            protected: Queue::new(alloc)?,
            sketch: Sketch::new(alloc, rooms.width, rooms.sample)?,
        })
    }

    /// Where there are too many protected pages the last one is on probation again.
    fn settle(&mut self) -> Result<(), AllocError>
        ensures lists { OnOk result (lists_of self.new ≡ settled self.old.rooms (lists_of
            self.old)) }
        ensures rooms { self.new.rooms ≡ self.old.rooms }
    {
        if self.rooms.protected < self.protected.len() {
            if let Some(page) = self.protected.pop() {
                self.probation.push(page)?;
            }
        }
        Ok(())
    }

    /// A page on probation becomes a protected one.
    fn promote(&mut self, page: Key) -> Result<(), AllocError>
        ensures lists { OnOk result (lists_of self.new ≡ promoted self.old.rooms page (lists_of
            self.old)) }
        ensures rooms { self.new.rooms ≡ self.old.rooms }
    {
        self.probation.remove(page);
        self.protected.push(page)?;
        self.settle()
    }

    /// A page is used, if it is in a frame. Whether it is.
    fn touch(&mut self, page: Key) -> Result<bool, AllocError>
        ensures hit { IfOk result (λ hit. hit ≡ in_w_tiny_lfu page (lists_of self.old)) }
        ensures lists { OnOk result (lists_of self.new ≡ touched self.old.rooms page (lists_of
            self.old)) }
        ensures memory { OnErr result (cond (holds page self.old.protected) true (holds page
            self.old.window) ≡ false) }
        ensures rooms { self.new.rooms ≡ self.old.rooms }
    {
        if self.protected.touch(page) {
            return Ok(true);
        }
        if self.window.touch(page) {
            return Ok(true);
        }
        if !self.probation.contains(page) {
            return Ok(false);
        }
        self.promote(page)?;
        Ok(true)
    }

    /// The page that would leave the main cache.
    fn victim(&self) -> Option<Key>
        ensures { result ≡ victim (lists_of self.now) }
    {
        if self.probation.len() == 0 {
            self.protected.last()
        } else {
            self.probation.last()
        }
    }

    /// That page leaves.
    fn drop_victim(&mut self)
        ensures lists { lists_of self.new ≡ victim_out (lists_of self.old) }
        ensures rooms { self.new.rooms ≡ self.old.rooms }
    {
        if self.probation.len() == 0 {
            self.protected.pop();
        } else {
            self.probation.pop();
        }
    }

    /// A page comes in on probation.
    fn let_in(&mut self, page: Key) -> Result<(), AllocError>
        ensures lists { OnOk result (lists_of self.new ≡ let_in page (lists_of self.old)) }
        ensures rooms { self.new.rooms ≡ self.old.rooms }
    {
        self.probation.push(page)
    }

    /// The candidate comes in where it was used more often than the victim, which then leaves.
    fn contest(&mut self, candidate: Key) -> Result<(), AllocError>
        ensures lists { OnOk result (lists_of self.new ≡ contested self.old.rooms candidate (victim
            (lists_of self.old)) (lists_of self.old)) }
        ensures rooms { self.new.rooms ≡ self.old.rooms }
    {
        let Some(victim) = self.victim() else {
            return Ok(());
        };
        if self.sketch.estimate(victim) < self.sketch.estimate(candidate) {
            self.drop_victim();
            self.let_in(candidate)?;
        }
        Ok(())
    }

    /// A page that left the window wants a frame of the main cache.
    fn admit(&mut self, candidate: Key) -> Result<(), AllocError>
        ensures lists { OnOk result (lists_of self.new ≡ admitted self.old.rooms (Some candidate)
            (lists_of self.old)) }
        ensures rooms { self.new.rooms ≡ self.old.rooms }
    {
        if self.probation.len() + self.protected.len() < self.rooms.main {
            return self.let_in(candidate);
        }
        self.contest(candidate)
    }

    /// Where the window has too many pages its last one leaves it.
    fn cut_window(&mut self) -> Result<(), AllocError>
        ensures lists { OnOk result (lists_of self.new ≡ window_cut self.old.rooms (lists_of
            self.old)) }
        ensures rooms { self.new.rooms ≡ self.old.rooms }
    {
        if self.rooms.window < self.window.len() {
            if let Some(page) = self.window.pop() {
                return self.admit(page);
            }
        }
        Ok(())
    }

    /// A page comes in.
    fn bring(&mut self, page: Key) -> Result<(), AllocError>
        ensures lists { OnOk result (lists_of self.new ≡ brought self.old.rooms page (lists_of
            self.old)) }
        ensures rooms { self.new.rooms ≡ self.old.rooms }
    {
        self.window.push(page)?;
        self.cut_window()
    }

    /// A use of the page is counted.
    fn count_use(&mut self, page: Key)
        ensures lists { lists_of self.new ≡ noted self.old.rooms page (lists_of self.old) }
        ensures rooms { self.new.rooms ≡ self.old.rooms }
    {
        self.sketch.add(page);
    }

    /// A page is used. Whether it was in a frame.
    fn step(&mut self, page: Key) -> Result<bool, AllocError>
        ensures hit { IfOk result (λ hit. hit ≡ in_w_tiny_lfu page (lists_of self.old)) }
        ensures lists { OnOk result (lists_of self.new ≡ w_tiny_lfu self.old.rooms page (lists_of
            self.old)) }
        ensures memory { OnErr result (cond (holds page self.old.protected) true (holds page
            self.old.window) ≡ false) }
        ensures rooms { self.new.rooms ≡ self.old.rooms }
    {
        self.count_use(page);
        if self.touch(page)? {
            return Ok(true);
        }
        self.bring(page)?;
        Ok(false)
    }
}

impl Policy for WTinyLfu {
    ghost misses = { w_tiny_lfu_misses usual_shares };

    ghost to_miss = { λ policy string. misses_by in_w_tiny_lfu (w_tiny_lfu policy.rooms)
        (lists_of policy) string };

    ghost refuses = { λ number. ⊥ };

    ghost grows = { λ policy page. cond (holds page policy.protected) true (holds page
        policy.window) ≡ false };

    ghost none_to_miss = { λ policy. refl };

    fn new(alloc: Global, frames: Frames) -> Result<Self, PolicyRefusal> {
        Ok(WTinyLfu::with_shares(alloc, frames, TinyLfuShares::USUAL)?)
    }

    fn refer(&mut self, page: Key) -> Result<HitOrMiss, AllocError> {
        if self.step(page)? {
            Ok(HitOrMiss::Hit)
        } else {
            Ok(HitOrMiss::Miss)
        }
    }
}
