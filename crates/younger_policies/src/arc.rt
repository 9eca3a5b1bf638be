//! ARC.

ghost use Rattle.std.specs.Prelude.{◌≡◌, ◌≤◌, ◌+◌, refl, true, false, cond, length, IfOk, OnOk, OnErr};
ghost use Rattle.page_policies.specs.Strings.{misses as misses_by, holds};
ghost use Rattle.younger_policies.specs.Arc.{step_of, takes_first, first_out, second_out, replaced};
ghost use Rattle.younger_policies.specs.Arc.{hit, grown, shrunk, from_first, from_second, new_page};
ghost use Rattle.younger_policies.specs.Arc.{fetched, without_b1, without_b2, without_t1, case_a};
ghost use Rattle.younger_policies.specs.Arc.{case_b, all_pages, missed, in_arc, arc, arc_misses, lists_of};

use clock_policy::Key;
use page_policies::{Frames, HitOrMiss, Policy, PolicyRefusal, Queue};
use std::alloc::{AllocError, Global};

/// ARC: two stacks, of the pages that were used once and of the others, whose shares go by which of the pages that left come back.
#[derive(Drop)]
pub struct Arc {
    frames: usize,
    t1: Queue,
    t2: Queue,
    b1: Queue,
    b2: Queue,
    target: usize,
}

/// By how much the target moves where a page of a list of the first length comes back.
fn step_of(hit: usize, other: usize) -> usize
    requires { 1 ≤ hit }
    ensures { result ≡ step_of hit other }
{
    if other <= hit { 1 } else { other / hit }
}

impl Arc {
    /// Whether the page that leaves is one that was used once.
    fn takes_first(&self, in_b2: bool) -> bool
        ensures { result ≡ takes_first in_b2 (lists_of self.now) }
    {
        let len = self.t1.len();
        if len == 0 {
            return false;
        }
        if self.target < len {
            return true;
        }
        in_b2 && len == self.target
    }

    /// The page of T1 that was used longest ago leaves, and is remembered.
    fn take_first(&mut self) -> Result<(), AllocError>
        ensures lists { OnOk result (lists_of self.new ≡ first_out (lists_of self.old)) }
        ensures frames { self.new.frames ≡ self.old.frames }
    {
        if let Some(page) = self.t1.pop() {
            self.b1.push(page)?;
        }
        Ok(())
    }

    /// The page of T2 that was used longest ago leaves, and is remembered.
    fn take_second(&mut self) -> Result<(), AllocError>
        ensures lists { OnOk result (lists_of self.new ≡ second_out (lists_of self.old)) }
        ensures frames { self.new.frames ≡ self.old.frames }
    {
        if let Some(page) = self.t2.pop() {
            self.b2.push(page)?;
        }
        Ok(())
    }

    /// A page leaves.
    fn replace(&mut self, in_b2: bool) -> Result<(), AllocError>
        ensures lists { OnOk result (lists_of self.new ≡ replaced in_b2 (lists_of self.old)) }
        ensures frames { self.new.frames ≡ self.old.frames }
    {
        if self.takes_first(in_b2) {
            self.take_first()
        } else {
            self.take_second()
        }
    }

    /// A page of B1 came back: T1 is to have more.
    fn grow(&mut self)
        requires { 1 ≤ length self.old.b1 }
        ensures lists { lists_of self.new ≡ grown self.old.frames (lists_of self.old) }
        ensures frames { self.new.frames ≡ self.old.frames }
    {
        let step = step_of(self.b1.len(), self.b2.len());
        self.target = self.target.saturating_add(step).min(self.frames);
    }

    /// A page of B2 came back: T1 is to have fewer.
    fn shrink(&mut self)
        requires { 1 ≤ length self.old.b2 }
        ensures lists { lists_of self.new ≡ shrunk (lists_of self.old) }
        ensures frames { self.new.frames ≡ self.old.frames }
    {
        let step = step_of(self.b2.len(), self.b1.len());
        self.target = self.target.saturating_sub(step);
    }

    /// A page of B1 is fetched.
    #[tactic(auto, using(crate::proofs::ArcLaws::some_held))]
    fn fetch_from_first(&mut self, page: Key) -> Result<(), AllocError>
        requires { holds page self.old.b1 ≡ true }
        ensures lists { OnOk result (lists_of self.new ≡ from_first page (replaced false (grown
            self.old.frames (lists_of self.old)))) }
        ensures frames { self.new.frames ≡ self.old.frames }
    {
        self.grow();
        self.replace(false)?;
        self.b1.remove(page);
        self.t2.push(page)
    }

    /// A page of B2 is fetched.
    #[tactic(auto, using(crate::proofs::ArcLaws::some_held))]
    fn fetch_from_second(&mut self, page: Key) -> Result<(), AllocError>
        requires { holds page self.old.b2 ≡ true }
        ensures lists { OnOk result (lists_of self.new ≡ from_second page (replaced true (shrunk
            (lists_of self.old)))) }
        ensures frames { self.new.frames ≡ self.old.frames }
    {
        self.shrink();
        self.replace(true)?;
        self.b2.remove(page);
        self.t2.push(page)
    }

    /// Room where the pages that were used once are as many as frames, with those that left.
    fn make_room_a(&mut self) -> Result<(), AllocError>
        ensures lists { OnOk result (lists_of self.new ≡ case_a self.old.frames (lists_of
            self.old)) }
        ensures frames { self.new.frames ≡ self.old.frames }
    {
        if self.t1.len() < self.frames {
            self.b1.pop();
            return self.replace(false);
        }
        self.t1.pop();
        Ok(())
    }

    /// How many pages there are in the four lists.
    fn all_pages(&self) -> u128
        ensures { result ≡ all_pages (lists_of self.now) }
    {
        let resident = self.t1.len() as u128 + self.t2.len() as u128;
        let others = self.b1.len() as u128 + self.b2.len() as u128;
        resident + others
    }

    /// Room where they are fewer.
    fn make_room_b(&mut self) -> Result<(), AllocError>
        ensures lists { OnOk result (lists_of self.new ≡ case_b self.old.frames (lists_of
            self.old)) }
        ensures frames { self.new.frames ≡ self.old.frames }
    {
        let all = self.all_pages();
        if all < self.frames as u128 {
            return Ok(());
        }
        if all == 2 * self.frames as u128 {
            self.b2.pop();
        }
        self.replace(false)
    }

    /// A page is fetched that is in none of the lists.
    fn fetch_new(&mut self, page: Key) -> Result<(), AllocError>
        ensures lists { OnOk result (lists_of self.new ≡ new_page self.old.frames page (lists_of
            self.old)) }
        ensures frames { self.new.frames ≡ self.old.frames }
    {
        if self.t1.len() + self.b1.len() == self.frames {
            self.make_room_a()?;
        } else {
            self.make_room_b()?;
        }
        self.t1.push(page)
    }

    /// A page comes in that is in no frame.
    fn fetch(&mut self, page: Key) -> Result<(), AllocError>
        ensures lists { OnOk result (lists_of self.new ≡ missed self.old.frames page (lists_of
            self.old)) }
        ensures frames { self.new.frames ≡ self.old.frames }
    {
        if self.b1.contains(page) {
            return self.fetch_from_first(page);
        }
        if self.b2.contains(page) {
            return self.fetch_from_second(page);
        }
        self.fetch_new(page)
    }

    /// A page is used. Whether it was in a frame.
    #[tactic(auto, using(page_policies::proofs::QueueLaws::absent))]
    fn step(&mut self, page: Key) -> Result<bool, AllocError>
        ensures hit { IfOk result (λ hit. hit ≡ in_arc page (lists_of self.old)) }
        ensures lists { OnOk result (lists_of self.new ≡ arc self.old.frames page (lists_of
            self.old)) }
        ensures memory { OnErr result (holds page self.old.t2 ≡ false) }
        ensures frames { self.new.frames ≡ self.old.frames }
    {
        if self.t2.touch(page) {
            return Ok(true);
        }
        if self.t1.remove(page) {
            self.t2.push(page)?;
            return Ok(true);
        }
        self.fetch(page)?;
        Ok(false)
    }
}

impl Policy for Arc {
    ghost misses = { arc_misses };

    ghost to_miss = { λ policy string. misses_by in_arc (arc policy.frames) (lists_of policy) string };

    ghost refuses = { λ number. ⊥ };

    ghost grows = { λ policy page. holds page policy.t2 ≡ false };

    ghost none_to_miss = { λ policy. refl };

    #[tactic(auto, unfolding(crate::specs::Arc::arc_misses))]
    fn new(alloc: Global, frames: Frames) -> Result<Self, PolicyRefusal> {
        Ok(Arc {
            frames: frames.number(),
            t1: Queue::new(alloc)?,
            t2: Queue::new(alloc)?,
            b1: Queue::new(alloc)?,
            b2: Queue::new(alloc)?,
            target: 0,
        })
    }

    fn refer(&mut self, page: Key) -> Result<HitOrMiss, AllocError> {
        if self.step(page)? {
            Ok(HitOrMiss::Hit)
        } else {
            Ok(HitOrMiss::Miss)
        }
    }
}
