//! NRU and aging.

ghost use Rattle.std.specs.Prelude.{◌≡◌, ◌≤◌, refl, false, List, IfOk, OnOk, OnErr};
ghost use Rattle.ticked_policies.specs.declared.page_use.PageUse.{PageUse};
ghost use Rattle.ticked_policies.specs.declared.ticked_rule.TickedRule.TheVariants.{
  NotRecentlyUsed,
  Aging,
};
ghost use Rattle.ticked_policies.specs.Framed.{in_frames, brought};
ghost use Rattle.ticked_policies.specs.Ticked.{in_ticked, passed, rank_of, served, table_of};
ghost use Rattle.ticked_policies.specs.Ticked.{aging_misses, every_of, nru_misses, ticked_by};
ghost use Rattle.ticked_policies.specs.Ticked.{ticked_misses};
ghost use Rattle.ticked_policies.specs.Uses.{misses as misses_by};

use crate::framed::{bring_in, lowest, note_use, replace, tick};
use crate::marks::Marks;
use crate::page_use::PageUse;
use crate::ticked_rule::TickedRule;
use crate::ticked_state::Ticked;
use crate::ticks::{AgingTicks, NruTicks};
use crate::writing_policy::WritingPolicy;
use clock_policy::Key;
use indexmap::IndexMap;
use page_policies::{Frames, HitOrMiss};
use std::alloc::{AllocError, Global};

/// After how many references a tick comes.
fn every_of(every: Option<u32>, frames: Frames) -> u64
    ensures { result ≡ every_of every frames.number }
{
    match every {
        Some(every) => u64::from(every),
        None => frames.number() as u64,
    }
}

impl Ticked {
    /// NRU with its frames empty.
    pub fn nru(alloc: Global, frames: Frames, ticks: NruTicks) -> Ticked
        ensures { (string : List PageUse) → ⟦<Ticked as WritingPolicy>⟧.to_miss result string ≡
            nru_misses ticks frames.number string }
    {
        let every = every_of(ticks.every, frames);
        Ticked::new(alloc, frames, TickedRule::NotRecentlyUsed, every)
    }

    /// Aging with its frames empty.
    pub fn aging(alloc: Global, frames: Frames, ticks: AgingTicks) -> Ticked
        ensures { (string : List PageUse) → ⟦<Ticked as WritingPolicy>⟧.to_miss result string ≡
            aging_misses ticks frames.number string }
    {
        let every = every_of(ticks.every, frames);
        Ticked::new(alloc, frames, TickedRule::Aging(ticks.bits), every)
    }

    /// The frames are empty, and a tick comes after so many references.
    fn new(alloc: Global, frames: Frames, rule: TickedRule, every: u64) -> Ticked
        ensures { (string : List PageUse) → ⟦<Ticked as WritingPolicy>⟧.to_miss result string ≡
            ticked_misses rule every frames.number string }
    {
        Ticked {
            frames: frames.number(),
            rule,
            every,
            left: every,
            pages: IndexMap::new(alloc),
        }
    }

    /// A page comes in that is in no frame.
    fn bring(&mut self, page: Key, marks: Marks) -> Result<(), AllocError>
        requires { in_frames page self.old.pages.entries ≡ false }
        ensures pages { OnOk result (self.new.pages.entries ≡ brought (rank_of self.old.rule)
            self.old.frames page marks self.old.pages.entries) }
        ensures left { self.new.left ≡ self.old.left }
        ensures every { self.new.every ≡ self.old.every }
        ensures rule { self.new.rule ≡ self.old.rule }
        ensures frames { self.new.frames ≡ self.old.frames }
    {
        if self.pages.len() < self.frames {
            return bring_in(&mut self.pages, page, marks);
        }
        let place = lowest(&self.pages, self.rule);
        replace(&mut self.pages, place, page, marks)
    }

    /// A page is used. Whether it was in a frame.
    fn serve(&mut self, page_use: PageUse) -> Result<bool, AllocError>
        ensures hit { IfOk result (λ hit. hit ≡ in_frames page_use.page self.old.pages.entries) }
        ensures pages { OnOk result (self.new.pages.entries ≡ served self.old.rule self.old.frames
            page_use self.old.pages.entries) }
        ensures memory { OnErr result (in_frames page_use.page self.old.pages.entries ≡ false) }
        ensures left { self.new.left ≡ self.old.left }
        ensures every { self.new.every ≡ self.old.every }
        ensures rule { self.new.rule ≡ self.old.rule }
        ensures frames { self.new.frames ≡ self.old.frames }
    {
        if note_use(&mut self.pages, page_use.page, page_use.is_written) {
            return Ok(true);
        }
        self.bring(page_use.page, Marks::fresh(page_use.is_written, 0))?;
        Ok(false)
    }

    /// A tick comes, or not yet.
    fn pass(&mut self)
        ensures table { table_of self.new ≡ passed self.old.rule self.old.every (table_of
            self.old) }
        ensures every { self.new.every ≡ self.old.every }
        ensures rule { self.new.rule ≡ self.old.rule }
        ensures frames { self.new.frames ≡ self.old.frames }
    {
        if self.left == 1 {
            tick(&mut self.pages, self.rule);
            self.left = self.every;
        } else {
            self.left = self.left.saturating_sub(1);
        }
    }

    /// A page is used, and maybe a tick comes. Whether the page was in a frame.
    fn step(&mut self, page_use: PageUse) -> Result<bool, AllocError>
        ensures hit { IfOk result (λ hit. hit ≡ in_ticked page_use.page (table_of self.old)) }
        ensures table { OnOk result (table_of self.new ≡ ticked_by self.old.rule self.old.every
            self.old.frames page_use (table_of self.old)) }
        ensures memory { OnErr result (in_ticked page_use.page (table_of self.old) ≡ false) }
        ensures every { self.new.every ≡ self.old.every }
        ensures rule { self.new.rule ≡ self.old.rule }
        ensures frames { self.new.frames ≡ self.old.frames }
    {
        let hit = self.serve(page_use)?;
        self.pass();
        Ok(hit)
    }
}

impl WritingPolicy for Ticked {
    ghost to_miss = { λ policy string. misses_by in_ticked (ticked_by policy.rule policy.every
        policy.frames) (table_of policy) string };

    ghost grows = { λ policy page. in_ticked page (table_of policy) ≡ false };

    ghost none_to_miss = { λ policy. refl };

    fn refer(&mut self, page_use: PageUse) -> Result<HitOrMiss, AllocError> {
        if self.step(page_use)? {
            Ok(HitOrMiss::Hit)
        } else {
            Ok(HitOrMiss::Miss)
        }
    }
}
