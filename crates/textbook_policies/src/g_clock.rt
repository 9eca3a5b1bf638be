//! Generalized CLOCK.

ghost use Rattle.std.specs.Prelude.{◌≡◌, ◌+◌, refl, cond, true, false, length, min};
ghost use Rattle.std.specs.Prelude.{nat_lt, List, None, IfOk, OnOk, OnErr};
ghost use Rattle.std.specs.HashMap.{get};
ghost use Rattle.clock_policy.specs.declared.key.Key.{Key};
ghost use Rattle.page_policies.specs.Strings.{is_page, misses as misses_by};
ghost use Rattle.page_policies.specs.NextUses.{known};
ghost use Rattle.page_policies.specs.Ordered.{last_of};
ghost use Rattle.textbook_policies.specs.GClock.{usual_counts, hand_count, passed, gone, swept};
ghost use Rattle.textbook_policies.specs.GClock.{room_made, came, used, in_g_clock, g_clock};
ghost use Rattle.textbook_policies.specs.GClock.{g_clock_misses, circle_of};

use crate::g_clock_counts::GClockCounts;
use clock_policy::Key;
use page_policies::{Frames, HitOrMiss, Policy, PolicyRefusal, Queue};
use std::alloc::{AllocError, Global};
use std::collections::HashMap;

/// Generalized CLOCK: the hand passes pages that have a count, which falls, and the first that has none leaves.
///
/// The page at the hand is the last of the queue.
#[derive(Drop)]
pub struct GClock {
    frames: usize,
    counts: GClockCounts,
    pages: Queue,
    count: HashMap<Key, u32>,
}

/// No page has a count.
fn no_counts(alloc: Global) -> HashMap<Key, u32>
    ensures { (q : Key) → known (get is_page result q) ≡ 0 }
{
    HashMap::new(alloc)
}

/// The count of a page.
fn count_of(counts: &HashMap<Key, u32>, page: Key) -> u32
    ensures { result ≡ known (get is_page counts.now page) }
{
    match counts.get(&page) {
        Some(count) => *count,
        None => 0,
    }
}

/// A page has this count from now on.
fn set_count(counts: &mut HashMap<Key, u32>, page: Key, count: u32) -> Result<(), AllocError>
    ensures memory { OnErr result (get is_page counts.old page ≡ None) }
    ensures counts { OnOk result ((q : Key) → known (get is_page counts.new q) ≡ cond (is_page page
        q) count (known (get is_page counts.old q))) }
{
    match counts.insert(page, count) {
        Ok(_) => Ok(()),
        Err(_) => Err(AllocError),
    }
}

/// A page has no count any more.
fn clear_count(counts: &mut HashMap<Key, u32>, page: Key)
    ensures { (q : Key) → known (get is_page counts.new q) ≡ cond (is_page page q) 0
        (known (get is_page counts.old q)) }
{
    counts.remove(&page);
}

/// A page that leaves needs no count where that is 0: one that is not kept is 0 too.
fn forget_unused(counts: &mut HashMap<Key, u32>, page: Key)
    ensures { (q : Key) → known (get is_page counts.new q) ≡ known (get is_page counts.old q) }
{
    if count_of(counts, page) == 0 {
        clear_count(counts, page);
    }
}

impl GClock {
    /// With its frames empty, and such counts.
    pub fn with_counts(
        alloc: Global,
        frames: Frames,
        counts: GClockCounts,
    ) -> Result<Self, AllocError>
        ensures { IfOk result (λ policy. (string : List Key) → ⟦<GClock as Policy>⟧.to_miss policy
            string ≡ g_clock_misses counts frames.number string) }
    {
        Ok(GClock {
            frames: frames.number(),
            counts,
            pages: Queue::new(alloc)?,
            count: no_counts(alloc),
        })
    }

    /// Whether the page at the hand has a count.
    fn is_hand_counted(&self) -> bool
        ensures { result ≡ nat_lt 0 (hand_count (last_of self.now.pages) (circle_of self.now)) }
    {
        match self.pages.last() {
            Some(page) => 0 < count_of(&self.count, page),
            None => false,
        }
    }

    /// The hand passes a page, whose count falls.
    fn pass(&mut self) -> Result<(), AllocError>
        ensures circle { OnOk result (circle_of self.new ≡ passed (last_of self.old.pages)
            (circle_of self.old)) }
        ensures counts { self.new.counts ≡ self.old.counts }
        ensures frames { self.new.frames ≡ self.old.frames }
    {
        let Some(page) = self.pages.last() else {
            return Ok(());
        };
        let count = count_of(&self.count, page);
        set_count(&mut self.count, page, count.saturating_sub(1))?;
        self.pages.push(page)
    }

    /// The page at the hand leaves.
    fn let_go(&mut self)
        ensures circle { circle_of self.new ≡ gone (circle_of self.old) }
        ensures counts { self.new.counts ≡ self.old.counts }
        ensures frames { self.new.frames ≡ self.old.frames }
    {
        if let Some(page) = self.pages.pop() {
            forget_unused(&mut self.count, page);
        }
    }

    /// Pages with a count are passed, so many at most, and then the page at the hand leaves.
    fn sweep(&mut self, turns: u128) -> Result<(), AllocError>
        ensures circle { OnOk result (circle_of self.new ≡ swept turns (circle_of self.old)) }
        ensures counts { self.new.counts ≡ self.old.counts }
        ensures frames { self.new.frames ≡ self.old.frames }
    {
        for _turn in 0..turns {
            if !self.is_hand_counted() {
                self.let_go();
                return Ok(());
            }
            self.pass()?;
        }
        self.let_go();
        Ok(())
    }

    /// Room for one page.
    fn make_room(&mut self) -> Result<(), AllocError>
        ensures circle { OnOk result (circle_of self.new ≡ room_made self.old.frames
            self.old.counts.most (circle_of self.old)) }
        ensures counts { self.new.counts ≡ self.old.counts }
        ensures frames { self.new.frames ≡ self.old.frames }
    {
        let len = self.pages.len();
        if len < self.frames {
            return Ok(());
        }
        self.sweep(u128::from(self.counts.most) * len as u128)
    }

    /// A page comes in, where the hand comes last.
    fn bring(&mut self, page: Key) -> Result<(), AllocError>
        ensures circle { OnOk result (circle_of self.new ≡ came (min self.old.counts.first
            self.old.counts.most) page (circle_of self.old)) }
        ensures counts { self.new.counts ≡ self.old.counts }
        ensures frames { self.new.frames ≡ self.old.frames }
    {
        set_count(
            &mut self.count,
            page,
            self.counts.first.min(self.counts.most),
        )?;
        self.pages.push(page)
    }

    /// A page that is there was used.
    fn note_use(&mut self, page: Key) -> Result<(), AllocError>
        ensures circle { OnOk result (circle_of self.new ≡ used self.old.counts.most page (circle_of
            self.old)) }
        ensures memory { OnErr result (get is_page self.old.count page ≡ None) }
        ensures counts { self.new.counts ≡ self.old.counts }
        ensures frames { self.new.frames ≡ self.old.frames }
    {
        let count = count_of(&self.count, page);
        set_count(
            &mut self.count,
            page,
            count.saturating_add(1).min(self.counts.most),
        )
    }

    /// A page is used. Whether it was in a frame.
    fn step(&mut self, page: Key) -> Result<bool, AllocError>
        ensures hit { IfOk result (λ hit. hit ≡ in_g_clock page (circle_of self.old)) }
        ensures circle { OnOk result (circle_of self.new ≡ g_clock self.old.frames self.old.counts page
            (circle_of self.old)) }
        ensures memory { OnErr result (in_g_clock page (circle_of self.old) ≡ true →
            get is_page self.old.count page ≡ None) }
        ensures counts { self.new.counts ≡ self.old.counts }
        ensures frames { self.new.frames ≡ self.old.frames }
    {
        if !self.pages.contains(page) {
            self.make_room()?;
            self.bring(page)?;
            return Ok(false);
        }
        self.note_use(page)?;
        Ok(true)
    }
}

impl Policy for GClock {
    ghost misses = { g_clock_misses usual_counts };

    ghost to_miss = { λ policy string. misses_by in_g_clock (g_clock policy.frames policy.counts)
        (circle_of policy) string };

    ghost refuses = { λ number. ⊥ };

    ghost grows = { λ policy page. in_g_clock page (circle_of policy) ≡ true →
        get is_page policy.count page ≡ None };

    ghost none_to_miss = { λ policy. refl };

    fn new(alloc: Global, frames: Frames) -> Result<Self, PolicyRefusal> {
        Ok(GClock::with_counts(alloc, frames, GClockCounts::USUAL)?)
    }

    fn refer(&mut self, page: Key) -> Result<HitOrMiss, AllocError> {
        if self.step(page)? {
            Ok(HitOrMiss::Hit)
        } else {
            Ok(HitOrMiss::Miss)
        }
    }
}
