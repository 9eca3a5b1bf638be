//! S3-FIFO.

ghost use Rattle.std.specs.Prelude.{◌≡◌, ◌+◌, ◌*◌, ◌<◌, refl, cond, true, false, length, min};
ghost use Rattle.std.specs.Prelude.{nat_lt, List, None, IfOk, OnOk, OnErr};
ghost use Rattle.std.specs.HashMap.{get};
ghost use Rattle.clock_policy.specs.declared.key.Key.{Key};
ghost use Rattle.page_policies.specs.Strings.{is_page, misses as misses_by};
ghost use Rattle.page_policies.specs.NextUses.{known};
ghost use Rattle.page_policies.specs.Ordered.{last_of};
ghost use Rattle.younger_policies.specs.S3Fifo.{rooms_of, with_freq, pages_in, usual_shares, moved_freq};
ghost use Rattle.younger_policies.specs.S3Fifo.{tail_freq, main_again, main_out, evicted_main};
ghost use Rattle.younger_policies.specs.S3Fifo.{main_turned, main_cut, small_up, small_out};
ghost use Rattle.younger_policies.specs.S3Fifo.{evicted_small, evicted, room_made, came_back, came};
ghost use Rattle.younger_policies.specs.S3Fifo.{inserted, used, in_s3_fifo, s3_fifo};
ghost use Rattle.younger_policies.specs.S3Fifo.{s3_fifo_misses, queues_of};

use crate::s3_fifo_shares::{MovedCount, S3FifoRooms, S3FifoShares};
use clock_policy::Key;
use page_policies::{Frames, HitOrMiss, Policy, PolicyRefusal, Queue, cut};
use std::alloc::{AllocError, Global};
use std::collections::HashMap;

/// S3-FIFO: a small queue for new pages, a main one for those that are used there more than once, and ghosts of those that were not.
#[derive(Drop)]
pub struct S3Fifo {
    rooms: S3FifoRooms,
    small: Queue,
    main: Queue,
    ghosts: Queue,
    freq: HashMap<Key, u8>,
}

/// No page has a count.
fn no_counts(alloc: Global) -> HashMap<Key, u8>
    ensures { (q : Key) → known (get is_page result q) ≡ 0 }
{
    HashMap::new(alloc)
}

/// How often a page was used.
fn count_of(freq: &HashMap<Key, u8>, page: Key) -> u8
    ensures { result ≡ known (get is_page freq.now page) }
{
    match freq.get(&page) {
        Some(count) => *count,
        None => 0,
    }
}

/// A page has this count from now on.
fn set_count(freq: &mut HashMap<Key, u8>, page: Key, count: u8) -> Result<(), AllocError>
    ensures { OnOk result ((q : Key) → known (get is_page freq.new q) ≡ cond (is_page page q) count
        (known (get is_page freq.old q))) }
{
    match freq.insert(page, count) {
        Ok(_) => Ok(()),
        Err(_) => Err(AllocError),
    }
}

/// One use more of a page, three at most.
fn raise_count(freq: &mut HashMap<Key, u8>, page: Key) -> Result<(), AllocError>
    ensures memory { OnErr result (get is_page freq.old page ≡ None) }
    ensures counts { OnOk result ((q : Key) → known (get is_page freq.new q) ≡ cond (is_page page q) (min
        (known (get is_page freq.old page) + 1) 3) (known (get is_page freq.old q))) }
{
    match freq.get_mut(&page) {
        Some(count) => {
            *count = count.saturating_add(1).min(3);
            Ok(())
        }
        None => set_count(freq, page, 1),
    }
}

/// A page has no count any more.
fn clear_count(freq: &mut HashMap<Key, u8>, page: Key)
    ensures { (q : Key) → known (get is_page freq.new q) ≡ cond (is_page page q) 0
        (known (get is_page freq.old q)) }
{
    freq.remove(&page);
}

/// A page that leaves needs no count where that is 0: one that is not kept is 0 too.
fn forget_unused(freq: &mut HashMap<Key, u8>, page: Key)
    ensures { (q : Key) → known (get is_page freq.new q) ≡ known (get is_page freq.old q) }
{
    if count_of(freq, page) == 0 {
        clear_count(freq, page);
    }
}

/// A page goes to the main queue, with its count or without.
fn move_count(freq: &mut HashMap<Key, u8>, moved: MovedCount, page: Key)
    ensures { (q : Key) → known (get is_page freq.new q) ≡ moved_freq moved page (λ q.
        known (get is_page freq.old q)) q }
{
    match moved {
        MovedCount::Keep => {}
        MovedCount::Clear => clear_count(freq, page),
    }
}

impl S3Fifo {
    /// With its frames empty, divided so.
    #[tactic(auto, unfolding(crate::specs::S3Fifo::s3_fifo_misses))]
    pub fn with_shares(
        alloc: Global,
        frames: Frames,
        shares: S3FifoShares,
    ) -> Result<Self, AllocError>
        ensures { IfOk result (λ policy. (string : List Key) → ⟦<S3Fifo as Policy>⟧.to_miss policy
            string ≡ s3_fifo_misses shares frames.number string) }
    {
        Ok(S3Fifo {
            rooms: shares.rooms(frames),
            small: Queue::new(alloc)?,
            main: Queue::new(alloc)?,
            ghosts: Queue::new(alloc)?,
            freq: no_counts(alloc),
        })
    }

    /// Whether the page at the tail of the main queue was used.
    fn is_main_tail_used(&self) -> bool
        ensures { result ≡ nat_lt 0 (tail_freq (last_of self.now.main) (queues_of self.now)) }
    {
        match self.main.last() {
            Some(page) => 0 < count_of(&self.freq, page),
            None => false,
        }
    }

    /// Whether the page at the tail of the small queue was used more than once.
    fn is_small_tail_busy(&self) -> bool
        ensures { result ≡ nat_lt 1 (tail_freq (last_of self.now.small) (queues_of self.now)) }
    {
        match self.small.last() {
            Some(page) => 1 < count_of(&self.freq, page),
            None => false,
        }
    }

    /// The page at the tail of the main queue leaves, with its count.
    fn drop_main_tail(&mut self)
        ensures queues { queues_of self.new ≡ main_out (queues_of self.old) }
        ensures rooms { self.new.rooms ≡ self.old.rooms }
    {
        if let Some(page) = self.main.pop() {
            forget_unused(&mut self.freq, page);
        }
    }

    /// The page at the tail of the main queue goes to its head, and its count falls.
    fn turn_main(&mut self) -> Result<(), AllocError>
        ensures queues { OnOk result (queues_of self.new ≡ main_again (last_of self.old.main)
            (queues_of self.old)) }
        ensures rooms { self.new.rooms ≡ self.old.rooms }
    {
        let Some(page) = self.main.last() else {
            return Ok(());
        };
        let count = count_of(&self.freq, page);
        set_count(&mut self.freq, page, count.saturating_sub(1))?;
        self.main.push(page)
    }

    /// Used pages go to the main queue's head, so many times at most, and then the page at its tail leaves.
    fn evict_main(&mut self, turns: u128) -> Result<(), AllocError>
        ensures queues { OnOk result (queues_of self.new ≡ evicted_main turns (queues_of self.old)) }
        ensures rooms { self.new.rooms ≡ self.old.rooms }
    {
        for _turn in 0..turns {
            if !self.is_main_tail_used() {
                self.drop_main_tail();
                return Ok(());
            }
            self.turn_main()?;
        }
        self.drop_main_tail();
        Ok(())
    }

    /// A page leaves the main queue.
    fn take_main(&mut self) -> Result<(), AllocError>
        ensures queues { OnOk result (queues_of self.new ≡ main_turned (queues_of self.old)) }
        ensures rooms { self.new.rooms ≡ self.old.rooms }
    {
        let len = self.main.len();
        self.evict_main(3 * len as u128)
    }

    /// A page leaves the main queue where it has too many.
    fn cut_main(&mut self) -> Result<(), AllocError>
        ensures queues { OnOk result (queues_of self.new ≡ main_cut self.old.rooms (queues_of
            self.old)) }
        ensures rooms { self.new.rooms ≡ self.old.rooms }
    {
        if self.rooms.main < self.main.len() {
            self.take_main()
        } else {
            Ok(())
        }
    }

    /// The page at the tail of the small queue goes to the main one.
    fn move_up(&mut self) -> Result<(), AllocError>
        ensures queues { OnOk result (queues_of self.new ≡ small_up self.old.rooms (last_of
            self.old.small) (queues_of self.old)) }
        ensures rooms { self.new.rooms ≡ self.old.rooms }
    {
        let Some(page) = self.small.pop() else {
            return Ok(());
        };
        self.main.push(page)?;
        move_count(&mut self.freq, self.rooms.moved, page);
        self.cut_main()?;
        Ok(())
    }

    /// The page at the tail of the small queue leaves, and is remembered.
    fn move_out(&mut self) -> Result<(), AllocError>
        ensures queues { OnOk result (queues_of self.new ≡ small_out self.old.rooms (last_of
            self.old.small) (queues_of self.old)) }
        ensures rooms { self.new.rooms ≡ self.old.rooms }
    {
        let Some(page) = self.small.pop() else {
            return Ok(());
        };
        self.ghosts.push(page)?;
        cut(&mut self.ghosts, self.rooms.ghosts);
        clear_count(&mut self.freq, page);
        Ok(())
    }

    /// Pages that were used more than once go to the main queue, so many at most, until one was not, which leaves.
    fn evict_small(&mut self, turns: usize) -> Result<(), AllocError>
        ensures queues { OnOk result (queues_of self.new ≡ evicted_small self.old.rooms turns
            (queues_of self.old)) }
        ensures rooms { self.new.rooms ≡ self.old.rooms }
    {
        for _turn in 0..turns {
            if !self.is_small_tail_busy() {
                return self.move_out();
            }
            self.move_up()?;
        }
        Ok(())
    }

    /// A page leaves one of the two queues, or all of the small one's go to the main one.
    fn evict(&mut self) -> Result<(), AllocError>
        ensures queues { OnOk result (queues_of self.new ≡ evicted self.old.rooms (queues_of
            self.old)) }
        ensures rooms { self.new.rooms ≡ self.old.rooms }
    {
        let len = self.small.len();
        if self.rooms.hundredths as u128 <= 100 * len as u128 {
            self.evict_small(len)
        } else {
            self.take_main()
        }
    }

    /// Room for one page.
    fn make_room(&mut self) -> Result<(), AllocError>
        ensures queues { OnOk result (queues_of self.new ≡ room_made self.old.rooms 2 (queues_of
            self.old)) }
        ensures rooms { self.new.rooms ≡ self.old.rooms }
    {
        if self.small.len() + self.main.len() < self.rooms.frames {
            return Ok(());
        }
        self.evict()?;
        if self.small.len() + self.main.len() < self.rooms.frames {
            return Ok(());
        }
        self.evict()
    }

    /// A page comes in.
    fn insert(&mut self, page: Key) -> Result<(), AllocError>
        ensures queues { OnOk result (queues_of self.new ≡ inserted page (queues_of self.old)) }
        ensures rooms { self.new.rooms ≡ self.old.rooms }
    {
        clear_count(&mut self.freq, page);
        if self.ghosts.contains(page) {
            self.ghosts.remove(page);
            self.main.push(page)
        } else {
            self.small.push(page)
        }
    }

    /// A page that is there was used.
    fn note_use(&mut self, page: Key) -> Result<(), AllocError>
        ensures queues { OnOk result (queues_of self.new ≡ used page (queues_of self.old)) }
        ensures memory { OnErr result (get is_page self.old.freq page ≡ None) }
        ensures rooms { self.new.rooms ≡ self.old.rooms }
    {
        raise_count(&mut self.freq, page)
    }

    /// Whether the page is in a frame. Most that are used again are in the main queue.
    fn is_there(&self, page: Key) -> bool
        ensures { result ≡ in_s3_fifo page (queues_of self.now) }
    {
        if self.main.contains(page) {
            return true;
        }
        self.small.contains(page)
    }

    /// A page is used. Whether it was in a frame.
    fn step(&mut self, page: Key) -> Result<bool, AllocError>
        ensures hit { IfOk result (λ hit. hit ≡ in_s3_fifo page (queues_of self.old)) }
        ensures queues { OnOk result (queues_of self.new ≡ s3_fifo self.old.rooms page (queues_of
            self.old)) }
        ensures memory { OnErr result (in_s3_fifo page (queues_of self.old) ≡ true →
            get is_page self.old.freq page ≡ None) }
        ensures rooms { self.new.rooms ≡ self.old.rooms }
    {
        if !self.is_there(page) {
            self.make_room()?;
            self.insert(page)?;
            return Ok(false);
        }
        self.note_use(page)?;
        Ok(true)
    }
}

impl Policy for S3Fifo {
    ghost misses = { s3_fifo_misses usual_shares };

    ghost to_miss = { λ policy string. misses_by in_s3_fifo (s3_fifo policy.rooms)
        (queues_of policy) string };

    ghost refuses = { λ number. ⊥ };

    ghost grows = { λ policy page. in_s3_fifo page (queues_of policy) ≡ true →
        get is_page policy.freq page ≡ None };

    ghost none_to_miss = { λ policy. refl };

    fn new(alloc: Global, frames: Frames) -> Result<Self, PolicyRefusal> {
        Ok(S3Fifo::with_shares(alloc, frames, S3FifoShares::USUAL)?)
    }

    fn refer(&mut self, page: Key) -> Result<HitOrMiss, AllocError> {
        if self.step(page)? {
            Ok(HitOrMiss::Hit)
        } else {
            Ok(HitOrMiss::Miss)
        }
    }
}
