//! SIEVE.

ghost use Rattle.std.specs.Prelude.{◌≡◌, ◌+◌, ◌<◌, refl, cond, true, false, length, IfOk};
ghost use Rattle.std.specs.Prelude.{OnOk, OnErr};
ghost use Rattle.std.specs.HashSet.{contains};
ghost use Rattle.clock_policy.specs.declared.key.Key.{Key};
ghost use Rattle.page_policies.specs.Strings.{is_page, misses as misses_by};
ghost use Rattle.page_policies.specs.Ordered.{last_of};
ghost use Rattle.younger_policies.specs.Sieve.{wrapped, hand_visited, passed, discarded, swept};
ghost use Rattle.younger_policies.specs.Sieve.{made_room, inserted, visit, in_sieve, sieve};
ghost use Rattle.younger_policies.specs.Sieve.{sieve_misses, queue_length, queue_of};

use clock_policy::Key;
use page_policies::{Frames, HitOrMiss, Policy, PolicyRefusal, Queue};
use std::alloc::{AllocError, Global};
use std::collections::HashSet;
use std::mem;

/// SIEVE: a queue that pages don't move in; a hand goes through it from its tail, passes pages that were used and takes the first that
/// was not.
#[derive(Drop)]
pub struct Sieve {
    frames: usize,
    /// from the queue's head to the page at the hand
    ahead: Queue,
    /// what the hand has passed
    behind: Queue,
    visited: HashSet<Key>,
}

/// No page is marked.
fn no_marks(alloc: Global) -> HashSet<Key>
    ensures { (q : Key) → contains is_page result q ≡ false }
{
    HashSet::new(alloc)
}

/// The page loses its mark, if it has one.
fn unmark(marks: &mut HashSet<Key>, page: Key)
    ensures { (q : Key) → contains is_page marks.new q ≡ cond (is_page page q) false
        (contains is_page marks.old q) }
{
    marks.remove(&page);
}

impl Sieve {
    /// Where nothing is ahead the hand goes back to the queue's tail.
    fn wrap(&mut self)
        ensures queue { queue_of self.new ≡ wrapped (queue_of self.old) }
        ensures frames { self.new.frames ≡ self.old.frames }
    {
        if self.ahead.len() == 0 {
            mem::swap(&mut self.ahead, &mut self.behind);
        }
    }

    /// The page at the hand leaves.
    fn discard(&mut self)
        ensures queue { queue_of self.new ≡ discarded (queue_of self.old) }
        ensures frames { self.new.frames ≡ self.old.frames }
    {
        self.ahead.pop();
        self.wrap();
    }

    /// Whether the page at the hand was used.
    fn is_hand_visited(&self) -> bool
        ensures { result ≡ hand_visited (last_of self.now.ahead) (queue_of self.now) }
    {
        match self.ahead.last() {
            Some(page) => self.visited.contains(&page),
            None => false,
        }
    }

    /// The hand passes a page, which loses its mark.
    fn pass(&mut self) -> Result<(), AllocError>
        ensures queue { OnOk result (queue_of self.new ≡ passed (last_of self.old.ahead) (queue_of
            self.old)) }
        ensures frames { self.new.frames ≡ self.old.frames }
    {
        let Some(page) = self.ahead.pop() else {
            return Ok(());
        };
        self.behind.push(page)?;
        unmark(&mut self.visited, page);
        self.wrap();
        Ok(())
    }

    /// Used pages are passed, so many at most, and then the page at the hand leaves.
    fn sweep(&mut self, turns: usize) -> Result<(), AllocError>
        ensures queue { OnOk result (queue_of self.new ≡ swept turns (queue_of self.old)) }
        ensures frames { self.new.frames ≡ self.old.frames }
    {
        for _turn in 0..turns {
            if !self.is_hand_visited() {
                self.discard();
                return Ok(());
            }
            self.pass()?;
        }
        self.discard();
        Ok(())
    }

    /// Room for one page.
    fn make_room(&mut self) -> Result<(), AllocError>
        ensures queue { OnOk result (queue_of self.new ≡ made_room self.old.frames (queue_of
            self.old)) }
        ensures frames { self.new.frames ≡ self.old.frames }
    {
        let len = self.ahead.len() + self.behind.len();
        if len < self.frames {
            return Ok(());
        }
        self.sweep(len)
    }

    /// A page comes to the queue's head.
    fn insert(&mut self, page: Key) -> Result<(), AllocError>
        ensures queue { OnOk result (queue_of self.new ≡ inserted page (queue_of self.old)) }
        ensures frames { self.new.frames ≡ self.old.frames }
    {
        unmark(&mut self.visited, page);
        self.ahead.push(page)
    }

    /// A page that is there was used.
    fn visit(&mut self, page: Key) -> Result<(), AllocError>
        ensures queue { OnOk result (queue_of self.new ≡ visit page (queue_of self.old)) }
        ensures memory { OnErr result (contains is_page self.old.visited page ≡ false) }
        ensures frames { self.new.frames ≡ self.old.frames }
    {
        match self.visited.insert(page) {
            Ok(_) => Ok(()),
            Err(_) => Err(AllocError),
        }
    }

    /// Whether the page is in a frame. Most pages that are used again are ones that the hand has passed.
    fn is_there(&self, page: Key) -> bool
        ensures { result ≡ in_sieve page (queue_of self.now) }
    {
        if self.behind.contains(page) {
            return true;
        }
        self.ahead.contains(page)
    }

    /// A page is used. Whether it was in a frame.
    fn step(&mut self, page: Key) -> Result<bool, AllocError>
        ensures hit { IfOk result (λ hit. hit ≡ in_sieve page (queue_of self.old)) }
        ensures queue { OnOk result (queue_of self.new ≡ sieve self.old.frames page (queue_of
            self.old)) }
        ensures memory { OnErr result (in_sieve page (queue_of self.old) ≡ true →
            contains is_page self.old.visited page ≡ false) }
        ensures frames { self.new.frames ≡ self.old.frames }
    {
        if !self.is_there(page) {
            self.make_room()?;
            self.insert(page)?;
            return Ok(false);
        }
        self.visit(page)?;
        Ok(true)
    }
}

impl Policy for Sieve {
    ghost misses = { sieve_misses };

    ghost to_miss = { λ policy string. misses_by in_sieve (sieve policy.frames) (queue_of policy)
        string };

    ghost refuses = { λ number. ⊥ };

    ghost grows = { λ policy page. in_sieve page (queue_of policy) ≡ true →
        contains is_page policy.visited page ≡ false };

    ghost none_to_miss = { λ policy. refl };

    #[tactic(auto, unfolding(crate::specs::Sieve::sieve_misses))]
    fn new(alloc: Global, frames: Frames) -> Result<Self, PolicyRefusal> {
        Ok(Sieve {
            frames: frames.number(),
            ahead: Queue::new(alloc)?,
            behind: Queue::new(alloc)?,
            visited: no_marks(alloc),
        })
    }

    fn refer(&mut self, page: Key) -> Result<HitOrMiss, AllocError> {
        if self.step(page)? {
            Ok(HitOrMiss::Hit)
        } else {
            Ok(HitOrMiss::Miss)
        }
    }
}
