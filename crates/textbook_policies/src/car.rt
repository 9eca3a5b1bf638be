//! CAR.

ghost use Rattle.std.specs.Prelude.{◌≡◌, ◌≤◌, ◌+◌, refl, cond, true, false, length};
ghost use Rattle.std.specs.Prelude.{IfOk, OnOk, OnErr};
ghost use Rattle.std.specs.HashSet.{contains};
ghost use Rattle.clock_policy.specs.declared.key.Key.{Key};
ghost use Rattle.page_policies.specs.Strings.{is_page, holds, misses as misses_by};
ghost use Rattle.page_policies.specs.Ordered.{last_of};
ghost use Rattle.textbook_policies.specs.Car.{takes_first, bit_of, cleared, first_out, first_on};
ghost use Rattle.textbook_policies.specs.Car.{second_out, second_on, head_used, head_out, head_on};
ghost use Rattle.textbook_policies.specs.Car.{replaced, in_frames, in_history, directory_cut};
ghost use Rattle.textbook_policies.specs.Car.{room_made, step_of, from_first, from_second, came};
ghost use Rattle.textbook_policies.specs.Car.{inserted, used, in_car, car, car_misses, clocks_of};

use clock_policy::Key;
use page_policies::{Frames, HitOrMiss, Policy, PolicyRefusal, Queue};
use std::alloc::{AllocError, Global};
use std::collections::HashSet;

/// CAR: two clocks, of the pages that were used once and of the others, whose shares go by which of the pages that left come back.
#[derive(Drop)]
pub struct Car {
    frames: usize,
    t1: Queue,
    t2: Queue,
    b1: Queue,
    b2: Queue,
    referenced: HashSet<Key>,
    target: usize,
}

/// No page has its bit set.
fn no_bits(alloc: Global) -> HashSet<Key>
    ensures { (q : Key) → contains is_page result q ≡ false }
{
    HashSet::new(alloc)
}

/// The page's bit is 0 from now on.
fn clear_bit(bits: &mut HashSet<Key>, page: Key)
    ensures { (q : Key) → contains is_page bits.new q ≡ cleared page (λ r. contains is_page bits.old
        r) q }
{
    bits.remove(&page);
}

/// By how much the target moves where a page of a list of the first length comes back.
fn step_of(hit: usize, other: usize) -> usize
    requires { 1 ≤ hit }
    ensures { result ≡ step_of hit other }
{
    (other / hit).max(1)
}

impl Car {
    /// Whether the page in question is at the head of T1.
    fn takes_first(&self) -> bool
        ensures { result ≡ takes_first (clocks_of self.now) }
    {
        self.target.max(1) <= self.t1.len()
    }

    /// Whether the page at the head of T1 was used.
    fn is_first_used(&self) -> bool
        ensures { result ≡ bit_of (last_of self.now.t1) (clocks_of self.now) }
    {
        match self.t1.last() {
            Some(page) => self.referenced.contains(&page),
            None => false,
        }
    }

    /// Whether the page at the head of T2 was used.
    fn is_second_used(&self) -> bool
        ensures { result ≡ bit_of (last_of self.now.t2) (clocks_of self.now) }
    {
        match self.t2.last() {
            Some(page) => self.referenced.contains(&page),
            None => false,
        }
    }

    /// Whether the page in question was used.
    fn is_head_used(&self) -> bool
        ensures { result ≡ head_used (clocks_of self.now) }
    {
        if self.takes_first() {
            self.is_first_used()
        } else {
            self.is_second_used()
        }
    }

    /// The page at the head of T1 leaves, and is remembered.
    fn take_first(&mut self) -> Result<(), AllocError>
        ensures clocks { OnOk result (clocks_of self.new ≡ first_out (clocks_of self.old)) }
        ensures frames { self.new.frames ≡ self.old.frames }
    {
        if let Some(page) = self.t1.pop() {
            self.b1.push(page)?;
        }
        Ok(())
    }

    /// The page at the head of T2 leaves, and is remembered.
    fn take_second(&mut self) -> Result<(), AllocError>
        ensures clocks { OnOk result (clocks_of self.new ≡ second_out (clocks_of self.old)) }
        ensures frames { self.new.frames ≡ self.old.frames }
    {
        if let Some(page) = self.t2.pop() {
            self.b2.push(page)?;
        }
        Ok(())
    }

    /// The page in question leaves.
    fn take_head(&mut self) -> Result<(), AllocError>
        ensures clocks { OnOk result (clocks_of self.new ≡ head_out (clocks_of self.old)) }
        ensures frames { self.new.frames ≡ self.old.frames }
    {
        if self.takes_first() {
            self.take_first()
        } else {
            self.take_second()
        }
    }

    /// The page at the head of T1 goes to the tail of T2, and its bit is cleared.
    fn pass_first(&mut self) -> Result<(), AllocError>
        ensures clocks { OnOk result (clocks_of self.new ≡ first_on (last_of self.old.t1) (clocks_of
            self.old)) }
        ensures frames { self.new.frames ≡ self.old.frames }
    {
        let Some(page) = self.t1.pop() else {
            return Ok(());
        };
        self.t2.push(page)?;
        clear_bit(&mut self.referenced, page);
        Ok(())
    }

    /// The page at the head of T2 goes to its tail, and its bit is cleared.
    fn pass_second(&mut self) -> Result<(), AllocError>
        ensures clocks { OnOk result (clocks_of self.new ≡ second_on (last_of self.old.t2) (clocks_of
            self.old)) }
        ensures frames { self.new.frames ≡ self.old.frames }
    {
        let Some(page) = self.t2.last() else {
            return Ok(());
        };
        clear_bit(&mut self.referenced, page);
        self.t2.push(page)
    }

    /// The page in question is passed.
    fn pass_head(&mut self) -> Result<(), AllocError>
        ensures clocks { OnOk result (clocks_of self.new ≡ head_on (clocks_of self.old)) }
        ensures frames { self.new.frames ≡ self.old.frames }
    {
        if self.takes_first() {
            self.pass_first()
        } else {
            self.pass_second()
        }
    }

    /// Used pages are passed, so many at most, and then one leaves.
    fn replace(&mut self, turns: usize) -> Result<(), AllocError>
        ensures clocks { OnOk result (clocks_of self.new ≡ replaced turns (clocks_of self.old)) }
        ensures frames { self.new.frames ≡ self.old.frames }
    {
        for _turn in 0..turns {
            if !self.is_head_used() {
                return self.take_head();
            }
            self.pass_head()?;
        }
        self.take_head()
    }

    /// Whether the page is remembered.
    fn is_remembered(&self, page: Key) -> bool
        ensures { result ≡ in_history page (clocks_of self.now) }
    {
        if self.b1.contains(page) {
            return true;
        }
        self.b2.contains(page)
    }

    /// How many pages there are in the four lists.
    fn all_pages(&self) -> u128
        ensures { result ≡ in_frames (clocks_of self.now) + (length self.now.b1 + length
            self.now.b2) }
    {
        let resident = self.t1.len() as u128 + self.t2.len() as u128;
        let others = self.b1.len() as u128 + self.b2.len() as u128;
        resident + others
    }

    /// Room in the lists of pages that left, for a page that is in no list.
    fn cut_directory(&mut self, page: Key)
        ensures clocks { clocks_of self.new ≡ directory_cut self.old.frames page (clocks_of
            self.old) }
        ensures frames { self.new.frames ≡ self.old.frames }
    {
        if self.is_remembered(page) {
            return;
        }
        if self.t1.len() + self.b1.len() == self.frames {
            self.b1.pop();
            return;
        }
        if self.all_pages() == 2 * self.frames as u128 {
            self.b2.pop();
        }
    }

    /// A page leaves, after so many turns at most.
    fn take_one(&mut self, turns: usize, page: Key) -> Result<(), AllocError>
        ensures clocks { OnOk result (clocks_of self.new ≡ directory_cut self.old.frames page (replaced
            turns (clocks_of self.old))) }
        ensures frames { self.new.frames ≡ self.old.frames }
    {
        self.replace(turns)?;
        self.cut_directory(page);
        Ok(())
    }

    /// Room for one page.
    fn make_room(&mut self, page: Key) -> Result<(), AllocError>
        ensures clocks { OnOk result (clocks_of self.new ≡ room_made self.old.frames page (clocks_of
            self.old)) }
        ensures frames { self.new.frames ≡ self.old.frames }
    {
        let len = self.t1.len() + self.t2.len();
        if len < self.frames {
            return Ok(());
        }
        self.take_one(len, page)
    }

    /// A page of B1 comes back.
    #[tactic(auto, using(crate::proofs::CarLaws::some_held))]
    fn fetch_from_first(&mut self, page: Key) -> Result<(), AllocError>
        requires { holds page self.old.b1 ≡ true }
        ensures clocks { OnOk result (clocks_of self.new ≡ from_first self.old.frames page (clocks_of
            self.old)) }
        ensures frames { self.new.frames ≡ self.old.frames }
    {
        let step = step_of(self.b1.len(), self.b2.len());
        self.target = self.target.saturating_add(step).min(self.frames);
        self.b1.remove(page);
        clear_bit(&mut self.referenced, page);
        self.t2.push(page)
    }

    /// A page of B2 comes back.
    #[tactic(auto, using(crate::proofs::CarLaws::some_held))]
    fn fetch_from_second(&mut self, page: Key) -> Result<(), AllocError>
        requires { holds page self.old.b2 ≡ true }
        ensures clocks { OnOk result (clocks_of self.new ≡ from_second page (clocks_of self.old)) }
        ensures frames { self.new.frames ≡ self.old.frames }
    {
        let step = step_of(self.b2.len(), self.b1.len());
        self.target = self.target.saturating_sub(step);
        self.b2.remove(page);
        clear_bit(&mut self.referenced, page);
        self.t2.push(page)
    }

    /// A page comes in that is in none of the lists.
    fn fetch_new(&mut self, page: Key) -> Result<(), AllocError>
        ensures clocks { OnOk result (clocks_of self.new ≡ came page (clocks_of self.old)) }
        ensures frames { self.new.frames ≡ self.old.frames }
    {
        clear_bit(&mut self.referenced, page);
        self.t1.push(page)
    }

    /// A page comes in that is in no frame.
    fn insert(&mut self, page: Key) -> Result<(), AllocError>
        ensures clocks { OnOk result (clocks_of self.new ≡ inserted self.old.frames page (clocks_of
            self.old)) }
        ensures frames { self.new.frames ≡ self.old.frames }
    {
        if self.b1.contains(page) {
            return self.fetch_from_first(page);
        }
        if self.b2.contains(page) {
            return self.fetch_from_second(page);
        }
        self.fetch_new(page)
    }

    /// A page that is there was used.
    fn note_use(&mut self, page: Key) -> Result<(), AllocError>
        ensures clocks { OnOk result (clocks_of self.new ≡ used page (clocks_of self.old)) }
        ensures memory { OnErr result (contains is_page self.old.referenced page ≡ false) }
        ensures frames { self.new.frames ≡ self.old.frames }
    {
        match self.referenced.insert(page) {
            Ok(_) => Ok(()),
            Err(_) => Err(AllocError),
        }
    }

    /// Whether the page is in a frame. Most that are used again are in T2.
    fn is_there(&self, page: Key) -> bool
        ensures { result ≡ in_car page (clocks_of self.now) }
    {
        if self.t2.contains(page) {
            return true;
        }
        self.t1.contains(page)
    }

    /// A page is used. Whether it was in a frame.
    fn step(&mut self, page: Key) -> Result<bool, AllocError>
        ensures hit { IfOk result (λ hit. hit ≡ in_car page (clocks_of self.old)) }
        ensures clocks { OnOk result (clocks_of self.new ≡ car self.old.frames page (clocks_of
            self.old)) }
        ensures memory { OnErr result (in_car page (clocks_of self.old) ≡ true →
            contains is_page self.old.referenced page ≡ false) }
        ensures frames { self.new.frames ≡ self.old.frames }
    {
        if !self.is_there(page) {
            self.make_room(page)?;
            self.insert(page)?;
            return Ok(false);
        }
        self.note_use(page)?;
        Ok(true)
    }
}

impl Policy for Car {
    ghost misses = { car_misses };

    ghost to_miss = { λ policy string. misses_by in_car (car policy.frames) (clocks_of policy)
        string };

    ghost refuses = { λ number. ⊥ };

    ghost grows = { λ policy page. in_car page (clocks_of policy) ≡ true →
        contains is_page policy.referenced page ≡ false };

    ghost none_to_miss = { λ policy. refl };

    #[tactic(auto, unfolding(crate::specs::Car::car_misses))]
    fn new(alloc: Global, frames: Frames) -> Result<Self, PolicyRefusal> {
        Ok(Car {
            frames: frames.number(),
            t1: Queue::new(alloc)?,
            t2: Queue::new(alloc)?,
            b1: Queue::new(alloc)?,
            b2: Queue::new(alloc)?,
            referenced: no_bits(alloc),
            target: 0,
        })
    }

    fn refer(&mut self, page: Key) -> Result<HitOrMiss, AllocError> {
        if self.step(page)? {
            Ok(HitOrMiss::Hit)
        } else {
            Ok(HitOrMiss::Miss)
        }
    }
}
