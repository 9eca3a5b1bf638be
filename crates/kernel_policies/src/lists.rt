//! The two lists, and the shadows of pages that left them.

ghost use Rattle.std.specs.Prelude.{◌≡◌, ◌≤◌, ◌+◌, cond, true, false, length, []};
ghost use Rattle.std.specs.Prelude.{IfOk, OnOk, OnErr};
ghost use Rattle.std.specs.HashMap.{get};
ghost use Rattle.std.specs.HashSet.{contains};
ghost use Rattle.clock_policy.specs.declared.key.Key.{Key};
ghost use Rattle.page_policies.specs.Strings.{holds, is_page};
ghost use Rattle.page_policies.specs.NextUses.{known};
ghost use Rattle.kernel_policies.specs.TwoLists.{accessed, activated, arrives_marked, balanced};
ghost use Rattle.kernel_policies.specs.TwoLists.{came, demoted, evicted, in_lists, is_low, lists_of};
ghost use Rattle.kernel_policies.specs.TwoLists.{made_active, made_inactive, marked_as, no_shadow};
ghost use Rattle.kernel_policies.specs.TwoLists.{oldest_gone, placed, reclaimed, refaults, resident};
ghost use Rattle.kernel_policies.specs.TwoLists.{room_made, shadowed, shadows_cut, two_lists};
ghost use Rattle.kernel_policies.specs.TwoLists.{with_age, with_mark};

use clock_policy::Key;
use page_policies::Queue;
use std::alloc::{AllocError, Global};
use std::collections::{HashMap, HashSet};
use ticked_policies::Arrival;

/// The inactive and the active list, each with its head first, and the shadows, the last one first.
#[derive(Drop)]
pub(crate) struct Lists {
    pub(crate) inactive: Queue,
    pub(crate) active: Queue,
    pub(crate) shadows: Queue,
    pub(crate) referenced: HashSet<Key>,
    pub(crate) left_at: HashMap<Key, u64>,
    pub(crate) age: u64,
}

/// No page is marked.
fn no_marks(alloc: Global) -> HashSet<Key>
    ensures { (q : Key) → contains is_page result q ≡ false }
{
    HashSet::new(alloc)
}

/// No page has left.
fn no_ages(alloc: Global) -> HashMap<Key, u64>
    ensures { (q : Key) → known (get is_page result q) ≡ 0 }
{
    HashMap::new(alloc)
}

/// The page is marked from now on. Memory is wanted for one that was not.
fn set_mark(marks: &mut HashSet<Key>, page: Key) -> Result<(), AllocError>
    ensures marks { OnOk result ((q : Key) → contains is_page marks.new q ≡ with_mark page true
        (λ r. contains is_page marks.old r) q) }
    ensures memory { OnErr result (contains is_page marks.old page ≡ false) }
{
    match marks.insert(page) {
        Ok(_) => Ok(()),
        Err(_) => Err(AllocError),
    }
}

/// The page is not marked any more.
fn clear_mark(marks: &mut HashSet<Key>, page: Key)
    ensures { (q : Key) → contains is_page marks.new q ≡ with_mark page false (λ r. contains is_page
        marks.old r) q }
{
    marks.remove(&page);
}

/// When the page left.
fn age_of(ages: &HashMap<Key, u64>, page: Key) -> u64
    ensures { result ≡ known (get is_page ages.now page) }
{
    match ages.get(&page) {
        Some(age) => *age,
        None => 0,
    }
}

/// The page left at this value of the counter.
fn set_age(ages: &mut HashMap<Key, u64>, page: Key, age: u64) -> Result<(), AllocError>
    ensures { OnOk result ((q : Key) → known (get is_page ages.new q) ≡ with_age page age (λ r. known
        (get is_page ages.old r)) q) }
{
    match ages.insert(page, age) {
        Ok(_) => Ok(()),
        Err(_) => Err(AllocError),
    }
}

/// The page has no such value any more.
fn clear_age(ages: &mut HashMap<Key, u64>, page: Key)
    ensures { (q : Key) → known (get is_page ages.new q) ≡ with_age page 0 (λ r. known (get is_page
        ages.old r)) q }
{
    ages.remove(&page);
}

impl Lists {
    /// With no page.
    pub(crate) fn new(alloc: Global) -> Result<Lists, AllocError>
        ensures inactive { IfOk result (λ lists. lists.inactive ≡ []) }
        ensures active { IfOk result (λ lists. lists.active ≡ []) }
        ensures shadows { IfOk result (λ lists. lists.shadows ≡ []) }
        ensures referenced { IfOk result (λ lists. (q : Key) → contains is_page lists.referenced
            q ≡ false) }
        ensures left_at { IfOk result (λ lists. (q : Key) → known (get is_page lists.left_at
            q) ≡ 0) }
        ensures age { IfOk result (λ lists. lists.age ≡ 0) }
    {
        Ok(Lists {
            inactive: Queue::new(alloc)?,
            active: Queue::new(alloc)?,
            shadows: Queue::new(alloc)?,
            referenced: no_marks(alloc),
            left_at: no_ages(alloc),
            age: 0,
        })
    }

    /// Whether the active list is more than so many times as long as the inactive one.
    fn is_low(&self, ratio: usize) -> bool
        ensures { result ≡ is_low ratio (lists_of self.now) }
    {
        self.inactive.len().saturating_mul(ratio) < self.active.len()
    }

    /// The tail of the active list goes to the head of the inactive one.
    fn demote(&mut self) -> Result<(), AllocError>
        ensures { OnOk result (lists_of self.new ≡ demoted (lists_of self.old)) }
    {
        if let Some(page) = self.active.pop() {
            self.inactive.push(page)?;
        }
        Ok(())
    }

    /// The same so many times at most, while the active list is longer than it may be.
    fn balance(&mut self, ratio: usize, turns: usize) -> Result<(), AllocError>
        ensures { OnOk result (lists_of self.new ≡ balanced ratio turns (lists_of self.old)) }
    {
        for _turn in 0..turns {
            if !self.is_low(ratio) {
                return Ok(());
            }
            self.demote()?;
        }
        Ok(())
    }

    /// A page that has left has a shadow.
    fn add_shadow(&mut self, page: Key) -> Result<(), AllocError>
        ensures { OnOk result (lists_of self.new ≡ shadowed page (lists_of self.old)) }
    {
        self.age = self.age.saturating_add(1);
        clear_mark(&mut self.referenced, page);
        set_age(&mut self.left_at, page, self.age)?;
        self.shadows.push(page)
    }

    /// The tail of the inactive list leaves.
    fn evict(&mut self) -> Result<(), AllocError>
        ensures { OnOk result (lists_of self.new ≡ evicted (lists_of self.old)) }
    {
        match self.inactive.pop() {
            Some(page) => self.add_shadow(page),
            None => Ok(()),
        }
    }

    /// The oldest shadow goes.
    fn drop_shadow(&mut self)
        ensures { lists_of self.new ≡ oldest_gone (lists_of self.old) }
    {
        if let Some(page) = self.shadows.pop() {
            clear_age(&mut self.left_at, page);
        }
    }

    /// At most so many shadows are kept, where there is one more.
    fn cut_shadows(&mut self, most: usize)
        ensures { lists_of self.new ≡ shadows_cut most (lists_of self.old) }
    {
        if most < self.shadows.len() {
            self.drop_shadow();
        }
    }

    /// A page leaves.
    fn reclaim(&mut self, frames: usize, ratio: usize) -> Result<(), AllocError>
        ensures { OnOk result (lists_of self.new ≡ reclaimed frames ratio (lists_of self.old)) }
    {
        let turns = self.active.len();
        self.balance(ratio, turns)?;
        self.evict()?;
        self.cut_shadows(frames);
        Ok(())
    }

    /// Room for one page.
    fn make_room(&mut self, frames: usize, ratio: usize) -> Result<(), AllocError>
        ensures { OnOk result (lists_of self.new ≡ room_made frames ratio (lists_of self.old)) }
    {
        if self.inactive.len() + self.active.len() < frames {
            return Ok(());
        }
        self.reclaim(frames, ratio)
    }

    /// Whether the page left no longer ago than the active list is long.
    fn is_refault(&self, page: Key) -> bool
        ensures { result ≡ refaults page (lists_of self.now) }
    {
        if !self.shadows.contains(page) {
            return false;
        }
        self.age.saturating_sub(age_of(&self.left_at, page)) <= self.active.len() as u64
    }

    /// The page has no shadow any more.
    fn forget(&mut self, page: Key)
        ensures { lists_of self.new ≡ no_shadow page (lists_of self.old) }
    {
        self.shadows.remove(page);
        clear_age(&mut self.left_at, page);
    }

    /// The page comes to the head of the active list.
    fn make_active(&mut self, page: Key) -> Result<(), AllocError>
        ensures { OnOk result (lists_of self.new ≡ made_active page (lists_of self.old)) }
    {
        self.age = self.age.saturating_add(1);
        self.active.push(page)
    }

    /// The page comes to the head of its list.
    fn place(&mut self, is_refault: bool, page: Key) -> Result<(), AllocError>
        ensures { OnOk result (lists_of self.new ≡ placed is_refault page (lists_of self.old)) }
    {
        if is_refault {
            return self.make_active(page);
        }
        self.inactive.push(page)
    }

    /// A page that comes in is marked, or not.
    fn mark_arrival(&mut self, arrival: Arrival, page: Key) -> Result<(), AllocError>
        ensures { OnOk result (lists_of self.new ≡ marked_as (arrives_marked arrival) page (lists_of
            self.old)) }
    {
        match arrival {
            Arrival::Marked => self.mark(page),
            Arrival::Clear => {
                clear_mark(&mut self.referenced, page);
                Ok(())
            }
        }
    }

    /// The page comes in, where there is room for it.
    fn bring(&mut self, arrival: Arrival, page: Key) -> Result<(), AllocError>
        ensures { OnOk result (lists_of self.new ≡ came arrival page (lists_of self.old)) }
    {
        let is_refault = self.is_refault(page);
        self.forget(page);
        self.place(is_refault, page)?;
        self.mark_arrival(arrival, page)
    }

    /// The page is marked.
    fn mark(&mut self, page: Key) -> Result<(), AllocError>
        ensures lists { OnOk result (lists_of self.new ≡ marked_as true page (lists_of self.old)) }
        ensures memory { OnErr result (contains is_page self.old.referenced page ≡ false) }
    {
        set_mark(&mut self.referenced, page)
    }

    /// A marked inactive page becomes active.
    fn activate(&mut self, page: Key) -> Result<(), AllocError>
        ensures { OnOk result (lists_of self.new ≡ activated page (lists_of self.old)) }
    {
        self.inactive.remove(page);
        clear_mark(&mut self.referenced, page);
        self.make_active(page)
    }

    /// A page that is there was used.
    fn note_use(&mut self, page: Key) -> Result<(), AllocError>
        ensures lists { OnOk result (lists_of self.new ≡ accessed page (lists_of self.old)) }
        ensures memory { OnErr result (holds page self.old.active ≡ true →
            contains is_page self.old.referenced page ≡ false) }
    {
        if self.active.contains(page) {
            return self.mark(page);
        }
        if self.referenced.contains(&page) {
            return self.activate(page);
        }
        self.mark(page)
    }

    /// Whether the page is in a list. Most that are used again are active.
    fn is_there(&self, page: Key) -> bool
        ensures { result ≡ in_lists page (lists_of self.now) }
    {
        if self.active.contains(page) {
            return true;
        }
        self.inactive.contains(page)
    }

    /// A page is used. Whether it was in a frame.
    pub(crate) fn step(
        &mut self,
        frames: usize,
        ratio: usize,
        arrival: Arrival,
        page: Key,
    ) -> Result<bool, AllocError>
        ensures hit { IfOk result (λ hit. hit ≡ in_lists page (lists_of self.old)) }
        ensures lists { OnOk result (lists_of self.new ≡ two_lists frames ratio arrival page (lists_of
            self.old)) }
        ensures memory { OnErr result (holds page self.old.active ≡ true →
            contains is_page self.old.referenced page ≡ false) }
    {
        if !self.is_there(page) {
            self.make_room(frames, ratio)?;
            self.bring(arrival, page)?;
            return Ok(false);
        }
        self.note_use(page)?;
        Ok(true)
    }
}
