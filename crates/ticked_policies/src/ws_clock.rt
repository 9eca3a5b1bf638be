//! WSClock.

ghost use Rattle.std.specs.Prelude.{◌≡◌, refl, cond, true, false, length};
ghost use Rattle.std.specs.Prelude.{List, IfOk, OnOk};
ghost use Rattle.std.specs.HashMap.{get};
ghost use Rattle.clock_policy.specs.declared.key.Key.{Key};
ghost use Rattle.ticked_policies.specs.declared.page_use.PageUse.{PageUse};
ghost use Rattle.page_policies.specs.Strings.{is_page};
ghost use Rattle.page_policies.specs.Ordered.{last_of};
ghost use Rattle.ticked_policies.specs.declared.hand_step.HandStep.TheVariants.{Passes};
ghost use Rattle.ticked_policies.specs.Uses.{misses as misses_by};
ghost use Rattle.ticked_policies.specs.WsClock.{after_first, after_second, at_next, came, circle_of};
ghost use Rattle.ticked_policies.specs.WsClock.{gone, hand_step, in_ws_clock, is_changed, marked};
ghost use Rattle.ticked_policies.specs.WsClock.{moved_on, passed, room_made, sought, tau_of, turned};
ghost use Rattle.ticked_policies.specs.WsClock.{unmarked, used_again, ws_clock, ws_clock_at};
ghost use Rattle.ticked_policies.specs.WsClock.{ws_clock_misses};

use crate::hand_step::{HandStep, seen, step_at};
use crate::marks::Marks;
use crate::page_use::PageUse;
use crate::working_set_time::WorkingSetTime;
use crate::writing_policy::WritingPolicy;
use clock_policy::Key;
use page_policies::{Frames, HitOrMiss, PolicyRefusal, Queue};
use std::alloc::{AllocError, Global};
use std::collections::HashMap;

/// WSClock: the hand passes pages of the working set, and has changed pages written.
///
/// The page at the hand is the last of the queue.
#[derive(Drop)]
pub struct WsClock {
    frames: usize,
    tau: u64,
    time: u64,
    pages: Queue,
    marks: HashMap<Key, Marks>,
}

/// No page has marks.
fn no_marks(alloc: Global) -> HashMap<Key, Marks>
    ensures { (q : Key) → marked (get is_page result q) ≡ unmarked }
{
    HashMap::new(alloc)
}

/// The marks of a page.
fn marks_of(marks: &HashMap<Key, Marks>, page: Key) -> Marks
    ensures { result ≡ marked (get is_page marks.now page) }
{
    match marks.get(&page) {
        Some(marks) => *marks,
        None => Marks {
            used: false,
            changed: false,
            number: 0,
        },
    }
}

/// A page has these marks from now on.
fn set_marks(marks: &mut HashMap<Key, Marks>, page: Key, of_page: Marks) -> Result<(), AllocError>
    ensures { OnOk result ((q : Key) → marked (get is_page marks.new q) ≡ cond (is_page page q)
        of_page (marked (get is_page marks.old q))) }
{
    match marks.insert(page, of_page) {
        Ok(_) => Ok(()),
        Err(_) => Err(AllocError),
    }
}

/// A page has no marks any more.
fn clear_marks(marks: &mut HashMap<Key, Marks>, page: Key)
    ensures { (q : Key) → marked (get is_page marks.new q) ≡ cond (is_page page q) unmarked
        (marked (get is_page marks.old q)) }
{
    marks.remove(&page);
}

/// How old a use is that is in the working set.
fn tau_of(tau: Option<u32>, frames: Frames) -> u64
    ensures { result ≡ tau_of tau frames.number }
{
    match tau {
        Some(tau) => u64::from(tau),
        None => 2 * frames.number() as u64,
    }
}

impl WsClock {
    /// With its frames empty, and such a working set.
    pub fn with_time(alloc: Global, frames: Frames, set: WorkingSetTime) -> Result<Self, AllocError>
        ensures { IfOk result (λ policy. (string : List PageUse) →
            ⟦<WsClock as WritingPolicy>⟧.to_miss policy string ≡ ws_clock_misses set frames.number
            string) }
    {
        Ok(WsClock {
            frames: frames.number(),
            tau: tau_of(set.tau, frames),
            time: 0,
            pages: Queue::new(alloc)?,
            marks: no_marks(alloc),
        })
    }

    /// What the hand does at its page.
    fn hand_step(&self) -> HandStep
        ensures { result ≡ hand_step self.now.tau (last_of self.now.pages) (circle_of self.now) }
    {
        match self.pages.last() {
            Some(page) => step_at(self.tau, self.time, marks_of(&self.marks, page)),
            None => HandStep::Finds,
        }
    }

    /// The hand passes a page.
    fn pass(&mut self) -> Result<(), AllocError>
        ensures circle { OnOk result (circle_of self.new ≡ passed self.old.tau (last_of
            self.old.pages) (circle_of self.old)) }
        ensures tau { self.new.tau ≡ self.old.tau }
        ensures frames { self.new.frames ≡ self.old.frames }
    {
        let Some(page) = self.pages.last() else {
            return Ok(());
        };
        let marks = seen(self.tau, self.time, marks_of(&self.marks, page));
        set_marks(&mut self.marks, page, marks)?;
        self.pages.push(page)
    }

    /// A turn of the hand, with so many steps at most.
    fn turn(&mut self, steps: usize) -> Result<HandStep, AllocError>
        ensures end { IfOk result (λ end. end ≡ (turned steps self.old.tau Passes (circle_of
            self.old)).0) }
        ensures circle { OnOk result (circle_of self.new ≡ (turned steps self.old.tau Passes (circle_of
            self.old)).1) }
        ensures tau { self.new.tau ≡ self.old.tau }
        ensures frames { self.new.frames ≡ self.old.frames }
    {
        let mut so_far = HandStep::Passes;
        for _turn in 0..steps {
            let step = self.hand_step();
            if step.finds() {
                return Ok(HandStep::Finds);
            }
            self.pass()?;
            so_far = step.after(so_far);
        }
        Ok(so_far)
    }

    /// Whether the page at the hand is changed.
    fn is_hand_changed(&self) -> bool
        ensures { result ≡ is_changed (last_of self.now.pages) (circle_of self.now) }
    {
        match self.pages.last() {
            Some(page) => marks_of(&self.marks, page).changed,
            None => false,
        }
    }

    /// The hand moves on.
    fn move_on(&mut self) -> Result<(), AllocError>
        ensures circle { OnOk result (circle_of self.new ≡ moved_on (last_of self.old.pages)
            (circle_of self.old)) }
        ensures tau { self.new.tau ≡ self.old.tau }
        ensures frames { self.new.frames ≡ self.old.frames }
    {
        match self.pages.last() {
            Some(page) => self.pages.push(page),
            None => Ok(()),
        }
    }

    /// The hand passes changed pages, so many at most.
    fn seek(&mut self, steps: usize) -> Result<(), AllocError>
        ensures circle { OnOk result (circle_of self.new ≡ sought steps (circle_of self.old)) }
        ensures tau { self.new.tau ≡ self.old.tau }
        ensures frames { self.new.frames ≡ self.old.frames }
    {
        for _turn in 0..steps {
            if !self.is_hand_changed() {
                return Ok(());
            }
            self.move_on()?;
        }
        Ok(())
    }

    /// The second turn, whose pages the first has had written.
    fn turn_again(&mut self, steps: usize) -> Result<(), AllocError>
        ensures circle { OnOk result (circle_of self.new ≡ after_second steps (turned steps self.old.tau
            Passes (circle_of self.old))) }
        ensures tau { self.new.tau ≡ self.old.tau }
        ensures frames { self.new.frames ≡ self.old.frames }
    {
        match self.turn(steps)? {
            HandStep::Finds => Ok(()),
            HandStep::Passes => self.seek(steps),
            HandStep::Writes => self.seek(steps),
        }
    }

    /// The hand goes to the page that leaves.
    fn find(&mut self, steps: usize) -> Result<(), AllocError>
        ensures circle { OnOk result (circle_of self.new ≡ after_first steps self.old.tau (turned steps
            self.old.tau Passes (circle_of self.old))) }
        ensures tau { self.new.tau ≡ self.old.tau }
        ensures frames { self.new.frames ≡ self.old.frames }
    {
        match self.turn(steps)? {
            HandStep::Finds => Ok(()),
            HandStep::Passes => self.seek(steps),
            HandStep::Writes => self.turn_again(steps),
        }
    }

    /// The page at the hand leaves.
    fn let_go(&mut self)
        ensures circle { circle_of self.new ≡ gone (circle_of self.old) }
        ensures tau { self.new.tau ≡ self.old.tau }
        ensures frames { self.new.frames ≡ self.old.frames }
    {
        if let Some(page) = self.pages.pop() {
            clear_marks(&mut self.marks, page);
        }
    }

    /// Room for one page.
    fn make_room(&mut self) -> Result<(), AllocError>
        ensures circle { OnOk result (circle_of self.new ≡ room_made self.old.frames self.old.tau
            (circle_of self.old)) }
        ensures tau { self.new.tau ≡ self.old.tau }
        ensures frames { self.new.frames ≡ self.old.frames }
    {
        let len = self.pages.len();
        if len < self.frames {
            return Ok(());
        }
        self.find(len)?;
        self.let_go();
        Ok(())
    }

    /// A page comes in, where the hand comes last.
    fn bring(&mut self, page_use: PageUse) -> Result<(), AllocError>
        ensures circle { OnOk result (circle_of self.new ≡ came page_use (circle_of self.old)) }
        ensures tau { self.new.tau ≡ self.old.tau }
        ensures frames { self.new.frames ≡ self.old.frames }
    {
        let marks = Marks::fresh(page_use.is_written, self.time);
        set_marks(&mut self.marks, page_use.page, marks)?;
        self.pages.push(page_use.page)
    }

    /// A page that is there was used.
    fn note_use(&mut self, page_use: PageUse) -> Result<(), AllocError>
        ensures circle { OnOk result (circle_of self.new ≡ used_again page_use (circle_of self.old)) }
        ensures tau { self.new.tau ≡ self.old.tau }
        ensures frames { self.new.frames ≡ self.old.frames }
    {
        let marks = marks_of(&self.marks, page_use.page).used_by(page_use.is_written);
        set_marks(&mut self.marks, page_use.page, marks)
    }

    /// A page is used. Whether it was in a frame.
    fn serve(&mut self, page_use: PageUse) -> Result<bool, AllocError>
        ensures hit { IfOk result (λ hit. hit ≡ in_ws_clock page_use.page (circle_of self.old)) }
        ensures circle { OnOk result (circle_of self.new ≡ ws_clock_at self.old.frames self.old.tau
            page_use (circle_of self.old)) }
        ensures tau { self.new.tau ≡ self.old.tau }
        ensures frames { self.new.frames ≡ self.old.frames }
    {
        if self.pages.contains(page_use.page) {
            self.note_use(page_use)?;
            return Ok(true);
        }
        self.make_room()?;
        self.bring(page_use)?;
        Ok(false)
    }

    /// The same at the next moment.
    fn step(&mut self, page_use: PageUse) -> Result<bool, AllocError>
        ensures hit { IfOk result (λ hit. hit ≡ in_ws_clock page_use.page (circle_of self.old)) }
        ensures circle { OnOk result (circle_of self.new ≡ ws_clock self.old.frames self.old.tau
            page_use (circle_of self.old)) }
        ensures tau { self.new.tau ≡ self.old.tau }
        ensures frames { self.new.frames ≡ self.old.frames }
    {
        self.time = self.time.saturating_add(1);
        self.serve(page_use)
    }
}

impl WritingPolicy for WsClock {
    ghost use Rattle.std.specs.Prelude.{⊤};

    ghost to_miss = { λ policy string. misses_by in_ws_clock (ws_clock policy.frames policy.tau)
        (circle_of policy) string };

    ghost grows = { λ policy page. ⊤ };

    ghost none_to_miss = { λ policy. refl };

    fn refer(&mut self, page_use: PageUse) -> Result<HitOrMiss, AllocError> {
        if self.step(page_use)? {
            Ok(HitOrMiss::Hit)
        } else {
            Ok(HitOrMiss::Miss)
        }
    }
}
