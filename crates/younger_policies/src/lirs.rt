//! LIRS.

ghost use Rattle.std.specs.Prelude.{◌≡◌, ◌+◌, ◌<◌, refl, cond, true, false, length, nat_lt, List, Some, IfOk, OnOk, OnErr};
ghost use Rattle.clock_policy.specs.declared.key.Key.{Key};
ghost use Rattle.page_policies.specs.Strings.{holds, without, misses as misses_by};
ghost use Rattle.page_policies.specs.Ordered.{last_of, to_front};
ghost use Rattle.younger_policies.specs.Lirs.{is_bottom_lir, without_bottom, pruned, demoted, made_lir, rooms_of};
ghost use Rattle.younger_policies.specs.Lirs.{kept_hir, promoted, becomes_lir, cut, gone_with, is_over, placed, room_made};
ghost use Rattle.younger_policies.specs.Lirs.{lir_used, hir_used, in_lirs, lirs, lirs_misses, usual_shares, lists_of, with_gone};

use crate::lirs_shares::{LirsRooms, LirsShares};
use clock_policy::Key;
use page_policies::{Frames, HitOrMiss, Policy, PolicyRefusal, Queue};
use std::alloc::{AllocError, Global};

/// LIRS: pages that come back soon (LIR) keep nearly all frames, and the others (HIR) go through the few that are left. A stack of
/// recency shows which pages are which. It remembers pages that left as long as they are in the stack, which may have a bound.
#[derive(Drop)]
pub struct Lirs {
    rooms: LirsRooms,
    /// the LIR pages, in the order of the stack
    lir: Queue,
    /// all pages by their last use, down to the LIR page whose last use is longest ago
    stack: Queue,
    /// the HIR pages in frames
    queue: Queue,
    /// the pages of the stack that are in no frame, in its order, if it has a bound
    gone: Queue,
}

/// The page comes to the front of the stack, in which it mostly is.
fn renew(stack: &mut Queue, page: Key) -> Result<(), AllocError>
    ensures order { OnOk result (stack.new ≡ to_front page stack.old) }
    ensures memory { OnErr result (holds page stack.old ≡ false) }
{
    if stack.touch(page) {
        return Ok(());
    }
    stack.push(page)
}

/// The page is taken out. Most often there are none at all.
fn forget(gone: &mut Queue, page: Key)
    ensures { gone.new ≡ without page gone.old }
{
    if gone.len() > 0 {
        gone.remove(page);
    }
}

impl Lirs {
    /// With its frames empty, divided so.
    #[tactic(auto, unfolding(crate::specs::Lirs::lirs_misses))]
    pub fn with_shares(
        alloc: Global,
        frames: Frames,
        shares: LirsShares,
    ) -> Result<Self, AllocError>
        ensures { IfOk result (λ policy. (string : List Key) → ⟦<Lirs as Policy>⟧.to_miss policy
            string ≡ lirs_misses shares frames.number string) }
    {
        Ok(Lirs {
            rooms: shares.rooms(frames),
            lir: Queue::new(alloc)?,
            stack: Queue::new(alloc)?,
            queue: Queue::new(alloc)?,
            gone: Queue::new(alloc)?,
        })
    }

    /// Whether the page at the bottom of the stack is an LIR page, if there is one.
    fn is_bottom_lir(&self) -> bool
        ensures { result ≡ is_bottom_lir (last_of self.now.stack) (lists_of self.now) }
    {
        match self.stack.last() {
            Some(page) => self.lir.contains(page),
            None => true,
        }
    }

    /// The page at the bottom of the stack is forgotten.
    fn drop_bottom(&mut self)
        ensures lists { lists_of self.new ≡ without_bottom (lists_of self.old) }
        ensures rooms { self.new.rooms ≡ self.old.rooms }
    {
        if let Some(page) = self.stack.pop() {
            forget(&mut self.gone, page);
        }
    }

    /// HIR pages at the bottom of the stack are forgotten, so many at most.
    fn prune(&mut self, turns: usize)
        ensures lists { lists_of self.new ≡ pruned turns (lists_of self.old) }
        ensures rooms { self.new.rooms ≡ self.old.rooms }
    {
        for _turn in 0..turns {
            if self.is_bottom_lir() {
                return;
            }
            self.drop_bottom();
        }
    }

    /// Where there are too many LIR pages the last one becomes an HIR page.
    fn demote(&mut self) -> Result<(), AllocError>
        ensures lists { OnOk result (lists_of self.new ≡ demoted self.old.rooms (lists_of
            self.old)) }
        ensures rooms { self.new.rooms ≡ self.old.rooms }
    {
        if self.rooms.most_lir < self.lir.len() {
            if let Some(page) = self.lir.pop() {
                self.queue.push(page)?;
            }
        }
        Ok(())
    }

    /// The page becomes an LIR page.
    fn make_lir(&mut self, page: Key) -> Result<(), AllocError>
        ensures lists { OnOk result (lists_of self.new ≡ made_lir page (lists_of self.old)) }
        ensures rooms { self.new.rooms ≡ self.old.rooms }
    {
        self.lir.push(page)?;
        self.stack.push(page)?;
        self.queue.remove(page);
        forget(&mut self.gone, page);
        Ok(())
    }

    /// The page is an HIR page as before.
    fn keep_hir(&mut self, page: Key) -> Result<(), AllocError>
        ensures lists { OnOk result (lists_of self.new ≡ kept_hir page (lists_of self.old)) }
        ensures rooms { self.new.rooms ≡ self.old.rooms }
    {
        self.stack.push(page)?;
        self.queue.push(page)
    }

    /// The page becomes an LIR page, for which another may no more be one.
    fn promote(&mut self, page: Key) -> Result<(), AllocError>
        ensures lists { OnOk result (lists_of self.new ≡ promoted self.old.rooms page (lists_of
            self.old)) }
        ensures rooms { self.new.rooms ≡ self.old.rooms }
    {
        self.make_lir(page)?;
        self.demote()?;
        let len = self.stack.len();
        self.prune(len);
        Ok(())
    }

    /// Whether the page is to become an LIR page.
    fn becomes_lir(&self, page: Key) -> bool
        ensures { result ≡ becomes_lir self.now.rooms page (lists_of self.now) }
    {
        if self.lir.len() < self.rooms.most_lir {
            return true;
        }
        self.stack.contains(page)
    }

    /// Whether the stack has more pages than its bound.
    fn is_over(&self) -> bool
        ensures { result ≡ is_over self.now.rooms.most_stack (length self.now.stack) }
    {
        match self.rooms.most_stack {
            Some(most) => most < self.stack.len(),
            None => false,
        }
    }

    /// Where the stack is over its bound the lowest of its pages that are in no frame leaves it.
    fn cut(&mut self)
        ensures lists { lists_of self.new ≡ cut self.old.rooms (lists_of self.old) }
        ensures rooms { self.new.rooms ≡ self.old.rooms }
    {
        if self.is_over() {
            if let Some(page) = self.gone.pop() {
                self.stack.remove(page);
            }
        }
    }

    /// A page that is no LIR page is used, and there is room for it.
    fn place(&mut self, page: Key) -> Result<(), AllocError>
        ensures lists { OnOk result (lists_of self.new ≡ placed self.old.rooms page (lists_of
            self.old)) }
        ensures rooms { self.new.rooms ≡ self.old.rooms }
    {
        if self.becomes_lir(page) {
            self.promote(page)
        } else {
            self.keep_hir(page)?;
            self.cut();
            Ok(())
        }
    }

    /// A page has left its frame. It is remembered as one in no frame where the stack has a bound and the page is in it.
    fn note_gone(&mut self, page: Key) -> Result<(), AllocError>
        ensures lists { OnOk result (lists_of self.new ≡ with_gone (gone_with self.old.rooms (Some
            page) (lists_of self.old)) (lists_of self.old)) }
        ensures rooms { self.new.rooms ≡ self.old.rooms }
    {
        if self.rooms.most_stack.is_none() {
            return Ok(());
        }
        if !self.stack.contains(page) {
            return Ok(());
        }
        self.gone.push(page)
    }

    /// Room for one page.
    fn make_room(&mut self) -> Result<(), AllocError>
        ensures lists { OnOk result (lists_of self.new ≡ room_made self.old.rooms (lists_of
            self.old)) }
        ensures rooms { self.new.rooms ≡ self.old.rooms }
    {
        if self.lir.len() + self.queue.len() < self.rooms.frames {
            return Ok(());
        }
        match self.queue.pop() {
            Some(page) => self.note_gone(page),
            None => Ok(()),
        }
    }

    /// The page is used where it is an LIR page. Whether it is.
    fn use_lir(&mut self, page: Key) -> Result<bool, AllocError>
        ensures found { IfOk result (λ found. found ≡ holds page self.old.lir) }
        ensures lists { OnOk result (lists_of self.new ≡ cond (holds page self.old.lir) (lir_used
            page (lists_of self.old)) (lists_of self.old)) }
        ensures memory { OnErr result (holds page self.old.stack ≡ false) }
        ensures rooms { self.new.rooms ≡ self.old.rooms }
    {
        if !self.lir.touch(page) {
            return Ok(false);
        }
        renew(&mut self.stack, page)?;
        let len = self.stack.len();
        self.prune(len);
        Ok(true)
    }

    /// A page is used. Whether it was in a frame.
    fn step(&mut self, page: Key) -> Result<bool, AllocError>
        ensures hit { IfOk result (λ hit. hit ≡ in_lirs page (lists_of self.old)) }
        ensures lists { OnOk result (lists_of self.new ≡ lirs self.old.rooms page (lists_of
            self.old)) }
        ensures memory { OnErr result (holds page self.old.lir ≡ true → holds page self.old.stack ≡
            false) }
        ensures rooms { self.new.rooms ≡ self.old.rooms }
    {
        if self.use_lir(page)? {
            return Ok(true);
        }
        if self.queue.contains(page) {
            self.place(page)?;
            return Ok(true);
        }
        self.make_room()?;
        self.place(page)?;
        Ok(false)
    }
}

impl Policy for Lirs {
    ghost misses = { lirs_misses usual_shares };

    ghost to_miss = { λ policy string. misses_by in_lirs (lirs policy.rooms) (lists_of policy)
        string };

    ghost refuses = { λ number. ⊥ };

    ghost grows = { λ policy page. holds page policy.lir ≡ true → holds page policy.stack ≡ false };

    ghost none_to_miss = { λ policy. refl };

    fn new(alloc: Global, frames: Frames) -> Result<Self, PolicyRefusal> {
        Ok(Lirs::with_shares(alloc, frames, LirsShares::USUAL)?)
    }

    fn refer(&mut self, page: Key) -> Result<HitOrMiss, AllocError> {
        if self.step(page)? {
            Ok(HitOrMiss::Hit)
        } else {
            Ok(HitOrMiss::Miss)
        }
    }
}
