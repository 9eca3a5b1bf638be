//! Looks at a page that is leaving: its frame is freed, its bytes go to be saved, or it waits or returns.

ghost use Rattle.std.specs.Prelude.{◌≡◌, None, true, ◌++◌, [], ◌∷◌};
ghost use Rattle.pager_core.specs.Pager.{tallied};
ghost use Rattle.paged_memory.specs.Paged.{memory_of};
ghost use Rattle.machine_sides.specs.Agreeing.{AgreeStill};
ghost use Rattle.machine_sides.specs.Collecting.{is_leaving_at, Finds, FreesDropped, Looks};
ghost use Rattle.machine_sides.specs.Returning.{CanReturn};

use crate::pager_side::PagerSide;
use crate::places::state;
use crate::returning::bring_back;
use clock_policy::Clock;
use frame_pool::Frame;
use page_memory::PAGE_COUNT;
use page_store::{Collected, PageState, SaveJob};
use pager_core::tally;
use space_core::Space;
use std::sync::ledger::Ledger;
use swap_slots::{SlotPool, SwapSlot};

/// What came of a look at a page that is to leave its frame.
#[derive(Drop)]
pub enum Looked<S: SwapSlot> {
    /// The page is not leaving.
    NotLeaving,
    /// A cache holds a translation to its frame still.
    NotYet,
    /// It was unchanged and has left its frame, which is free.
    Freed,
    /// It is changed, and its bytes are to be saved.
    Dirty(SaveJob<S>),
    /// It is changed, and there is no slot for it: it is resident again.
    NoSlot,
}

/// Looks whether a page that is leaving can let its frame go: no cache may hold a translation of it. An unchanged page
/// goes to its backing, and its frame is free. A changed one is copied, to be saved to its slot or to a free one; where it
/// has none and none is free, it is listed and mapped again: the list has room for a page that is leaving.
#[tactic(auto, using(crate::proofs::Agreements::looks_agree))]
pub fn collect<L: Ledger, S: SwapSlot, C: Clock>(
    pager: &mut PagerSide<L, C>,
    process: &mut Space<L, S>,
    vpn: u32,
    slots: &mut SlotPool<S>,
) -> Looked<S>
    requires { is_leaving_at process.old vpn ≡ true → CanReturn vpn pager.old process.old }
    ensures looked { Looks vpn pager.old pager.new process.old process.new slots.old slots.new
        result }
    ensures agree { AgreeStill None pager.old.pager pager.new.pager process.old
        process.new }
    ensures memory { S.honest → memory_of S.content process.new.memory ≡
        memory_of S.content process.old.memory }
{
    look_at_page(pager, process, vpn, slots)
}

/// The look itself, at one page.
#[tactic(auto, using(crate::proofs::Returns::slotless_returns))]
fn look_at_page<L: Ledger, S: SwapSlot, C: Clock>(
    pager: &mut PagerSide<L, C>,
    process: &mut Space<L, S>,
    vpn: u32,
    slots: &mut SlotPool<S>,
) -> Looked<S>
    requires { is_leaving_at process.old vpn ≡ true → CanReturn vpn pager.old process.old }
    ensures looked { Looks vpn pager.old pager.new process.old process.new slots.old slots.new
        result }
    ensures memory { S.honest → memory_of S.content process.new.memory ≡
        memory_of S.content process.old.memory }
{
    match look(process, vpn, slots, &mut pager.room) {
        Collected::NotLeaving => Looked::NotLeaving,
        Collected::NotYet => Looked::NotYet,
        Collected::Clean(frame) => {
            pager.free_dropped(frame);
            Looked::Freed
        }
        Collected::Dirty(job) => Looked::Dirty(job),
        Collected::NoSlot => {
            bring_back(pager, process, vpn);
            Looked::NoSlot
        }
    }
}

impl<L: Ledger, C: Clock> PagerSide<L, C> {
    /// Gives back the frame of a page that was dropped, and counts it.
    pub(crate) fn free_dropped(&mut self, frame: Frame<L>)
        ensures { FreesDropped frame self.old self.new }
    {
        self.pager.put_back(frame);
        self.drops = tally(self.drops);
    }
}

/// Whether a page is on its way out of its frame.
pub fn is_leaving<L: Ledger, S: SwapSlot>(space: &Space<L, S>, vpn: u32) -> bool
    ensures { result ≡ is_leaving_at space.now vpn }
{
    match state(space, vpn) {
        Some(PageState::Leaving) => true,
        Some(
            PageState::Fresh
            | PageState::Resident
            | PageState::Saving
            | PageState::Away
            | PageState::Purged,
        ) => false,
        None => false,
    }
}

/// Looks whether a page can leave its frame. A slot is taken from the free ones only for a changed page that has none.
pub(crate) fn look<L: Ledger, S: SwapSlot>(
    space: &mut Space<L, S>,
    vpn: u32,
    slots: &mut SlotPool<S>,
    room: &mut Box<[u8; 4096]>,
) -> Collected<L, S>
    ensures found { Finds vpn space.old space.new slots.old slots.new result }
    ensures memory { S.honest → memory_of S.content space.new.memory ≡
        memory_of S.content space.old.memory }
{
    if vpn >= PAGE_COUNT {
        return Collected::NotLeaving;
    }
    let found = space.collect(vpn, &mut None, room);
    if !matches!(found, Collected::NoSlot) {
        return found;
    }
    let mut spare = slots.take();
    space.collect(vpn, &mut spare, room)
}
