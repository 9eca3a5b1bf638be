//! An ended process gives its frames and slots back, and the replacement list forgets its pages.

ghost use Rattle.std.specs.Prelude.{◌≡◌, ◌<◌, ◌↔◌, None, IsSome, IsTrue, length};
ghost use Rattle.machine_sides.specs.Agreeing.{AgreeStill};
ghost use Rattle.machine_sides.specs.Giving.{FreesAnyFrame, GivesToPools, PoolsAnySlot};
ghost use Rattle.machine_sides.specs.Purging.{HasRoom, Purges, is_saving_any, purge_bars};

use crate::pager_side::PagerSide;
use clock_policy::Clock;
use frame_pool::Frame;
use pager_core::Pager;
use space_core::Space;
use std::sync::ledger::Ledger;
use swap_slots::{SlotPool, SwapSlot};
use thiserror::Error;

/// Why a process gives nothing back, in the order in which the reasons are tested.
#[derive(Clone, Copy, PartialEq, Eq, Debug, Error)]
pub enum PurgeRefusal {
    #[error("the process has not ended")]
    NotEnded,
    #[error("a page of the process is being saved")]
    SavingStill,
    #[error("the process has given its pages back")]
    AlreadyPurged,
}

/// An ended process gives its frames and slots back, and the list forgets its pages. The pool has room for the slots. A refusal
/// changes nothing.
#[tactic(auto, using(crate::proofs::Agreements::purge_agrees))]
pub fn purge<L: Ledger, S: SwapSlot, C: Clock>(
    pager: &mut PagerSide<L, C>,
    process: &mut Space<L, S>,
    slots: &mut SlotPool<S>,
) -> Result<(), PurgeRefusal>
    requires { HasRoom process.old slots.old }
    ensures purges { Purges pager.old pager.new process.old process.new slots.old slots.new result }
    ensures agree { AgreeStill None pager.old.pager pager.new.pager process.old
        process.new }
{
    give_back_and_forget(pager, process, slots)
}

/// The pages give back what they have, and then the list forgets them.
fn give_back_and_forget<L: Ledger, S: SwapSlot, C: Clock>(
    pager: &mut PagerSide<L, C>,
    process: &mut Space<L, S>,
    slots: &mut SlotPool<S>,
) -> Result<(), PurgeRefusal>
    requires { HasRoom process.old slots.old }
    ensures { Purges pager.old pager.new process.old process.new slots.old slots.new result }
{
    if let Some(refusal) = purge_bars(process) {
        return Err(refusal);
    }
    give_all_back(&mut pager.pager, process, slots);
    pager.pager.purge(process.process());
    process.mark_purged();
    Ok(())
}

/// Whether a pool has room for the slots of a process's pages, beside those that it has.
pub fn has_room<L: Ledger, S: SwapSlot>(process: &Space<L, S>, slots: &SlotPool<S>) -> bool
    ensures { IsTrue result ↔ HasRoom process.now slots.now }
{
    process.slots_at_hand() <= slots.size() - slots.len()
}

/// Why a process gives nothing back.
#[tactic(auto, unfolding(crate::specs::Purging::purge_bars))]
pub fn purge_bars<L: Ledger, S: SwapSlot>(process: &Space<L, S>) -> Option<PurgeRefusal>
    ensures { result ≡ purge_bars process.now }
{
    if process.end().is_none() {
        return Some(PurgeRefusal::NotEnded);
    }
    if is_saving(process) {
        return Some(PurgeRefusal::SavingStill);
    }
    if process.is_purged() {
        return Some(PurgeRefusal::AlreadyPurged);
    }
    None
}

/// Whether a page of a process is being saved, or a copy of one is out.
#[tactic(auto, using(crate::proofs::PurgeLaws::is_saving_some, crate::proofs::PurgeLaws::is_saving_none))]
fn is_saving<L: Ledger, S: SwapSlot>(space: &Space<L, S>) -> bool
    ensures { result ≡ is_saving_any space.now.memory }
{
    space.is_saving()
}

/// The pages of an ended process give back what they have.
fn give_all_back<L: Ledger, S: SwapSlot, C: Clock>(
    pager: &mut Pager<L, C>,
    space: &mut Space<L, S>,
    slots: &mut SlotPool<S>,
)
    requires ended { IsSome space.old.running.ending }
    requires room { HasRoom space.old slots.old }
    ensures { GivesToPools pager.old pager.new slots.old slots.new space.old space.new }
{
    let mut from = 0;
    while let Some((given, next)) = space.take_from(from) {
        from = next;
        let (frame, slot) = given;
        free_frame(pager, frame);
        pool_slot(slots, slot);
    }
}

/// A frame comes free, if there is one.
fn free_frame<L: Ledger, C: Clock>(pager: &mut Pager<L, C>, frame: Option<Frame<L>>)
    ensures { FreesAnyFrame frame pager.old pager.new }
{
    if let Some(frame) = frame {
        pager.put_back(frame);
    }
}

/// A slot comes into the pool, if there is one. The pool has room for it.
fn pool_slot<S: SwapSlot>(slots: &mut SlotPool<S>, slot: Option<S>)
    requires { IsSome slot → length slots.old.free < slots.old.size }
    ensures { PoolsAnySlot slot slots.old slots.new }
{
    if let Some(slot) = slot {
        slots.put_back(slot);
    }
}
