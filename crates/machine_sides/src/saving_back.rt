//! The end of a save: the page's frame is freed, or the page is resident and listed again.

ghost use Rattle.std.specs.Prelude.{◌≡◌, None};
ghost use Rattle.paged_memory.specs.Paged.{memory_of};
ghost use Rattle.machine_sides.specs.Agreeing.{AgreeStill};
ghost use Rattle.machine_sides.specs.SavingBack.{is_saving_at, Ends, EndsSave, FreesFrame};
ghost use Rattle.machine_sides.specs.Returning.{CanReturn};

use crate::pager_side::PagerSide;
use crate::places::state;
use crate::returning::bring_back;
use clock_policy::Clock;
use frame_pool::Frame;
use page_store::{PageState, SaveRefusal, SavedJob};
use pager_core::tally;
use space_core::Space;
use std::sync::ledger::Ledger;
use swap_slots::SwapSlot;

/// Why a page that was to be saved keeps its frame.
#[derive(Clone, Copy, PartialEq, Eq, Debug)]
pub enum SaveFailure {
    /// The frame no longer holds the bytes that were copied.
    Mismatch,
    /// The device failed when the copy was written.
    Device,
}

/// What came of a save that comes back.
#[derive(Drop)]
pub enum SaveOutcome<S: SwapSlot> {
    /// The page is in its slot, and its frame is free.
    Freed,
    /// The process has no such page that is being saved. Nothing has changed, and the job comes back.
    WrongPage(SavedJob<S>),
    /// The save failed, and the page is resident again, as a changed one.
    ResidentAgain(SaveFailure),
}

/// Ends the save of a page: its frame comes free where it holds what was saved, and the device passed it. Else the page
/// is resident again, and listed.
///
/// The process is the one of the save's page, for which the list has room.
#[tactic(auto, using(crate::proofs::Agreements::saved_agrees))]
pub fn saved<L: Ledger, S: SwapSlot, C: Clock>(
    pager: &mut PagerSide<L, C>,
    process: &mut Space<L, S>,
    job: SavedJob<S>,
) -> SaveOutcome<S>
    requires { CanReturn job.vpn pager.old process.old }
    ensures ends { EndsSave job pager.old pager.new process.old process.new result }
    ensures agree { AgreeStill None pager.old.pager pager.new.pager process.old
        process.new }
    ensures memory { S.honest → memory_of S.content process.new.memory ≡
        memory_of S.content process.old.memory }
{
    settle_save(pager, process, job)
}

/// The page goes to its slot or back to the list.
#[tactic(auto, using(crate::proofs::Returns::failed_returns))]
fn settle_save<L: Ledger, S: SwapSlot, C: Clock>(
    pager: &mut PagerSide<L, C>,
    process: &mut Space<L, S>,
    job: SavedJob<S>,
) -> SaveOutcome<S>
    requires { CanReturn job.vpn pager.old process.old }
    ensures ends { EndsSave job pager.old pager.new process.old process.new result }
    ensures memory { S.honest → memory_of S.content process.new.memory ≡
        memory_of S.content process.old.memory }
{
    let vpn = job.vpn();
    match end_save(process, job, &mut pager.room) {
        Ok(frame) => {
            pager.free_saved(frame);
            SaveOutcome::Freed
        }
        Err(refusal) => match refusal {
            SaveRefusal::WrongPage(job) => SaveOutcome::WrongPage(job),
            SaveRefusal::Mismatch => {
                bring_back(pager, process, vpn);
                SaveOutcome::ResidentAgain(SaveFailure::Mismatch)
            }
            SaveRefusal::Device => {
                bring_back(pager, process, vpn);
                SaveOutcome::ResidentAgain(SaveFailure::Device)
            }
        },
    }
}

/// Ends the save of a page of this process.
fn end_save<L: Ledger, S: SwapSlot>(
    space: &mut Space<L, S>,
    job: SavedJob<S>,
    room: &mut Box<[u8; 4096]>,
) -> Result<Frame<L>, SaveRefusal<S>>
    ensures ends { Ends job space.old space.new result }
    ensures process { space.new.memory.process ≡ space.old.memory.process }
    ensures memory { S.honest → memory_of S.content space.new.memory ≡
        memory_of S.content space.old.memory }
{
    space.saved(job, room)
}

/// Whether a page is being saved.
pub fn is_saving<L: Ledger, S: SwapSlot>(space: &Space<L, S>, vpn: u32) -> bool
    ensures { result ≡ is_saving_at space.now vpn }
{
    match state(space, vpn) {
        Some(PageState::Saving) => true,
        Some(
            PageState::Fresh
            | PageState::Resident
            | PageState::Leaving
            | PageState::Away
            | PageState::Purged,
        ) => false,
        None => false,
    }
}

impl<L: Ledger, C: Clock> PagerSide<L, C> {
    /// The frame of a page that was saved comes free, and is counted.
    fn free_saved(&mut self, frame: Frame<L>)
        ensures { FreesFrame frame self.old self.new }
    {
        self.pager.put_back(frame);
        self.saves = tally(self.saves);
    }
}
