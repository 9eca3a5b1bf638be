//! The end of a save in a process's memory: the frame is freed, or the page is leaving again.

ghost use Rattle.std.specs.Prelude.{◌≡◌, IfOk, IfErr};
ghost use Rattle.paged_memory.specs.moves.Moving.{IsNotSaved, OnlyPages, SavedAway};
ghost use Rattle.page_memory.specs.ReadOnly.{KeepsReadOnly};
ghost use Rattle.paged_memory.specs.Paged.{memory_of};

use crate::memory::PagedMemory;
use frame_pool::Frame;
use page_memory::PAGE_COUNT;
use page_store::{SaveRefusal, SavedJob};
use std::sync::ledger::Ledger;
use swap_slots::SwapSlot;

impl<L: Ledger, S: SwapSlot> PagedMemory<L, S> {
    /// Ends the save of a page: its frame comes free where it holds what was saved, and the device passed it. Else the
    /// page is leaving again, as a changed one, with its slot. A frame that comes free takes the room that is there, and
    /// leaves the one of the copy.
    pub fn saved(
        &mut self,
        job: SavedJob<S>,
        room: &mut Box<[u8; 4096]>,
    ) -> Result<Frame<L>, SaveRefusal<S>>
        ensures freed { IfOk result (λ frame. SavedAway job frame self.old self.new) }
        ensures refused { IfErr result (λ refusal. IsNotSaved job refusal self.old self.new) }
        ensures stays { OnlyPages self.old self.new }
        ensures memory { S.honest → memory_of S.content self.new ≡ memory_of S.content self.old }
        ensures read_only { KeepsReadOnly (memory_of S.content self.old)
            (memory_of S.content self.new) }
    {
        let vpn = job.vpn();
        if job.process() != self.process || vpn >= PAGE_COUNT {
            return Err(SaveRefusal::WrongPage(job));
        }
        let Some(place) = self.pages.place(vpn) else {
            return Err(SaveRefusal::WrongPage(job));
        };
        self.pages.at_mut(place).saved_in(job, room)
    }
}
