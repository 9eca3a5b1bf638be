//! What can happen to a page that is leaving: it lets its frame go, its save ends, or it is mapped again.

ghost use Rattle.std.specs.Prelude.{◌≡◌, ◌<◌, ◌^◌, ◌↔◌, false, IfOk, IfErr, OnOk, OnErr, IsErr};
ghost use Rattle.paged_memory.specs.moves.Leaving.{lets_go};
ghost use Rattle.paged_memory.specs.cleaning.Copies.{LeavesCopies};
ghost use Rattle.paged_memory.specs.moves.Moving.{IsNotSaved, LooksAt, MapsAgain, SameCaches, SavedAway};
ghost use Rattle.paged_memory.specs.moves.Moving.{with_pages};
ghost use Rattle.paged_memory.specs.Paged.{memory_of};
ghost use Rattle.paged_memory.specs.moves.Stages.{is_leaving_stage};
ghost use Rattle.paged_memory.specs.Whole.{stage_in};

use crate::space::Space;
use frame_pool::Frame;
use page_store::{Collected, NotLeaving, SaveRefusal, SavedJob};
use std::sync::ledger::Ledger;
use swap_slots::SwapSlot;

impl<L: Ledger, S: SwapSlot> Space<L, S> {
    /// Looks whether a page that is leaving can let its frame go: no cache may hold a translation of it. An unchanged
    /// page goes to its backing, and a changed one to be saved, to its slot or to the spare one. Its copy is made in the
    /// room, and its frame's own is left there.
    pub fn collect(
        &mut self,
        vpn: u32,
        spare: &mut Option<S>,
        room: &mut Box<[u8; 4096]>,
    ) -> Collected<L, S>
        requires { vpn < 2 ^ 20 }
        ensures answer { LooksAt vpn spare.old spare.new result self.old.memory self.new.memory }
        ensures stays { self.new ≡ record self.old {
          memory = with_pages self.old.memory
              self.new.memory;
        } }
        ensures same { lets_go result ≡ false → self.new ≡ self.old }
        ensures memory { S.honest → memory_of S.content self.new.memory ≡
            memory_of S.content self.old.memory }
        ensures copies { LeavesCopies self.old.memory self.new.memory }
    {
        self.memory.collect(vpn, spare, room)
    }

    /// Ends the save of a page: its frame comes free where it holds what was saved, and the device passed it. Else the
    /// page is leaving again, as a changed one, with its slot. A frame that comes free takes the room that is there, and
    /// leaves the one of the copy.
    pub fn saved(
        &mut self,
        job: SavedJob<S>,
        room: &mut Box<[u8; 4096]>,
    ) -> Result<Frame<L>, SaveRefusal<S>>
        ensures freed { IfOk result (λ frame. SavedAway job frame self.old.memory self.new.memory) }
        ensures refused { IfErr result (λ refusal.
            IsNotSaved job refusal self.old.memory self.new.memory) }
        ensures stays { self.new ≡ record self.old {
          memory = with_pages self.old.memory
              self.new.memory;
        } }
        ensures memory { S.honest → memory_of S.content self.new.memory ≡
            memory_of S.content self.old.memory }
        ensures copies { LeavesCopies self.old.memory self.new.memory }
    {
        self.memory.saved(job, room)
    }

    /// Maps a page that is leaving again, in its frame, as one that was not used yet. Takes no memory.
    pub fn bring_back(&mut self, vpn: u32) -> Result<(), NotLeaving>
        requires { vpn < 2 ^ 20 }
        ensures ok { OnOk result (MapsAgain vpn self.old.memory self.new.memory) }
        ensures refused { IsErr result ↔ (is_leaving_stage (stage_in self.old.memory vpn) ≡ false) }
        ensures err { OnErr result (self.new ≡ self.old) }
        ensures stays { self.new ≡ record self.old { memory = self.new.memory } }
        ensures process { self.new.memory.process ≡ self.old.memory.process }
        ensures caches { SameCaches self.old.memory self.new.memory }
        ensures memory { memory_of S.content self.new.memory ≡ memory_of S.content self.old.memory }
        ensures copies { LeavesCopies self.old.memory self.new.memory }
    {
        self.memory.bring_back(vpn)
    }
}
