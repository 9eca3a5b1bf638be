//! What the pager's lock protects, and the calls on it and a process together.

ghost use Rattle.std.specs.Prelude.{◌≡◌, ◌⊎◌, ◌↔◌, ◌<◌, ◌+◌, ◌&&◌, nat_lt, false};
ghost use Rattle.std.specs.Prelude.{true, length, IfOk, IsErrOf};
ghost use Rattle.paged_memory.specs.Paged.{memory_of};
ghost use Rattle.pager_core.specs.Pager.{full_pager};
ghost use Rattle.held_machine.specs.Expected.{is_device, is_expected_end};

use crate::calls;
use crate::held::Held;
use clock_policy::{Clock, Key};
use frame_pool::PoolError;
use machine_sides::{
    Admission, Looked, NotAdmitted, PagerSide, PurgeRefusal, SaveFailure, SaveOutcome, Swept,
    has_room, is_leaving,
};
use page_store::SavedJob;
use std::alloc::Global;
use std::marker::Model;
use std::sync::ledger::{Blank, Ledger};
use swap_slots::{SlotPool, SwapSlot};

/// A pager, and whether only what events of the machine give has happened so far.
#[derive(Drop)]
pub struct Desk<L: Ledger, C: Clock> {
    pager: PagerSide<L, C>,
    sound: bool,
}

impl<L: Ledger, C: Clock> Model for Desk<L, C> {
    ghost use Rattle.held_machine.specs.DeskValue.{DeskValue};

    ghost Value = { DeskValue };

    ghost view = { λ d. record { pager = d.pager; sound = d.sound } };
}

impl<L: Ledger, C: Clock> Desk<L, C> {
    ghost use Rattle.held_machine.specs.DeskValue.{frames_wanted};
    ghost use Rattle.held_machine.specs.Sweeping.{SweepsHeld};
    ghost use Rattle.held_machine.specs.Collecting.{CollectsHeld};
    ghost use Rattle.held_machine.specs.SavingBack.{SavesHeld};
    ghost use Rattle.held_machine.specs.Admitting.{AdmitsOrNot, UndoesHeld};
    ghost use Rattle.held_machine.specs.Purging.{PurgesHeld};

    /// A pager of 4 to 4096 frames of zero bytes, all free, and an empty list. The ledger has one part for each frame, and one for
    /// the pager itself.
    pub fn new(alloc: Global, frames: u32, blank: Blank) -> Result<Self, PoolError>
        requires name { blank.name ≡ L.name }
        requires parts { blank.parts ≡ L.parts }
        requires one_each { L.parts ≡ frames + 1 }
        ensures pager { IfOk result (λ desk. desk.pager ≡
            record { pager = full_pager frames; saves = 0; drops = 0 }) }
        ensures sound { IfOk result (λ desk. desk.sound ≡ true) }
        ensures bad_size { IsErrOf result PoolError.BadSize ↔ ((frames < 4) ⊎ (4096 < frames)) }
    {
        Ok(Desk {
            pager: PagerSide::new(alloc, frames, blank)?,
            sound: true,
        })
    }

    /// The pager.
    pub fn pager(&self) -> &PagerSide<L, C>
        ensures { result.now ≡ self.now.pager }
    {
        &self.pager
    }

    /// Whether only what events of the machine give has happened so far.
    pub fn is_sound(&self) -> bool
        ensures { result ≡ self.now.sound }
    {
        self.sound
    }

    /// Whether fewer frames are free than are to be: one, or one for each sixteen of the machine's.
    pub fn wants_frames(&self) -> bool
        ensures { result ≡ nat_lt (length self.now.pager.pager.free)
            (frames_wanted self.now.pager.pager.size) }
    {
        let wanted = (self.pager.size() / 16).max(1);
        self.pager.counts().pager.free < wanted as usize
    }

    /// The pager, by itself.
    pub fn into_pager(self) -> PagerSide<L, C>
        ensures { result ≡ self.pager }
    {
        self.pager
    }

    /// Something happened that no event of the machine gives.
    pub fn mark_unsound(&mut self)
        ensures { self.new ≡ record self.old { sound = false } }
    {
        self.sound = false;
    }

    /// Asks the list, where the page that it asks for is one of this process.
    pub fn sweep<S: SwapSlot>(&mut self, held: &mut Held<L, S>) -> Option<Swept>
        ensures { SweepsHeld self.old self.new held.old held.new result }
    {
        if let Some(key) = self.pager.question() {
            if key.process != held.process() {
                self.mark_unsound();
                return None;
            }
        }
        Some(calls::sweep(&mut self.pager, held))
    }

    /// Looks whether a page of this process that is leaving can let its frame go. No call is made where the list would not take it
    /// back.
    pub fn collect<S: SwapSlot>(
        &mut self,
        held: &mut Held<L, S>,
        key: Key,
        slots: &mut SlotPool<S>,
    ) -> Option<Looked<S>>
        ensures collects { CollectsHeld key self.old self.new held.old held.new slots.old slots.new
            result }
        ensures memory { S.honest → memory_of S.content held.new.side.memory ≡
            memory_of S.content held.old.side.memory }
    {
        if held.process() != key.process {
            self.mark_unsound();
            return None;
        }
        if is_leaving(held.side(), key.vpn) && !self.pager.takes_back(key) {
            self.mark_unsound();
            return None;
        }
        Some(calls::collect(&mut self.pager, held, key.vpn, slots))
    }

    /// Ends the save of a page of this process. No call is made where the list would not take it back.
    #[tactic(auto, using(crate::proofs::Heeded::ended))]
    pub fn saved<S: SwapSlot>(
        &mut self,
        held: &mut Held<L, S>,
        job: SavedJob<S>,
    ) -> Option<SaveOutcome<S>>
        ensures saves { SavesHeld job self.old self.new held.old held.new result }
        ensures memory { S.honest → memory_of S.content held.new.side.memory ≡
            memory_of S.content held.old.side.memory }
    {
        if held.process() != job.process() {
            self.mark_unsound();
            return None;
        }
        if !self.pager.takes_back(job.key()) {
            self.mark_unsound();
            return None;
        }
        let outcome = calls::saved(&mut self.pager, held, job);
        self.stay_sound_if(is_expected_end(&outcome));
        Some(outcome)
    }

    /// Lists an absent page of this process, and takes the frame that it is to have.
    pub fn admit<S: SwapSlot>(
        &mut self,
        held: &Held<L, S>,
        key: Key,
    ) -> Option<Result<Admission<L>, NotAdmitted>>
        ensures { AdmitsOrNot self.old self.new held.now key result }
    {
        if held.process() != key.process {
            self.mark_unsound();
            return None;
        }
        Some(machine_sides::admit(&mut self.pager, held.side(), key))
    }

    /// Takes an admission of a page of this process back. It comes back where the process is another one.
    pub fn undo<S: SwapSlot>(
        &mut self,
        held: &Held<L, S>,
        admission: Admission<L>,
    ) -> Result<(), Admission<L>>
        ensures { UndoesHeld self.old self.new held.now admission result }
    {
        if held.process() != admission.key().process {
            self.mark_unsound();
            return Err(admission);
        }
        machine_sides::undo(&mut self.pager, held.side(), admission);
        Ok(())
    }

    /// The process of this number, which has ended, gives its frames and slots back, and the list forgets its pages. No call is made
    /// where the pool has no room for its slots.
    pub fn purge<S: SwapSlot>(
        &mut self,
        held: &mut Held<L, S>,
        number: u32,
        slots: &mut SlotPool<S>,
    ) -> Option<Result<(), PurgeRefusal>>
        ensures { PurgesHeld number self.old self.new held.old held.new slots.old slots.new result }
    {
        if held.process() != number {
            self.mark_unsound();
            return None;
        }
        if !has_room(held.side(), slots) {
            self.mark_unsound();
            return None;
        }
        Some(calls::purge(&mut self.pager, held, slots))
    }

    /// The machine stays sound only where this holds.
    fn stay_sound_if(&mut self, expected: bool)
        ensures { self.new ≡ record self.old { sound = self.old.sound && expected } }
    {
        if !expected {
            self.sound = false;
        }
    }
}

/// Whether it is the device that failed.
fn is_device(failure: SaveFailure) -> bool
    ensures { result ≡ is_device failure }
{
    matches!(failure, SaveFailure::Device)
}

/// Whether an event of the machine gives this end of a save.
fn is_expected_end<S: SwapSlot>(outcome: &SaveOutcome<S>) -> bool
    ensures { result ≡ is_expected_end outcome.now }
{
    match outcome {
        SaveOutcome::Freed => true,
        SaveOutcome::WrongPage(_) => false,
        SaveOutcome::ResidentAgain(failure) => is_device(*failure),
    }
}
