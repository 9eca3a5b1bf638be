//! A process on paged memory: what it shows of its run, and how its pages begin to leave their frames.

ghost use Rattle.std.specs.Prelude.{◌≡◌, ◌<◌, ◌≤◌, ◌^◌, true, Some, option_copied, slice_get};
ghost use Rattle.std.specs.Prelude.{OnSome, IfNone, OnOk, OnErr, IfErr};
ghost use Rattle.std.specs.Option.{option_or};
ghost use Rattle.paged_memory.specs.cleaning.Copies.{LeavesCopies};
ghost use Rattle.paged_memory.specs.moves.Moving.{ForgetsUse, BeginsToLeave, DoesNotLeave};
ghost use Rattle.paged_memory.specs.Paged.{memory_of};
ghost use Rattle.paged_memory.specs.Whole.{accessed_in, frames_among, residents_among};
ghost use Rattle.paged_memory.specs.Whole.{slots_within, stage_in};
ghost use Rattle.space_core.specs.Caches.{noticed, if_killed};
ghost use Rattle.space_core.specs.StandsFor.{OfFlat, own_ending};

use crate::recorded::Recorded;
use decoded_pages::DecodedPages;
use elf_image::Image;
use flat_machine::{End, KillCause, Schedule, Turn};
use page_store::{LeaveRefusal, PageState};
use paged_memory::{HeldPages, PagedMemory};
use rv_exec::Regs;
use shared_origins::SharedBytes;
use std::marker::Model;
use std::sync::ledger::Ledger;
use swap_slots::SwapSlot;

/// A process whose pages come and go.
#[derive(Drop)]
pub struct Space<L: Ledger, S: SwapSlot> {
    pub(crate) image: Image,
    pub(crate) input: SharedBytes,
    pub(crate) recorded: Recorded,
    pub(crate) memory: PagedMemory<L, S>,
    /// The pages of its memory that may be run and never written.
    pub(crate) decoded: DecodedPages,
    /// Whether it has given all its pages back.
    pub(crate) purged: bool,
}

impl<L: Ledger, S: SwapSlot> Model for Space<L, S> {
    ghost use Rattle.space_core.specs.StandsFor.{SpaceValue, IsDecodedSpace};

    ghost Value = { SpaceValue S };

    ghost view = { λ space. record {
      image = space.image;
      input = space.input;
      running = space.recorded.running;
      schedule = space.recorded.schedule;
      memory = space.memory;
      purged = space.purged;
    } };

    ghost invariant = { λ space. IsDecodedSpace S.content S.honest space.decoded
        (record {
          image = space.image;
          input = space.input;
          running = space.recorded.running;
          schedule = space.recorded.schedule;
          memory = space.memory;
          purged = space.purged;
        }) };
}

impl<L: Ledger, S: SwapSlot> Space<L, S> {
    /// Where a page is, or `None` where none is mapped.
    pub fn state(&self, vpn: u32) -> Option<PageState>
        requires { vpn < 2 ^ 20 }
        ensures { result ≡ stage_in self.now.memory vpn }
    {
        self.memory.state(vpn)
    }

    /// Counts the pages that are in frames.
    pub fn held_pages(&self) -> HeldPages
        ensures resident { result.resident ≡ residents_among self.now.memory (λ _. true) }
        ensures framed { result.framed ≡ frames_among self.now.memory (λ _. true) }
        ensures few_resident { result.resident ≤ 2 ^ 20 }
        ensures few_framed { result.framed ≤ 2 ^ 20 }
    {
        self.memory.held_pages()
    }

    /// Counts the pages that have a slot at hand.
    pub fn slots_at_hand(&self) -> usize
        ensures { result ≡ slots_within self.now.memory }
    {
        self.memory.slots_at_hand()
    }

    /// Clears the mark that a resident page was used, and answers what it was, or `None` where the page is not resident.
    /// Its translations are marked as ones to be dropped, so that the next use marks it again.
    pub fn test_and_clear(&mut self, vpn: u32) -> Option<bool>
        requires { vpn < 2 ^ 20 }
        ensures answer { result ≡ accessed_in self.old.memory vpn }
        ensures forgets { OnSome result (ForgetsUse vpn self.old.memory self.new.memory) }
        ensures gone { IfNone result (self.new ≡ self.old) }
        ensures stays { self.new ≡ record self.old { memory = self.new.memory } }
        ensures process { self.new.memory.process ≡ self.old.memory.process }
        ensures reserved { self.new.memory.reserved ≡ self.old.memory.reserved }
        ensures copies { LeavesCopies self.old.memory self.new.memory }
    {
        self.memory.test_and_clear_accessed(vpn)
    }

    /// A resident page begins to leave its frame: it is unmapped, and its translations are marked as ones to be dropped.
    /// The frame stays with it until it is collected.
    pub fn begin_evict(&mut self, vpn: u32) -> Result<(), LeaveRefusal>
        requires { vpn < 2 ^ 20 }
        ensures ok { OnOk result (BeginsToLeave vpn self.old.memory self.new.memory) }
        ensures refused { IfErr result (λ refusal. DoesNotLeave vpn refusal self.old.memory) }
        ensures err { OnErr result (self.new ≡ self.old) }
        ensures stays { self.new ≡ record self.old { memory = self.new.memory } }
        ensures process { self.new.memory.process ≡ self.old.memory.process }
        ensures memory { memory_of S.content self.new.memory ≡ memory_of S.content self.old.memory }
        ensures copies { LeavesCopies self.old.memory self.new.memory }
    {
        self.memory.begin_evict(vpn)
    }

    /// A hart drops its translations that are marked as ones to be dropped. A hart that was not started has none.
    pub fn take_notices(&mut self, hart: u32)
        ensures { self.new ≡ record self.old { memory = noticed hart self.old.memory } }
    {
        let hart = hart as usize;
        if hart < self.memory.harts() {
            self.memory.take_notices(hart);
        }
    }

    /// The machine ends the process, unless it has ended: its harts' caches are emptied.
    pub fn kill(&mut self, cause: KillCause)
        ensures { self.new ≡ record self.old {
          running = record self.old.running {
            ending = option_or self.old.running.ending (Some (End.Killed cause));
          };
          memory = if_killed self.old.running.ending self.old.memory;
        } }
    {
        if self.recorded.running().end().is_none() {
            self.recorded.kill(cause);
            self.memory.clear_caches();
        }
    }

    /// A hart's registers, where the hart was started.
    #[tactic(auto, using(crate::proofs::Shown::flat_harts))]
    pub fn regs(&self, hart: u32) -> Option<&Regs>
        ensures exact { option_copied result ≡ slice_get self.now.running.harts hart }
        ensures flat { OfFlat S.honest (λ flat. option_copied result ≡
            slice_get flat.harts hart) self.now }
    {
        self.coherent();
        self.recorded.running().regs(hart)
    }

    /// What was written so far.
    #[tactic(auto, using(crate::proofs::Shown::flat_environment))]
    pub fn output(&self) -> &[u8]
        ensures exact { result.now ≡ self.now.running.environment.output }
        ensures flat { OfFlat S.honest (λ flat. result.now ≡ flat.environment.output) self.now }
    {
        self.coherent();
        self.recorded.running().output()
    }

    /// What was written, and the turns that ran, to be kept.
    #[tactic(auto, using(crate::proofs::Shown::flat_environment))]
    pub fn into_output_and_turns(self) -> (Vec<u8>, Vec<Turn>)
        ensures output { result.0.items ≡ self.running.environment.output }
        ensures flat { OfFlat S.honest (λ flat. result.0.items ≡ flat.environment.output) self }
        ensures turns { result.1.items ≡ self.schedule }
    {
        self.coherent();
        self.recorded.into_output_and_turns()
    }

    /// How the process ended, if it did.
    #[tactic(auto, using(crate::proofs::Shown::flat_ending))]
    pub fn end(&self) -> Option<End>
        ensures exact { result ≡ self.now.running.ending }
        ensures flat { OfFlat S.honest (λ flat. own_ending result ≡ flat.ending) self.now }
    {
        self.coherent();
        self.recorded.running().end()
    }

    /// The instructions that ran.
    pub fn schedule(&self) -> &Schedule
        ensures { result.now ≡ self.now.schedule }
    {
        self.recorded.schedule()
    }
}
