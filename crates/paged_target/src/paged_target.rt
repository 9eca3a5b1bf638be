//! The debugger's target on paged memory: one process on its own machine, whose steps bring in their pages.

ghost use Rattle.std.specs.Prelude.{◌≡◌, ◌+◌, ◌<◌, ◌≤◌, ⊤, [], ◌∷◌, false, true, None, Some, IfOk, IsSome, slice_get};
ghost use Rattle.flat_machine.specs.Process.{opening};
ghost use Rattle.space_core.specs.StandsFor.{own_ending};
ghost use Rattle.elf_image.specs.Start.{start_of};
ghost use Rattle.machine_core.specs.Applying.{Applies};
ghost use Rattle.machine_core.specs.Opening.{MachineBegins};
ghost use Rattle.machine_core.specs.declared.event.Event.TheVariants.{Kill};
ghost use Rattle.machine_core.specs.declared.event.Reply.{Reply};
ghost use Rattle.debug_core.specs.Limits.{CannotRecord, KeepsRoom};
ghost use Rattle.paged_target.specs.GivenUp.{IsGivenUp};
ghost use Rattle.paged_target.specs.Intact.{IsIntact, IsUnkilled};
ghost use Rattle.paged_target.specs.Lacks.{Lacks, LacksOn, LeavesRoomFor};
ghost use Rattle.paged_target.specs.Recording.{room_left};
ghost use Rattle.paged_target.specs.Serving.{ServesFlat};
ghost use Rattle.paged_target.specs.Shown.{flat_at, shown_of, TargetValue};

use crate::harts::next_live;
use crate::reading::read;
use clock_policy::Clock;
use debug_core::{StepsTaken, Target, TargetFault, TargetStep};
use elf_image::Image;
use flat_machine::{End, KillCause, OutOfMemory};
use machine_core::{Core, CoreError, Event};
use page_memory::page_of;
use rv_exec::Regs;
use serial_driver::{ServedStep, serve_step};
use std::alloc::{AllocError, Global};
use std::marker::Model;
use std::sync::ledger::{Blank, Ledger};
use swap_slots::MemorySlot;

/// A process on paged memory, the only one on its machine, which brings its pages in by itself.
#[derive(Drop)]
pub struct PagedTarget<L: Ledger, C: Clock> {
    core: Core<L, MemorySlot, C>,
    /// Whether it was ended because no more steps can be recorded.
    full: bool,
}

impl<L: Ledger, C: Clock> Model for PagedTarget<L, C> {
    ghost use Rattle.std.specs.Prelude.{◌≡◌, false, IsSome, slice_get};
    ghost use Rattle.paged_target.specs.Intact.{IsIntact, IsUnkilled};
    ghost use Rattle.paged_target.specs.Shown.{TargetValue};

    ghost Value = { TargetValue };

    ghost view = { λ target. record { core = target.core; full = target.full } };

    ghost invariant = { λ target. record {
      there : IsSome (slice_get target.core.processes 0);
      intact : IsIntact target.core;
      unkilled : target.full ≡ false → IsUnkilled target.core;
    } };
}

impl<L: Ledger, C: Clock> PagedTarget<L, C> {
    /// A process that is to run an image on an input, on 4 to 4096 frames and on these slots. The ledger has one part for each
    /// frame, and one for the pager itself.
    pub fn new(
        alloc: Global,
        frames: u32,
        blank: Blank,
        slots: Vec<MemorySlot>,
        image: Image,
        input: Vec<u8>,
    ) -> Result<Self, AllocError>
        requires name { blank.name ≡ L.name }
        requires parts { blank.parts ≡ L.parts }
        requires one_each { L.parts ≡ frames + 1 }
        requires least { 4 ≤ frames }
        requires most { frames ≤ 4096 }
        ensures opens { IfOk result (λ target. shown_of target ≡ opening image input.items) }
        ensures begins { IfOk result (λ target. MachineBegins frames slots.items
            (start_of image input.items ∷ []) target.core) }
    {
        let mut processes = Vec::new(alloc);
        processes.push((image, input))?;
        match Core::new(alloc, frames, blank, slots, processes) {
            Ok(core) => Ok(PagedTarget { core, full: false }),
            Err(_) => Err(AllocError),
        }
    }

    /// The process is ended because no more steps can be recorded.
    fn end_full(&mut self)
        ensures flat { flat_at self.new.core ≡ flat_at self.old.core }
        ensures kept { KeepsRoom (LacksOn self.old.core) (LacksOn self.new.core) }
        ensures full { self.new.full ≡ true }
        ensures ended { (reply : Reply) × Applies (λ slot. slot) ⊤ (λ slot. 0)
            (Kill 0 KillCause.ScheduleFull) self.old.core self.new.core reply }
    {
        self.core.faithful();
        self.core.apply(Event::Kill {
            process: 0,
            cause: KillCause::ScheduleFull,
        });
        self.full = true;
    }
}

impl<L: Ledger, C: Clock> Target for PagedTarget<L, C> {
    ghost shown = { shown_of };

    ghost limits = { Lacks };

    fn is_live(&self, hart: u32) -> bool {
        self.core.faithful();
        self.core.is_live(0, hart)
    }

    fn turn_after(&self, hart: u32) -> u32 {
        self.core.faithful();
        next_live(&self.core, hart).unwrap_or(hart)
    }

    fn is_mapped(&self, address: u32) -> bool {
        self.core.faithful();
        self.core.state(0, page_of(address)).is_some()
    }

    fn end(&self) -> Option<End> {
        self.core.faithful();
        if self.full {
            return Some(End::Killed(KillCause::ScheduleFull));
        }
        match self.core.end(0) {
            Some(end) => own_ending(end),
            None => None,
        }
    }

    fn regs(&self, hart: u32) -> Option<&Regs> {
        self.core.faithful();
        self.core.regs(0, hart)
    }

    fn step(&mut self, hart: u32) -> Result<TargetStep, AllocError> {
        if !fits(&self.core, hart) {
            self.end_full();
            return Ok(TargetStep::Full);
        }
        match serve(&mut self.core, hart) {
            ServedStep::Ran => Ok(TargetStep::Ran),
            ServedStep::Absent => Ok(TargetStep::Absent),
            ServedStep::NoMemory => Err(AllocError),
            // It was seen that the instruction fits.
            ServedStep::Full => unreachable!(),
        }
    }

    #[tactic(auto, using(debug_core::proofs::Passing::last_of_none))]
    fn take_turns(&mut self, turn: &mut u32, _most: u64) -> Result<StepsTaken, OutOfMemory> {
        // Each step has to bring in its pages.
        Ok(StepsTaken {
            steps: 0,
            last: *turn,
        })
    }

    fn read(&mut self, address: u32, bytes: &mut [Option<u8>]) -> Result<(), TargetFault> {
        read(&mut self.core, address, bytes);
        Ok(())
    }
}

/// Runs one instruction of a hart of process 0.
fn serve<L: Ledger, C: Clock>(core: &mut Core<L, MemorySlot, C>, hart: u32) -> ServedStep
    requires there { IsSome (slice_get core.old.processes 0) }
    requires intact { IsIntact core.old }
    requires unkilled { IsUnkilled core.old }
    requires goes_on { (flat_at core.old).ending ≡ None }
    ensures serves { ServesFlat result hart (flat_at core.old) (flat_at core.new) }
    ensures room { LeavesRoomFor result hart core.old core.new }
    ensures given_up { result ≡ ServedStep.Absent → IsGivenUp hart core.old }
    ensures full { result ≡ ServedStep.Full → room_left hart core.old ≡ 0 }
    ensures there { IsSome (slice_get core.new.processes 0) }
    ensures intact { IsIntact core.new }
    ensures unkilled { IsUnkilled core.new }
{
    core.faithful();
    let served = serve_step(core, 0, hart);
    core.faithful();
    served
}

/// Whether one more instruction of a hart of process 0 can be recorded.
fn fits<L: Ledger, C: Clock>(core: &Core<L, MemorySlot, C>, hart: u32) -> bool
    requires there { IsSome (slice_get core.now.processes 0) }
    ensures roomy { result ≡ true → ¬ LacksOn core.now (CannotRecord [] hart) }
    ensures full { result ≡ false → LacksOn core.now (CannotRecord [] hart) }
    ensures room { result ≡ true → 0 < room_left hart core.now }
{
    let Some(schedule) = core.schedule(0) else {
        unreachable!()
    };
    let _turns = schedule.turns();
    schedule.fits(hart)
}

/// How a process ended by its own instructions, if it did.
fn own_ending(end: Option<End>) -> Option<End>
    ensures { result ≡ own_ending end }
{
    match end {
        None => None,
        Some(End::Exited(_)) => end,
        Some(End::Trapped { .. }) => end,
        Some(End::Killed(_)) => None,
    }
}
