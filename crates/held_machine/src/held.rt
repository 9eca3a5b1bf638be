//! What a process's lock protects.

ghost use Rattle.std.specs.Prelude.{◌≡◌, ◌+◌, IfOk, IfErr, OnOk, OnErr, length, None, Some};
ghost use Rattle.flat_machine.specs.Schedule.{written_out};
ghost use Rattle.machine_sides.specs.Agreeing.{AgreeStill, AgreesWhereListed};
ghost use Rattle.elf_image.specs.Start.{start_of};
ghost use Rattle.machine_sides.specs.Starting.{Begins};
ghost use Rattle.machine_sides.specs.Together.{key_of};
ghost use Rattle.pager_core.specs.Pager.{PagerState};
ghost use Rattle.held_machine.specs.HeldValue.{status_of};
ghost use Rattle.held_machine.specs.Holding.{RunsWhere, NoticesWhere, KillsNumberWhere};
ghost use Rattle.held_machine.specs.Holding.{KillsSpentWhere, PressesWhere};
ghost use Rattle.held_machine.specs.Running.{SlicesHeld, NoticesHeld, KillsHeld, LoadsHeld};
ghost use Rattle.held_machine.specs.Running.{DoesNotLoadHeld, may_go, pressed_after, tries_after};
ghost use Rattle.space_core.specs.StandsFor.{StandsFor};
ghost use Rattle.status_cell.specs.Counts.{nothing};
ghost use Rattle.status_cell.specs.ViewerValue.{viewer_value};

use elf_image::Image;
use flat_machine::KillCause;
use machine_sides::{Admission, load, run_slice, start};
use paged_memory::PageInFault;
use space_core::{Slice, Space};
use status_cell::{Status, Viewer, Writer, new_cell};
use std::alloc::{AllocError, Global};
use std::marker::Model;
use std::sync::Wait;
use std::sync::ledger::Ledger;
use swap_slots::SwapSlot;

/// A process, with the writer of its counts: what was published last is how far it has come.
#[derive(Drop)]
pub struct Held<L: Ledger, S: SwapSlot> {
    pub(crate) side: Space<L, S>,
    writer: Writer,
    /// What was published last.
    told: Status,
    /// Page-ins, and collects and saves that failed, of its pages since its last completed instruction.
    pub(crate) tries: u64,
    /// Pages that were cleaned ahead.
    pub(crate) cleans: u64,
    /// The hart that only may run, until an instruction of it has run.
    pressed: Option<u32>,
}

impl<L: Ledger, S: SwapSlot> Model for Held<L, S> {
    ghost use Rattle.std.specs.Prelude.{◌≡◌};
    ghost use Rattle.held_machine.specs.HeldValue.{HeldValue, status_of};

    ghost Value = { HeldValue S };

    ghost view = { λ h. record {
      side = h.side;
      writer = h.writer;
      tries = h.tries;
      cleans = h.cleans;
      pressed = h.pressed;
    } };

    ghost invariant = { λ h. record {
      published : h.writer.last ≡ h.told;
      told : h.told ≡ status_of h.side;
    } };
}

impl<L: Ledger, S: SwapSlot> Held<L, S> {
    /// The process of this number that is to run an image on an input, and a viewer of its counts. None of its pages is brought in yet.
    #[tactic(auto, using(crate::proofs::Statuses::nothing_yet))]
    pub fn new(
        alloc: Global,
        number: u32,
        image: Image,
        input: Vec<u8>,
    ) -> Result<(Self, Viewer), AllocError>
        ensures begins { IfOk result (λ made.
            Begins number (start_of image input.items) made.0.side) }
        ensures tries { IfOk result (λ made. made.0.tries ≡ 0) }
        ensures cleans { IfOk result (λ made. made.0.cleans ≡ 0) }
        ensures pressed { IfOk result (λ made. made.0.pressed ≡ None) }
        ensures viewer { IfOk result (λ made. made.1 ≡ viewer_value made.0.writer.cell nothing) }
    {
        let side = start(alloc, number, image, input)?;
        let (writer, viewer) = new_cell(alloc)?;
        let told = Status {
            steps: 0,
            output: 0,
        };
        Ok((
            Held {
                side,
                writer,
                told,
                tries: 0,
                cleans: 0,
                pressed: None,
            },
            viewer,
        ))
    }

    /// What holds each time the lock is taken. The process represents the flat run of its schedule. What was published last
    /// is how far it has come. The call does nothing.
    pub fn coherent(&self)
        ensures stands { S.honest → StandsFor S.content self.now.side }
        ensures published { self.now.writer.last ≡ status_of self.now.side }
    {
        // For the proof only: a read gives its invariant.
        let _ = &self.told;
        self.side.coherent();
    }

    /// The process.
    pub fn side(&self) -> &Space<L, S>
        ensures { result.now ≡ self.now.side }
    {
        &self.side
    }

    /// Only the process.
    pub fn into_side(self) -> Space<L, S>
        ensures { result ≡ self.side }
    {
        self.side
    }

    /// The number of the process.
    pub fn process(&self) -> u32
        ensures { result ≡ self.now.side.memory.process }
    {
        self.side.process()
    }

    /// What was published last: how many instructions the process has completed, and how many bytes it has written.
    pub fn status(&self) -> Status
        ensures now { result ≡ status_of self.now.side }
        ensures last { result ≡ self.now.writer.last }
    {
        self.told
    }

    /// Page-ins, and collects and saves that failed, of its pages since its last completed instruction.
    pub fn tries(&self) -> u64
        ensures { result ≡ self.now.tries }
    {
        self.tries
    }

    /// How many of its pages were cleaned ahead.
    pub fn cleans(&self) -> u64
        ensures { result ≡ self.now.cleans }
    {
        self.cleans
    }

    /// The hart that is pressed, if one is: no other one runs until an instruction of it has run.
    pub fn pressed(&self) -> Option<u32>
        ensures { result ≡ self.now.pressed }
    {
        self.pressed
    }

    /// Runs up to so many instructions of a hart, which then drops its translations that are to be dropped, and publishes how far the process
    /// has come.
    #[tactic(auto, using(crate::proofs::Statuses::slice_steps, crate::proofs::Statuses::slice_rises, crate::proofs::Statuses::notice_leaves))]
    pub fn slice<R: Wait>(&mut self, rt: &R, hart: u32, budget: u32) -> Slice
        ensures { SlicesHeld S.content S.honest hart budget self.old self.new result.ran
            result.stop }
    {
        let slice = run_slice(&mut self.side, hart, budget);
        self.tries = tries_after(slice.ran, self.tries);
        self.pressed = pressed_after(slice.ran, self.pressed);
        let told = status_after(&self.side, self.told.steps, slice.ran);
        self.side.take_notices(hart);
        self.writer.publish(rt, told);
        self.told = told;
        slice
    }

    /// A hart drops its translations that are to be dropped.
    #[tactic(auto, using(crate::proofs::Statuses::notice_leaves))]
    pub fn take_notices(&mut self, hart: u32)
        ensures { NoticesHeld hart self.old self.new }
    {
        self.side.take_notices(hart);
    }

    /// The machine ends the process, unless it has ended, and how far it has come is published.
    #[tactic(auto, using(crate::proofs::Statuses::kill_leaves))]
    pub fn kill<R: Wait>(&mut self, rt: &R, cause: KillCause)
        ensures { KillsHeld cause self.old self.new }
    {
        self.side.kill(cause);
        self.writer.publish(rt, self.told);
    }

    /// A hart's slice, where the process is the one of this number and no other hart of it is pressed.
    pub fn slice_of<R: Wait>(
        &mut self,
        rt: &R,
        number: u32,
        hart: u32,
        budget: u32,
    ) -> Option<Slice>
        ensures { RunsWhere S.content S.honest number hart budget result self.old self.new }
    {
        if self.process() != number || !may_go(hart, self.pressed) {
            return None;
        }
        Some(self.slice(rt, hart, budget))
    }

    /// A hart is pressed, unless one is already, where the process is the one of this number. Answers whether it is.
    pub fn press_of(&mut self, number: u32, hart: u32) -> bool
        ensures { PressesWhere number hart result self.old self.new }
    {
        if self.process() != number {
            return false;
        }
        if self.pressed.is_none() {
            self.pressed = Some(hart);
        }
        true
    }

    /// A hart takes notice, where the process is the one of this number. Answers whether it is.
    pub fn take_notices_of(&mut self, number: u32, hart: u32) -> bool
        ensures { NoticesWhere number hart result self.old self.new }
    {
        if self.process() != number {
            return false;
        }
        self.take_notices(hart);
        true
    }

    /// The machine ends the process, where it is the one of this number. Answers whether it is.
    pub fn kill_number<R: Wait>(&mut self, rt: &R, number: u32, cause: KillCause) -> bool
        ensures { KillsNumberWhere number cause result self.old self.new }
    {
        if self.process() != number {
            return false;
        }
        self.kill(rt, cause);
        true
    }

    /// The machine ends the process for want of a place for its pages, where it is the one of this number and was tried for so often. Answers
    /// whether it was.
    pub fn kill_spent<R: Wait>(&mut self, rt: &R, number: u32, most: u64) -> Option<bool>
        ensures { KillsSpentWhere number most result self.old self.new }
    {
        if self.process() != number {
            return None;
        }
        let spent = self.tries >= most;
        if spent {
            self.kill(rt, KillCause::NoSwap);
        }
        Some(spent)
    }

    /// Brings an admitted page into its frame and maps it. A refusal hands the admission back, to be undone. Either is a try.
    #[tactic(auto, using(crate::proofs::Statuses::load_leaves, crate::proofs::Statuses::no_load_leaves), unfolding(pager_core::specs::Pager::tallied))]
    pub fn load(&mut self, admission: Admission<L>) -> Result<(), (Admission<L>, PageInFault)>
        ensures loaded { OnOk result (LoadsHeld S.content S.honest admission self.old self.new) }
        ensures refused { IfErr result (λ back.
            DoesNotLoadHeld S.content S.honest S.failures admission back.0 back.1 self.old
            self.new) }
        ensures agree { OnOk result ((pager : PagerState) →
            AgreeStill (Some (key_of self.old.side.memory.process admission.key.vpn)) pager
            pager self.old.side self.new.side) }
        ensures meets { OnOk result (AgreesWhereListed self.new.side
            (key_of self.old.side.memory.process admission.key.vpn)) }
        ensures keeps { OnErr result ((pager : PagerState) →
            AgreeStill None pager pager self.old.side self.new.side) }
    {
        self.tries = self.tries.saturating_add(1);
        load(&mut self.side, admission)
    }
}

/// How far a process has come that had completed so many instructions, of which so many more ran.
#[tactic(auto, using(crate::proofs::Statuses::few_steps), unfolding(crate::specs::HeldValue::status_of))]
fn status_after<L: Ledger, S: SwapSlot>(side: &Space<L, S>, steps: u64, ran: u32) -> Status
    requires { length (written_out side.now.schedule) ≡ steps + ran }
    ensures { result ≡ status_of side.now }
{
    // For the proof only: what is read is lawful.
    let _turns = side.schedule().turns();
    Status {
        steps: steps + u64::from(ran),
        output: side.output().len() as u64,
    }
}

/// Whether a hart may run: no other one is pressed.
fn may_go(hart: u32, pressed: Option<u32>) -> bool
    ensures { result ≡ may_go hart pressed }
{
    match pressed {
        None => true,
        Some(pressed) => pressed == hart,
    }
}

/// Which hart is pressed after a slice: none where an instruction ran.
fn pressed_after(ran: u32, pressed: Option<u32>) -> Option<u32>
    ensures { result ≡ pressed_after ran pressed }
{
    if ran == 0 { pressed } else { None }
}

/// The tries of a process after a slice: they begin anew where an instruction ran.
fn tries_after(ran: u32, tries: u64) -> u64
    ensures { result ≡ tries_after ran tries }
{
    if ran == 0 { tries } else { 0 }
}
