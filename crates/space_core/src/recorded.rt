//! A process without its memory, with the schedule that records each instruction it runs.

ghost use Rattle.std.specs.Prelude.{◌≡◌, ◌≤◌, ◌<◌, true, [], min, length, option_map, Some, IfNone};
ghost use Rattle.std.specs.Prelude.{IfSome, IfOk};
ghost use Rattle.std.specs.Option.{option_or};
ghost use Rattle.decoded_pages.specs.Code.{ShowsAll};
ghost use Rattle.flat_machine.specs.Process.{may_step, opening};
ghost use Rattle.flat_machine.specs.Schedule.{room};
ghost use Rattle.paged_memory.specs.Paged.{memory_of};
ghost use Rattle.paged_memory.specs.Whole.{harts_in};
ghost use Rattle.space_core.specs.Endings.{RunsRecorded};
ghost use Rattle.space_core.specs.RunningValue.{beside, with_memory};

use crate::progress::Steps;
use crate::running::Running;
use decoded_pages::DecodedPages;
use elf_image::Image;
use flat_machine::{End, KillCause, Schedule, Turn};
use paged_memory::PagedMemory;
use rv_exec::Outcome;
use shared_origins::SharedBytes;
use std::alloc::{AllocError, Global};
use std::marker::Model;
use std::sync::ledger::Ledger;
use swap_slots::SwapSlot;

/// What a process is besides its memory, with the schedule of the instructions that it ran.
#[derive(Drop)]
pub struct Recorded {
    pub(crate) running: Running,
    pub(crate) schedule: Schedule,
}

impl Model for Recorded {
    ghost use Rattle.space_core.specs.RunningValue.{RecordedValue};
    ghost use Rattle.space_core.specs.RunningCode.{recorded_code};

    ghost Value = { RecordedValue };

    ghost coded = { recorded_code };

    ghost view = { λ recorded. record { running = recorded.running; schedule = recorded.schedule } };
}

impl Recorded {
    /// What a process that is to run an image on an input begins with.
    pub fn new(alloc: Global, image: &Image, input: SharedBytes) -> Result<Self, AllocError>
        ensures { IfOk result (λ recorded. recorded ≡ record {
          running = beside
              (opening image.now input);
          schedule = [];
        }) }
    {
        Ok(Recorded {
            running: Running::new(alloc, image, input)?,
            schedule: Schedule::new(alloc)?,
        })
    }

    /// Runs instructions of a hart that may step, up to so many, and records them: one by one, until one calls, traps or uses a
    /// page that is absent, which is the last of them.
    pub(crate) fn run<L: Ledger, S: SwapSlot>(
        &mut self,
        hart: u32,
        memory: &mut PagedMemory<L, S>,
        decoded: &DecodedPages,
        most: u32,
    ) -> Steps
        requires may { may_step hart (with_memory self.old.running
            (memory_of S.content memory.old)) ≡ true }
        requires cached { harts_in memory.old ≡ length self.old.running.harts }
        requires shows { ShowsAll decoded.now (memory_of S.content memory.old) }
        requires fits { most ≤ room self.old.schedule hart }
        ensures within { result.ran ≤ most }
        ensures runs { RunsRecorded S.content S.honest hart result.ran (option_map (λ slice.
            (slice.ran, slice.stop)) result.last) self.old self.new memory.old memory.new }
        ensures all { IfNone result.last (result.ran ≡ most) }
        ensures short { IfSome result.last (λ _. result.ran < most) }
    {
        let course = self.running.run_each(hart, memory, decoded, most);
        match course.last {
            Outcome::Done => {
                self.schedule.record(hart, course.done);
                Steps {
                    ran: course.done,
                    last: None,
                }
            }
            outcome => {
                let slice = self.running.end_slice(hart, memory, outcome);
                self.schedule.record(hart, course.done + slice.ran);
                Steps {
                    ran: course.done,
                    last: Some(slice),
                }
            }
        }
    }

    /// The machine ends the process, unless it has ended.
    pub fn kill(&mut self, cause: KillCause)
        ensures { self.new ≡ record self.old {
          running = record self.old.running
              { ending = option_or self.old.running.ending (Some (End.Killed cause)) };
        } }
    {
        self.running.kill(cause);
    }

    /// What was written, and the turns that ran, to be kept.
    pub fn into_output_and_turns(self) -> (Vec<u8>, Vec<Turn>)
        ensures output { result.0.items ≡ self.running.environment.output }
        ensures turns { result.1.items ≡ self.schedule }
    {
        (self.running.into_output(), self.schedule.into_turns())
    }

    /// What the process is besides its memory and schedule.
    pub fn running(&self) -> &Running
        ensures { result.now ≡ self.now.running }
    {
        &self.running
    }

    /// The instructions that ran.
    pub fn schedule(&self) -> &Schedule
        ensures { result.now ≡ self.now.schedule }
    {
        &self.schedule
    }
}

/// The lesser of two.
pub(crate) fn least(budget: u32, room: u64) -> u32
    ensures { result ≡ min budget room }
{
    if u64::from(budget) <= room {
        budget
    } else {
        room as u32
    }
}
