//! How the replies to events move the turns on.

ghost use Rattle.std.specs.Prelude.{◌≡◌, ◌<◌, ◌≤◌, ◌+◌, ◌-◌, ℕ, min, nat_le, false};
ghost use Rattle.std.specs.Prelude.{IfNone, Option, Some, None, is_some, if◌then◌else◌};
ghost use Rattle.machine_core.specs.ManySteps.{steps_of, replies_of};
ghost use Rattle.serial_driver.specs.Owing.{most_load_faults, duty_with, duty_after};
ghost use Rattle.serial_driver.specs.Owing.{duty_purged, step_owes, step_faults};
ghost use Rattle.serial_driver.specs.Owing.{stop_owes, save_owes, collect_owes, load_owes};
ghost use Rattle.serial_driver.specs.Owing.{load_faults, is_out_of_memory};
ghost use Rattle.serial_driver.specs.Owing.{is_no_memory, is_dirty, is_mapped};
ghost use Rattle.serial_driver.specs.Turning.{Turn, begun, noticed_in, paged_in, purged_in};
ghost use Rattle.serial_driver.specs.Turning.{ran_turn, step_turn, swept_turn, waiting};
ghost use Rattle.serial_driver.specs.TurnsDuty.{cause_of, duty_of, phase_of, turn_of};
ghost use Rattle.flat_machine.specs.declared.end.KillCause.TheVariants as cause;
ghost use Rattle.machine_core.specs.declared.event.Event.TheVariants as machine;

use crate::failure::Failure;
use crate::harts::HartOf;
use crate::turns::{Stage, Turns};
use clock_policy::Key;
use machine_core::{Event, EventRefusal, Reply, StepsReply};
use machine_limits::MOST_LOAD_FAULTS;

impl Turns {
    /// Goes on by how many steps of a process's hart ran and went on, and by the reply to a further one.
    #[tactic(auto, using(crate::proofs::Owed::steps_told, crate::proofs::Owed::steps_all))]
    pub(crate) fn heed_steps(&mut self, process: u32, hart: u32, steps: StepsReply)
        requires some { IfNone steps.last (0 < steps.ran) }
        ensures { duty_of self.new ≡ duty_after (steps_of process hart steps.ran steps.last)
            (replies_of steps.ran steps.last) (duty_of self.old) }
    {
        self.ran(steps.ran);
        match steps.last {
            Some(reply) => self.after_step(process, hart, reply),
            None => self.rest_at_end(process, hart),
        }
    }

    /// Goes on by what an event was replied with.
    pub(crate) fn heed(&mut self, event: Event, reply: Reply)
        ensures { duty_of self.new ≡ duty_with event reply (duty_of self.old) }
    {
        match event {
            Event::Step { process, hart } => self.after_step(process, hart, reply),
            Event::Notice { hart, .. } => self.after_notice(hart),
            Event::Sweep => self.after_sweep(reply),
            Event::Collect(key) => self.after_collect(key, reply),
            Event::Saved(key) => self.after_save(key.process, reply),
            Event::PageIn(key) => self.after_page_in(key.process, reply),
            Event::Kill { process, .. } => self.purge(process),
            _ => self.after_last(event),
        }
    }

    /// A step of a hart was replied with.
    fn after_step(&mut self, process: u32, hart: u32, reply: Reply)
        ensures { duty_of self.new ≡ record {
          faults = step_faults reply self.old.load_faults;
          owed
              = step_owes process reply;
          turn = step_turn process hart reply self.old.slice
              self.old.left self.old.wanted;
        } }
    {
        self.running = HartOf { process, hart };
        match reply {
            Reply::Ran => {
                self.ran(1);
                self.rest_at_end(process, hart);
            }
            Reply::Yielded => {
                self.ran(1);
                self.stage = Stage::Rest;
            }
            Reply::HartDone => self.choose(),
            Reply::Absent(page) => {
                self.load_faults = 0;
                self.wanted = page;
                self.stage = Stage::Wait;
            }
            other => self.stop(process, other),
        }
    }

    /// So many instructions of the hart ran.
    fn ran(&mut self, count: u32)
        ensures { self.new ≡ record self.old { left = self.old.left - count } }
    {
        self.left = self.left.saturating_sub(count);
    }

    /// The hart's slice is over where nothing is left of it.
    fn rest_at_end(&mut self, process: u32, hart: u32)
        ensures { duty_of self.new ≡ record {
          faults = self.old.load_faults;
          owed = None;
          turn =
              ran_turn process hart self.old.slice self.old.left self.old.wanted;
        } }
    {
        self.running = HartOf { process, hart };
        self.stage = if self.left == 0 {
            Stage::Rest
        } else {
            Stage::Run
        };
    }

    /// A process goes on no more.
    fn stop(&mut self, process: u32, reply: Reply)
        ensures { duty_of self.new ≡ record {
          faults = self.old.load_faults;
          owed = stop_owes
              process reply;
          turn = waiting (turn_of self.old);
        } }
    {
        if matches!(reply, Reply::ScheduleFull) {
            self.kill(process, Failure::ScheduleFull);
        } else if is_out_of_memory(reply) {
            self.kill(process, Failure::NoMemory);
        } else {
            self.purge(process);
        }
    }

    fn purge(&mut self, process: u32)
        ensures { duty_of self.new ≡ record {
          faults = self.old.load_faults;
          owed = Some
              (machine.Purge process);
          turn = waiting (turn_of self.old);
        } }
    {
        self.stage = Stage::Purge { process };
    }

    /// The hart that is next after the one that had the slice gets a slice of its own.
    fn choose(&mut self)
        ensures { duty_of self.new ≡ record {
          faults = self.old.load_faults;
          owed = None;
          turn =
              begun (turn_of self.old);
        } }
    {
        self.left = self.slice;
        self.stage = Stage::Choose(Some(self.running.hart));
    }

    /// A hart of this number dropped its translations.
    fn after_notice(&mut self, hart: u32)
        ensures { duty_of self.new ≡ record {
          faults = self.old.load_faults;
          owed = None;
          turn =
              noticed_in (phase_of self.old.stage) hart (turn_of self.old);
        } }
    {
        match self.stage {
            Stage::Clear { victim, .. } => self.stage = Stage::Clear {
                victim,
                last: Some(hart),
            },
            Stage::Choose(_) => self.choose(),
            Stage::Run => self.choose(),
            Stage::Rest => self.choose(),
            Stage::Wait => {}
            Stage::Save(_) => self.stage = Stage::Wait,
            Stage::Kill { .. } => self.stage = Stage::Wait,
            Stage::Purge { .. } => self.stage = Stage::Wait,
        }
    }

    fn after_sweep(&mut self, reply: Reply)
        ensures { duty_of self.new ≡ record {
          faults = self.old.load_faults;
          owed = None;
          turn =
              swept_turn reply (turn_of self.old);
        } }
    {
        self.stage = match reply {
            Reply::Victim(victim) => Stage::Clear { victim, last: None },
            _ => Stage::Wait,
        };
    }

    fn after_collect(&mut self, victim: Key, reply: Reply)
        ensures { duty_of self.new ≡ record {
          faults = self.old.load_faults;
          owed = collect_owes
              victim reply;
          turn = waiting (turn_of self.old);
        } }
    {
        if is_dirty(reply) {
            self.stage = Stage::Save(victim);
        } else {
            self.after_save(victim.process, reply);
        }
    }

    /// The victim, of this process, has left its frame, or has not.
    fn after_save(&mut self, process: u32, reply: Reply)
        ensures { duty_of self.new ≡ record {
          faults = self.old.load_faults;
          owed = save_owes
              process reply;
          turn = waiting (turn_of self.old);
        } }
    {
        if is_out_of_memory(reply) {
            self.kill(process, Failure::NoMemory);
        } else {
            self.stage = Stage::Wait;
        }
    }

    fn after_page_in(&mut self, process: u32, reply: Reply)
        ensures { duty_of self.new ≡ record {
          faults = load_faults reply self.old.load_faults;
          owed
              = load_owes self.old.load_faults process reply;
          turn = paged_in (is_mapped reply)
              (turn_of self.old);
        } }
    {
        match reply {
            Reply::Mapped => {
                self.load_faults = 0;
                self.stage = Stage::Run;
            }
            Reply::Device => self.after_load_fault(process),
            Reply::Damaged => self.kill(process, Failure::Damaged),
            other => self.after_save(process, other),
        }
    }

    /// The page that the hart waits for could not be loaded.
    fn after_load_fault(&mut self, process: u32)
        ensures { duty_of self.new ≡ record {
          faults = min (self.old.load_faults +
              1) most_load_faults;
          owed = if nat_le most_load_faults (self.old.load_faults + 1) then
              Some (machine.Kill process cause.LoadFailed) else None;
          turn = waiting
              (turn_of self.old);
        } }
    {
        let faults = self.load_faults.saturating_add(1).min(MOST_LOAD_FAULTS);
        self.load_faults = faults;
        if faults >= MOST_LOAD_FAULTS {
            self.kill(process, Failure::LoadFailed);
        } else {
            self.stage = Stage::Wait;
        }
    }

    fn kill(&mut self, process: u32, failure: Failure)
        ensures { duty_of self.new ≡ record {
          faults = self.old.load_faults;
          owed = Some
              (machine.Kill process (cause_of failure));
          turn = waiting (turn_of self.old);
        } }
    {
        self.stage = Stage::Kill { process, failure };
    }

    /// A process is gone. Any other event is no part of a run.
    fn after_last(&mut self, event: Event)
        ensures { duty_of self.new ≡ duty_purged event (duty_of self.old) }
    {
        match event {
            Event::Purge { process } => self.after_purge(process),
            _ => {}
        }
    }

    /// A process is gone: the hart that has the slice is of it, or waits on.
    fn after_purge(&mut self, process: u32)
        ensures { duty_of self.new ≡ record {
          faults = self.old.load_faults;
          owed = None;
          turn =
              purged_in process (turn_of self.old);
        } }
    {
        if process == self.running.process {
            self.choose();
        } else {
            self.stage = Stage::Wait;
        }
    }
}

/// Whether an event was refused for want of memory.
pub(crate) fn is_out_of_memory(reply: Reply) -> bool
    ensures { result ≡ is_out_of_memory reply }
{
    match reply {
        Reply::Refused(refusal) => is_no_memory(refusal),
        _ => false,
    }
}

fn is_no_memory(refusal: EventRefusal) -> bool
    ensures { result ≡ is_no_memory refusal }
{
    matches!(refusal, EventRefusal::NoMemory)
}

/// Whether a page was copied, to be saved.
fn is_dirty(reply: Reply) -> bool
    ensures { result ≡ is_dirty reply }
{
    matches!(reply, Reply::Dirty)
}
