//! Plays a machine, and reports on it: whether it is sound, and what it has come to.

ghost use Rattle.std.specs.Prelude.{◌≡◌, ◌↔◌, ◌≤◌, ℕ, [], IfOk, IsErrOf, IsTrue, List, max, true};
ghost use Rattle.std.specs.Prelude.{vec_capacity};
ghost use Rattle.elf_image.specs.Start.{Start};
ghost use Rattle.machine_core.specs.Applying.{LeadsTo};
ghost use Rattle.machine_core.specs.Opening.{MachineBegins};
ghost use Rattle.machine_sides.specs.Auditing.{AgreeEverywhere};
ghost use Rattle.machine_limits.specs.Limits.{most_processes};
ghost use Rattle.serial_driver.specs.Audit.{IsSoundMachine};
ghost use Rattle.serial_driver.specs.Endings.{HasEnded};
ghost use Rattle.serial_driver.specs.FlatLines.{StandsForRuns};
ghost use Rattle.serial_driver.specs.Limit.{EndsByLimit};
ghost use Rattle.serial_driver.specs.Reporting.{IfDone, Reports};

use crate::serial::play;
use clock_policy::Clock;
use machine_core::Core;
use machine_sides::{ProcessReport, Report, report_on};
use std::alloc::{AllocError, Global};
use std::sync::ledger::Ledger;
use swap_slots::SwapSlot;
use thiserror::Error;

/// Why there is no report of a run: there was not enough memory.
#[derive(Clone, Copy, PartialEq, Eq, Debug, Error)]
pub enum NoReport {
    /// For the report's list: nothing was done.
    #[error("out of memory, before the run")]
    NothingDone,
    /// For a copy of what a process wrote: the run is done, and the machine is what it has come to.
    #[error("out of memory for the report, once the run was done")]
    RunDone,
}

/// Plays a machine as [`play`] does, and reports what it has come to.
#[tactic(auto, using(machine_core::proofs::ApplyingLaws::reaches_same))]
pub fn run_serial<L: Ledger, S: SwapSlot, C: Clock>(
    alloc: Global,
    core: &mut Core<L, S, C>,
    slice: u32,
    limit: u64,
) -> Result<Report, NoReport>
    ensures reached { LeadsTo S.content S.honest S.failures core.old core.new }
    ensures limited { IfDone result (EndsByLimit S.content S.honest S.failures
        (max slice 1) limit core.old core.new) }
    ensures ended { IfDone result ((number : ℕ) → HasEnded core.new number) }
    ensures kept { IsErrOf result NoReport.NothingDone → core.new ≡ core.old }
    ensures report { IfOk result (λ report. Reports core.new report) }

    // Where the machine has just begun, each line represents a flat run of the image and the input that its process was given.
    ensures flat { IfOk result (λ report. (frames : ℕ) → (free : List S) → (starts : List Start) →
        MachineBegins frames free starts core.old → S.honest → StandsForRuns starts report) }
{
    let Ok(room) = Vec::with_capacity(alloc, core.processes()) else {
        return Err(NoReport::NothingDone);
    };
    play(core, slice, limit);
    match report_on(alloc, core.pager(), core.spaces(), room) {
        Ok(report) => Ok(report),
        Err(AllocError) => Err(NoReport::RunDone),
    }
}

/// The report of a machine that is given up, in a list that has room for as many processes as a machine may run. It takes no memory.
pub fn into_report<L: Ledger, S: SwapSlot, C: Clock>(
    core: Core<L, S, C>,
    room: Vec<ProcessReport>,
) -> Report
    requires empty { room.items ≡ [] }
    requires room { most_processes ≤ vec_capacity room }
    ensures { Reports core result }
{
    let (pager, spaces) = core.into_spaces();
    machine_sides::into_report(pager, spaces, room)
}

/// Whether the list's resident entries are exactly the resident pages, and the frames that are free or in pages are as many
/// as the machine was made with. It takes no memory.
pub fn audit<L: Ledger, S: SwapSlot, C: Clock>(core: &Core<L, S, C>) -> bool
    ensures exact { IsTrue result ↔ IsSoundMachine core.now }
    ensures agree { result ≡ true →
        AgreeEverywhere core.now.pager.pager core.now.processes }
{
    machine_sides::audit(core.pager(), core.spaces())
}
