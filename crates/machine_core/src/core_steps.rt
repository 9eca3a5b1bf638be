//! Events of one process.

ghost use Rattle.std.specs.Prelude.{◌≡◌, ◌<◌, length};
ghost use Rattle.machine_core.specs.MachineRun.{hart_refusal, kill_refusal, step_reply};
ghost use Rattle.machine_core.specs.MachineRun.{swept_reply, SweepsAt, ChangesOne};
ghost use Rattle.machine_sides.specs.ProcessCalls.{StepsOnce, TakesNotices, IsKilled};

use crate::error::EventRefusal;
use crate::event::Reply;
use clock_policy::{Bit, Clock};
use flat_machine::KillCause;
use machine_sides::{PagerSide, Swept, run_step, sweep};
use space_core::{SliceStop, Space};
use std::sync::ledger::Ledger;
use swap_slots::SwapSlot;

/// Why an event of a process's hart is refused, if it is.
pub(crate) fn hart_refusal<L: Ledger, S: SwapSlot>(
    processes: &[Space<L, S>],
    process: u32,
    hart: u32,
) -> Option<EventRefusal>
    ensures { result ≡ hart_refusal process hart processes.now }
{
    let Some(side) = processes.get(process as usize) else {
        return Some(EventRefusal::NoProcess);
    };
    if !side.is_live(hart) {
        return Some(EventRefusal::NoHart);
    }
    if side.end().is_some() {
        return Some(EventRefusal::Ended);
    }
    None
}

/// Why a process is not ended by the machine, if it is not.
pub(crate) fn kill_refusal<L: Ledger, S: SwapSlot>(
    processes: &[Space<L, S>],
    process: u32,
) -> Option<EventRefusal>
    ensures { result ≡ kill_refusal process processes.now }
{
    let Some(side) = processes.get(process as usize) else {
        return Some(EventRefusal::NoProcess);
    };
    if side.end().is_some() {
        return Some(EventRefusal::Ended);
    }
    None
}

/// A process's hart runs one instruction, or says why not.
pub(crate) fn step<L: Ledger, S: SwapSlot>(
    processes: &mut [Space<L, S>],
    process: usize,
    hart: u32,
) -> SliceStop
    requires { process < length processes.old }
    ensures { ChangesOne (StepsOnce S.content S.honest hart result) process processes.old
        processes.new }
{
    run_step(&mut processes[process], hart)
}

/// A process's hart drops its translations that are to be dropped.
pub(crate) fn notice<L: Ledger, S: SwapSlot>(
    processes: &mut [Space<L, S>],
    process: usize,
    hart: u32,
)
    requires { process < length processes.old }
    ensures { ChangesOne (TakesNotices hart) process processes.old processes.new }
{
    processes[process].take_notices(hart);
}

/// The machine ends a process.
pub(crate) fn kill<L: Ledger, S: SwapSlot>(
    processes: &mut [Space<L, S>],
    process: usize,
    cause: KillCause,
)
    requires { process < length processes.old }
    ensures { ChangesOne (IsKilled cause) process processes.old processes.new }
{
    processes[process].kill(cause);
}

/// What a slice of one instruction is replied with.
pub(crate) fn step_reply(stop: SliceStop) -> Reply
    ensures { result ≡ step_reply stop }
{
    match stop {
        SliceStop::Budget => Reply::Ran,
        SliceStop::Absent(page) => Reply::Absent(page),
        SliceStop::Yield => Reply::Yielded,
        SliceStop::HartDone => Reply::HartDone,
        SliceStop::Ended => Reply::Ended,
        SliceStop::NoHart => Reply::Refused(EventRefusal::NoHart),
        SliceStop::ScheduleFull => Reply::ScheduleFull,
        SliceStop::NoMemory => Reply::Refused(EventRefusal::NoMemory),
    }
}

/// A sweep of the pager and of the process of this number.
pub(crate) fn sweep_at<L: Ledger, S: SwapSlot, C: Clock>(
    pager: &mut PagerSide<L, C>,
    processes: &mut [Space<L, S>],
    process: usize,
) -> Swept
    requires { process < length processes.old }
    ensures { SweepsAt pager.old pager.new process processes.old processes.new result }
{
    sweep(pager, &mut processes[process])
}

/// What a sweep is replied with.
pub(crate) fn swept_reply(swept: Swept) -> Reply
    ensures { result ≡ swept_reply swept }
{
    match swept {
        Swept::NothingResident => Reply::Refused(EventRefusal::NothingResident),
        Swept::Asked { key, bit } => Reply::Asked {
            key,
            used: matches!(bit, Bit::One),
        },
        Swept::Victim(key) => Reply::Victim(key),
    }
}
