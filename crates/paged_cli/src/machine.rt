//! The machine that threads run.

ghost use Rattle.std.specs.Prelude.{◌<◌, IfOk};
ghost use Rattle.hart_carriers.specs.FlatLines.{starts_of};
ghost use Rattle.paged_cli.specs.Running.{CameTo};

use clock_ring::ClockRing;
use elf_image::Image;
use hart_carriers::{CrewRequest, RunReport};
use reclaim_daemon::Gate;
use std::alloc::{AllocError, Global};
use std::sync::Wait;
use std::thread::Threads;
use swap_slots::SwapSlot;

/// Runs copies of these images on copies of these inputs by such a crew, until each process has ended, on a machine that has its list on a
/// ring.
pub(crate) fn run_machine<S: SwapSlot + Send, G: Gate + Sync, R: Threads + Wait + Sync>(
    rt: &R,
    alloc: Global,
    frames: u32,
    slots: Vec<S>,
    handed: &[(Image, Vec<u8>)],
    wanted: &CrewRequest,
    gate: &G,
) -> Result<RunReport, AllocError>
    requires workers { 0 < wanted.now.workers }
    requires slice { 0 < wanted.now.slice }
    ensures { IfOk result (CameTo S.honest frames slots.items (starts_of handed.now) wanted.now) }
{
    let ran = hart_carriers::run_machine::<S, ClockRing, G, R>(
        rt, alloc, frames, slots, handed, wanted, gate,
    );
    match ran {
        Ok(run) => Ok(run),
        Err(_) => Err(AllocError),
    }
}
