//! Whole runs of machines by threads.

ghost use Rattle.std.specs.Prelude.{◌≡◌, ◌+◌, ◌<◌, ◌≤◌, ◌⊎◌, ◌↔◌, length, map, vec_len, true};
ghost use Rattle.std.specs.Prelude.{is_some, IfOk, OnOk, IsErrOf};
ghost use Rattle.hart_carriers.specs.Ending.{EndsSound, EndStanding, HaveEnded, IsCrewOf, IsReportOf};
ghost use Rattle.hart_carriers.specs.Ending.{ShowLines};
ghost use Rattle.machine_limits.specs.Limits.{most_processes};
ghost use Rattle.hart_carriers.specs.FlatLines.{counts_of, starts_of, StandsForRuns};

use crate::closing::close;
use crate::crew::CrewRequest;
use crate::line::Ran;
use crate::report::{RunRefusal, RunReport};
use crate::threads::run_threads;
use clock_policy::Clock;
use elf_image::Image;
use frame_pool::PoolError;
use held_machine::{Desk, Held};
use machine_limits::{FEWEST_FRAMES, MOST_FRAMES, MOST_PROCESSES};
use machine_sides::ProcessReport;
use reclaim_daemon::{AddRefusal, Gate, Reclaimer, Shared};
use status_cell::{Status, Viewer};
use std::alloc::{AllocError, Global};
use std::marker::Brand;
use std::sync::ledger::{Blank, Ledger, Share};
use std::sync::{Mutex, Wait};
use std::thread::Threads;
use swap_slots::SwapSlot;

/// Runs a machine of 4 to 4096 frames on these slots by the workers that are wanted, each hart by slices of so many instructions, until each of
/// its processes has ended: these images, which it shares, on copies of these inputs, numbered from 0 in their order. There are at most 64.
///
/// Where a thread can't be started, each process that goes on is killed for want of memory.
pub fn run_machine<S: SwapSlot + Send, C: Clock + Send, G: Gate + Sync, R: Threads + Wait + Sync>(
    rt: &R,
    alloc: Global,
    frames: u32,
    slots: Vec<S>,
    handed: &[(Image, Vec<u8>)],
    wanted: &CrewRequest,
    gate: &G,
) -> Result<RunReport, RunRefusal>
    requires workers { 0 < wanted.now.workers }
    requires slice { 0 < wanted.now.slice }
    ensures run { IfOk result (IsReportOf S S.honest frames (vec_len slots) (starts_of handed.now)
        wanted.now) }
    ensures standing { IfOk result (λ run. run.report.audit ≡ true →
        EndStanding S.content S.honest (length handed.now) run) }
    ensures bad_size { IsErrOf result RunRefusal.BadSize ↔ ((frames < 4) ⊎ (4096 < frames)) }
    ensures too_many { IsErrOf result RunRefusal.TooManyProcesses ↔ ((4 ≤ frames) ×
        ((frames ≤ 4096) × (most_processes < length handed.now))) }
{
    let blank = Blank::new(u64::from(frames) + 1);
    report_over::<Brand, S, C, G, R>(rt, alloc, frames, blank, slots, handed, wanted, gate)
}

/// Only the report.
fn report_over<
    L: Ledger + Send + Sync,
    S: SwapSlot + Send,
    C: Clock + Send,
    G: Gate + Sync,
    R: Threads + Wait + Sync,
>(
    rt: &R,
    alloc: Global,
    frames: u32,
    blank: Blank,
    slots: Vec<S>,
    handed: &[(Image, Vec<u8>)],
    wanted: &CrewRequest,
    gate: &G,
) -> Result<RunReport, RunRefusal>
    requires name { blank.name ≡ L.name }
    requires parts { blank.parts ≡ L.parts }
    requires one_each { L.parts ≡ frames + 1 }
    requires workers { 0 < wanted.now.workers }
    requires slice { 0 < wanted.now.slice }
    ensures run { IfOk result (IsReportOf S S.honest frames (vec_len slots) (starts_of handed.now)
        wanted.now) }
    ensures standing { IfOk result (λ run. run.report.audit ≡ true →
        EndStanding S.content S.honest (length handed.now) run) }
    ensures bad_size { IsErrOf result RunRefusal.BadSize ↔ ((frames < 4) ⊎ (4096 < frames)) }
    ensures too_many { IsErrOf result RunRefusal.TooManyProcesses ↔ ((4 ≤ frames) ×
        ((frames ≤ 4096) × (most_processes < length handed.now))) }
{
    match run_over::<L, S, C, G, R>(rt, alloc, frames, blank, slots, handed, wanted, gate) {
        Ok((report, _)) => Ok(report),
        Err(refusal) => Err(refusal),
    }
}

/// Runs such a machine over a ledger that has one part for each frame and one for the pager itself. The share that comes back has all parts
/// where the audit is true: each frame that the machine was made with was there in the end.
pub fn run_over<
    L: Ledger + Send + Sync,
    S: SwapSlot + Send,
    C: Clock + Send,
    G: Gate + Sync,
    R: Threads + Wait + Sync,
>(
    rt: &R,
    alloc: Global,
    frames: u32,
    blank: Blank,
    slots: Vec<S>,
    handed: &[(Image, Vec<u8>)],
    wanted: &CrewRequest,
    gate: &G,
) -> Result<(RunReport, Share<L>), RunRefusal>
    requires name { blank.name ≡ L.name }
    requires parts { blank.parts ≡ L.parts }
    requires one_each { L.parts ≡ frames + 1 }
    requires workers { 0 < wanted.now.workers }
    requires slice { 0 < wanted.now.slice }
    ensures run { IfOk result (λ ran. IsReportOf S S.honest frames (vec_len slots)
        (starts_of handed.now) wanted.now ran.0) }
    ensures standing { IfOk result (λ ran. ran.0.report.audit ≡ true →
        EndStanding S.content S.honest (length handed.now) ran.0) }
    ensures shares { IfOk result (λ ran. ran.0.report.audit ≡ true → ran.1.parts ≡ L.parts) }
    ensures bad_size { IsErrOf result RunRefusal.BadSize ↔ ((frames < 4) ⊎ (4096 < frames)) }
    ensures too_many { IsErrOf result RunRefusal.TooManyProcesses ↔ ((4 ≤ frames) ×
        ((frames ≤ 4096) × (most_processes < length handed.now))) }
{
    let desk: Desk<L, C> = make_desk(alloc, frames, handed.len(), blank)?;
    match run_on::<L, S, C, G, R>(rt, alloc, desk, frames, slots, handed, wanted, gate) {
        Ok(ran) => Ok(ran),
        Err(AllocError) => Err(RunRefusal::NoMemory),
    }
}

/// The pager's desk of a machine for so many processes, or why there is no such machine.
fn make_desk<L: Ledger, C: Clock>(
    alloc: Global,
    frames: u32,
    processes: usize,
    blank: Blank,
) -> Result<Desk<L, C>, RunRefusal>
    requires name { blank.name ≡ L.name }
    requires parts { blank.parts ≡ L.parts }
    requires one_each { L.parts ≡ frames + 1 }
    ensures bad_size { IsErrOf result RunRefusal.BadSize ↔ ((frames < 4) ⊎ (4096 < frames)) }
    ensures too_many { IsErrOf result RunRefusal.TooManyProcesses ↔ ((4 ≤ frames) ×
        ((frames ≤ 4096) × (most_processes < processes))) }
    ensures few { OnOk result (processes ≤ most_processes) }
{
    if frames < FEWEST_FRAMES || frames > MOST_FRAMES {
        return Err(RunRefusal::BadSize);
    }
    if processes > MOST_PROCESSES {
        return Err(RunRefusal::TooManyProcesses);
    }
    match Desk::new(alloc, frames, blank) {
        Ok(desk) => Ok(desk),
        Err(PoolError::BadSize) => Err(RunRefusal::BadSize),
        Err(PoolError::NoMemory) => Err(RunRefusal::NoMemory),
    }
}

/// Runs a machine on this desk. It is refused only for lack of memory.
fn run_on<
    L: Ledger + Send + Sync,
    S: SwapSlot + Send,
    C: Clock + Send,
    G: Gate + Sync,
    R: Threads + Wait + Sync,
>(
    rt: &R,
    alloc: Global,
    desk: Desk<L, C>,
    frames: u32,
    slots: Vec<S>,
    handed: &[(Image, Vec<u8>)],
    wanted: &CrewRequest,
    gate: &G,
) -> Result<(RunReport, Share<L>), AllocError>
    requires { length handed.now ≤ most_processes }
    ensures stands { IfOk result (λ ran. S.honest → ran.0.report.audit ≡ true →
        StandsForRuns handed.now ran.0.report.processes.items) }
    ensures last { IfOk result (λ ran.
        ran.0.published.items ≡ map counts_of ran.0.report.processes.items) }
    ensures shown { IfOk result (λ ran. ran.0.report.audit ≡ true →
        ShowLines ran.0.viewers.items ran.0.report.processes.items) }
    ensures many { IfOk result (λ ran. ran.0.report.audit ≡ true →
        vec_len ran.0.report.processes ≡ length handed.now) }
    ensures ended { IfOk result (λ ran. ran.0.report.audit ≡ true →
        HaveEnded ran.0.report.processes.items) }
    ensures frames { IfOk result (λ ran. ran.0.report.frames ≡ frames) }
    ensures slots { IfOk result (λ ran. ran.0.report.audit ≡ true →
        ran.0.slots ≡ vec_len slots) }
    ensures crew { IfOk result (λ ran. IsCrewOf wanted.now ran.0.crew) }
    ensures cleans { IfOk result (λ ran. is_some ran.0.cleans ≡ wanted.now.ahead) }
    ensures sound { IfOk result (λ ran. ran.0.report.audit ≡ true →
        EndsSound S (length handed.now) ran.0) }
    ensures standing { IfOk result (λ ran. ran.0.report.audit ≡ true →
        EndStanding S.content S.honest (length handed.now) ran.0) }
    ensures shares { IfOk result (λ ran. ran.0.report.audit ≡ true → ran.1.parts ≡ frames + 1) }
{
    let room: Vec<ProcessReport> = Vec::with_capacity(alloc, handed.len())?;
    let statuses: Vec<Status> = Vec::with_capacity(alloc, handed.len())?;
    let ran: Vec<Ran<L, S>> = Vec::with_capacity(alloc, handed.len())?;
    let held: Vec<Held<L, S>> = Vec::with_capacity(alloc, handed.len())?;
    let mut shared: Shared<L, S, C> = Shared::new(alloc, desk, slots);
    let mut viewers = begin_all(alloc, &mut shared, handed)?;
    shared.add_workers(wanted.workers)?;
    shared.set_ahead(wanted.ahead);
    let reclaimer = Mutex::new(Reclaimer::new(viewers.as_mut_slice()));
    let crew = run_threads(rt, &shared, &reclaimer, wanted.workers, wanted.slice, gate);
    drop(reclaimer);
    Ok(close(
        rt,
        shared.into_parts(held),
        frames,
        crew,
        handed,
        viewers,
        room,
        statuses,
        ran,
    ))
}

/// Adds processes that are to run these images, shared, on copies of these inputs to a machine that has none, and answers viewers of
/// their counts.
fn begin_all<L: Ledger, S: SwapSlot, C: Clock>(
    alloc: Global,
    shared: &mut Shared<L, S, C>,
    handed: &[(Image, Vec<u8>)],
) -> Result<Vec<Viewer>, AllocError>
    requires empty { shared.old.processes ≡ 0 }
    requires few { length handed.now ≤ most_processes }
    ensures all { OnOk result (shared.new.processes ≡ length handed.now) }
    ensures slots { OnOk result (shared.new.slots ≡ shared.old.slots) }
    ensures viewers { IfOk result (λ viewers. vec_len viewers ≡ length handed.now) }
{
    let mut viewers = Vec::with_capacity(alloc, handed.len())?;
    for (image, input) in handed {
        let image = image.share(alloc)?;
        let input = Vec::from_slice(alloc, input.as_slice())?;
        match shared.add(alloc, image, input) {
            Ok(added) => viewers.push(added.viewer)?,
            Err(AddRefusal::TooMany) => unreachable!(),
            Err(AddRefusal::NoMemory) => return Err(AllocError),
        }
    }
    Ok(viewers)
}
