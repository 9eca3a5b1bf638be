//! Reports of machines and their processes.

ghost use Rattle.std.specs.Prelude.{◌≡◌, ◌≤◌, ◌^◌, [], IfOk, length, map, vec_capacity, vec_len};
ghost use Rattle.flat_machine.specs.Schedule.{IsJoined, written_out};
ghost use Rattle.machine_sides.specs.Reporting.{Reports, come_to, told};

use crate::auditing::audit;
use crate::pager_side::PagerSide;
use crate::report::{ProcessReport, Report};
use clock_policy::Clock;
use flat_machine::Turn;
use space_core::Space;
use std::alloc::{AllocError, Global};
use std::sync::ledger::Ledger;
use swap_slots::SwapSlot;

/// The report of a machine, with copies of what its processes wrote, in a list whose room is there.
pub fn report_on<L: Ledger, S: SwapSlot, C: Clock>(
    alloc: Global,
    pager: &PagerSide<L, C>,
    spaces: &[Space<L, S>],
    room: Vec<ProcessReport>,
) -> Result<Report, AllocError>
    requires empty { room.items ≡ [] }
    requires few { length spaces.now ≤ 2 ^ 32 }
    ensures { IfOk result (Reports pager.now spaces.now) }
{
    let is_sound = audit(pager, spaces);
    let mut reports = room;
    'spaces: for space in spaces {
        reports.push(process_report(alloc, space)?)?;
    }
    Ok(report_of(pager, reports, is_sound))
}

/// The report of a machine that is given up, in a list that has room. It takes no memory.
pub fn into_report<L: Ledger, S: SwapSlot, C: Clock>(
    pager: PagerSide<L, C>,
    spaces: Vec<Space<L, S>>,
    room: Vec<ProcessReport>,
) -> Report
    requires empty { room.items ≡ [] }
    requires room { vec_len spaces ≤ vec_capacity room }
    requires few { vec_len spaces ≤ 2 ^ 32 }
    ensures { Reports pager spaces.items result }
{
    let is_sound = audit(&pager, spaces.as_slice());
    let mut reports = room;
    'spaces: for space in spaces {
        reports.push_reserved(into_process_report(space));
    }
    report_of(&pager, reports, is_sound)
}

/// The report of a machine with this pager, whose processes have come to this.
fn report_of<L: Ledger, C: Clock>(
    pager: &PagerSide<L, C>,
    processes: Vec<ProcessReport>,
    audit: bool,
) -> Report
    ensures { result ≡ record {
      processes = processes;
      frames = pager.now.pager.size;
      page_ins = pager.now.pager.tallies.page_ins;
      victims = pager.now.pager.tallies.victims;
      saves = pager.now.saves;
      drops = pager.now.drops;
      questions = pager.now.pager.tallies.questions;
      audit = audit;
    } }
{
    let counts = pager.counts();
    let tallies = counts.pager.tallies;
    Report {
        processes,
        frames: pager.size(),
        page_ins: tallies.page_ins,
        victims: tallies.victims,
        saves: counts.saves,
        drops: counts.drops,
        questions: tallies.questions,
        audit,
    }
}

/// What a process has come to, with copies of what it wrote and of its turns.
fn process_report<L: Ledger, S: SwapSlot>(
    alloc: Global,
    space: &Space<L, S>,
) -> Result<ProcessReport, AllocError>
    ensures { IfOk result (λ report. told report ≡ come_to space.now) }
{
    let output = Vec::from_slice(alloc, space.output())?;
    let turns = Vec::from_slice(alloc, space.schedule().turns())?;
    Ok(ProcessReport {
        output,
        end: space.end(),
        steps: steps_of(turns.as_slice()),
        turns,
    })
}

/// What a process has come to, with what it wrote and its turns. It takes no memory.
pub fn into_process_report<L: Ledger, S: SwapSlot>(space: Space<L, S>) -> ProcessReport
    ensures { told result ≡ come_to space }
{
    let end = space.end();
    let steps = steps_of(space.schedule().turns());
    let (output, turns) = space.into_output_and_turns();
    ProcessReport {
        output,
        end,
        steps,
        turns,
    }
}

/// How many instructions the turns of a schedule have.
fn steps_of(turns: &[Turn]) -> u64
    requires { IsJoined turns.now }
    ensures { result ≡ length (written_out turns.now) }
{
    let mut steps = 0;
    'turns: for turn in turns {
        steps += u64::from(turn.count);
    }
    steps
}
