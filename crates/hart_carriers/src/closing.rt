//! What a machine has come to whose threads were joined.

ghost use Rattle.std.specs.Prelude.{◌≡◌, ◌+◌, ◌≤◌, ◌↔◌, length, map, vec_len, vec_capacity, []};
ghost use Rattle.std.specs.Prelude.{true, All, IsTrue};
ghost use Rattle.machine_sides.specs.Reporting.{Counts, come_to, told};
ghost use Rattle.space_core.specs.StandsFor.{StandsFor};
ghost use Rattle.held_machine.specs.Audit.{IsSound, AgreeEverywhere};
ghost use Rattle.machine_limits.specs.Limits.{most_processes};
ghost use Rattle.hart_carriers.specs.Ending.{HaveEnded, ShowLines, cleans_of, told_cleans};
ghost use Rattle.hart_carriers.specs.FlatLines.{counts_of, StandsForRuns};

use crate::crew::Crew;
use crate::gathering::gather_frames;
use crate::line::Ran;
use crate::lines::tell;
use crate::report::RunReport;
use clock_policy::Clock;
use elf_image::Image;
use held_machine::{Desk, Held, Parts};
use machine_sides::{PagerSide, ProcessReport, Report};
use status_cell::{Status, Viewer};
use std::sync::Wait;
use std::sync::ledger::{Ledger, Share};
use swap_slots::SwapSlot;

/// What a machine of so many frames has come to, whose harts this crew carried and whose processes were to run these images on these
/// inputs, and the share of its frames. The lists have room.
pub(crate) fn close<L: Ledger, S: SwapSlot, C: Clock, R: Wait>(
    rt: &R,
    parts: Parts<L, S, C>,
    frames: u32,
    crew: Crew,
    handed: &[(Image, Vec<u8>)],
    viewers: Vec<Viewer>,
    room: Vec<ProcessReport>,
    statuses: Vec<Status>,
    ran: Vec<Ran<L, S>>,
) -> (RunReport, Share<L>)
    requires few { vec_len parts.processes ≤ most_processes }
    requires empty { room.items ≡ [] }
    requires room { length handed.now ≤ vec_capacity room }
    requires blank { statuses.items ≡ [] }
    requires space { length handed.now ≤ vec_capacity statuses }
    requires none { ran.items ≡ [] }
    requires seats { vec_len parts.processes ≤ vec_capacity ran }
    ensures stands { S.honest → result.0.report.audit ≡ true →
        StandsForRuns handed.entry.now result.0.report.processes.items }
    ensures last { result.0.published.items ≡ map counts_of result.0.report.processes.items }
    ensures shown { result.0.report.audit ≡ true →
        ShowLines result.0.viewers.items result.0.report.processes.items }
    ensures many { result.0.report.audit ≡ true →
        vec_len result.0.report.processes ≡ length handed.entry.now }
    ensures ended { result.0.report.audit ≡ true →
        HaveEnded result.0.report.processes.items }
    ensures frames { result.0.report.frames ≡ frames }
    ensures slots { result.0.slots ≡ parts.slots.size }
    ensures cleans { result.0.cleans ≡ told_cleans crew.ahead parts.processes.items }
    ensures crew { result.0.crew ≡ crew }
    ensures shares { result.0.report.audit ≡ true → result.1.parts ≡ frames + 1 }
    ensures counts { Counts parts.desk.pager result.0.report }
    ensures size { result.0.report.audit ≡ true → parts.desk.pager.pager.size ≡ frames }
    ensures sound { result.0.report.audit ≡ true → IsSound parts.desk parts.processes.items }
    ensures agree { result.0.report.audit ≡ true →
        AgreeEverywhere parts.desk parts.processes.items }
    ensures come { result.0.report.audit ≡ true → map told result.0.report.processes.items ≡
        map (λ h. come_to h.side) parts.processes.items }
    ensures stand { S.honest → All (λ h. StandsFor S.content h.side) parts.processes.items }
{
    all_stand(parts.processes.as_slice());
    let agrees = parts.audit();
    let counts = parts.desk.pager().counts();
    let sized = parts.desk.pager().size() == frames;
    let slots = parts.slots.size();
    let cleans = told_cleans(crew.ahead, parts.processes.as_slice());
    let (desk, processes) = purged(parts);
    let sound = desk.is_sound();
    let (whole, share) = gather_all(desk.into_pager(), frames);
    let told = tell(all_ran(processes, ran), handed, room, statuses);
    let mut viewers = viewers;
    let shown = show_all(rt, viewers.as_mut_slice(), told.published.as_slice());
    let ended = have_ended(told.processes.as_slice());
    let report = Report {
        processes: told.processes,
        frames,
        page_ins: counts.pager.tallies.page_ins,
        victims: counts.pager.tallies.victims,
        saves: counts.saves,
        drops: counts.drops,
        questions: counts.pager.tallies.questions,
        audit: all_hold(agrees, sized, sound, whole, told.started, ended, shown),
    };
    let run = RunReport {
        report,
        published: told.published,
        viewers,
        slots,
        cleans,
        crew,
    };
    (run, share)
}

/// How many pages of these processes were cleaned, where they were written ahead.
fn told_cleans<L: Ledger, S: SwapSlot>(ahead: bool, processes: &[Held<L, S>]) -> Option<u64>
    ensures { result ≡ told_cleans ahead processes.now }
{
    if ahead {
        Some(cleans_of(processes))
    } else {
        None
    }
}

/// How many pages of these processes were cleaned. The count stays at its type's largest number.
#[tactic(auto, using(crate::proofs::Cleans::with_all, crate::proofs::Cleans::with_one, crate::proofs::Cleans::with_none))]
fn cleans_of<L: Ledger, S: SwapSlot>(processes: &[Held<L, S>]) -> u64
    ensures { result ≡ cleans_of processes.now }
{
    let mut cleans: u64 = 0;
    let mut rest = processes;
    while let Some((held, others)) = rest.split_first() {
        cleans = cleans.saturating_add(held.cleans());
        rest = others;
    }
    cleans
}

/// For the proof only: each process represents the flat run of its schedule.
fn all_stand<L: Ledger, S: SwapSlot>(processes: &[Held<L, S>])
    ensures { S.honest → All (λ h. StandsFor S.content h.side) processes.now }
{
    for held in processes {
        held.coherent();
    }
}

/// The pager's desk and the processes, each of which has given back what the daemon has left it.
#[tactic(auto, using(held_machine::proofs::Purged::each_come_to))]
fn purged<L: Ledger, S: SwapSlot, C: Clock>(parts: Parts<L, S, C>) -> (Desk<L, C>, Vec<Held<L, S>>)
    requires few { vec_len parts.processes ≤ most_processes }
    ensures many { vec_len result.1 ≡ vec_len parts.processes }
    ensures come { map (λ h. come_to h.side) result.1.items ≡
        map (λ h. come_to h.side) parts.processes.items }
{
    let mut all = parts;
    all.purge_all();
    let Parts {
        desk,
        processes,
        slots: _,
    } = all;
    (desk, processes)
}

/// Whether all that an audit looks at is as it is to be.
fn all_hold(
    agrees: bool,
    sized: bool,
    sound: bool,
    whole: bool,
    started: bool,
    ended: bool,
    shown: bool,
) -> bool
    ensures agrees { result ≡ true → agrees ≡ true }
    ensures sized { result ≡ true → sized ≡ true }
    ensures sound { result ≡ true → sound ≡ true }
    ensures whole { result ≡ true → whole ≡ true }
    ensures started { result ≡ true → started ≡ true }
    ensures ended { result ≡ true → ended ≡ true }
    ensures shown { result ≡ true → shown ≡ true }
    ensures exact { agrees ≡ true → sized ≡ true → sound ≡ true → whole ≡ true → started ≡ true →
        ended ≡ true → shown ≡ true → result ≡ true }
{
    if !agrees || !sized {
        return false;
    }
    if !sound || !whole {
        return false;
    }
    if !started || !ended {
        return false;
    }
    shown
}

/// Whether each viewer shows the pair of its number. It looks at each of them once more, up to one that does not.
#[tactic(auto, using(crate::proofs::Showing::shown_none, crate::proofs::Showing::shown_more, crate::proofs::Showing::shown_all))]
fn show_all<R: Wait>(rt: &R, viewers: &mut [Viewer], pairs: &[Status]) -> bool
    ensures shown { result ≡ true → map (λ v. v.seen) viewers.new ≡ pairs.now }
    ensures many { length viewers.new ≡ length viewers.old }
{
    if viewers.len() != pairs.len() {
        return false;
    }
    'viewers: for number in 0..pairs.len() {
        if !is_same(viewers[number].look(rt), pairs[number]) {
            return false;
        }
    }
    true
}

/// Whether two pairs are the same.
fn is_same(a: Status, b: Status) -> bool
    ensures { IsTrue result ↔ (a ≡ b) }
{
    a == b
}

/// Whether each process has ended.
fn have_ended(processes: &[ProcessReport]) -> bool
    ensures { IsTrue result ↔ HaveEnded processes.now }
{
    for process in processes {
        if process.end.is_none() {
            return false;
        }
    }
    true
}

/// Gives up a pager that is to have so many frames. Answers whether each of them was there, and the share that they make.
fn gather_all<L: Ledger, C: Clock>(pager: PagerSide<L, C>, frames: u32) -> (bool, Share<L>)
    ensures { result.0 ≡ true → result.1.parts ≡ frames + 1 }
{
    let as_many = pager.size() == frames;
    let (whole, share) = gather_frames(pager);
    (as_many && whole, share)
}

/// The processes of a machine, each with what was published of it last, in a list whose room is there.
fn all_ran<L: Ledger, S: SwapSlot>(
    processes: Vec<Held<L, S>>,
    room: Vec<Ran<L, S>>,
) -> Vec<Ran<L, S>>
    requires empty { room.items ≡ [] }
    requires room { vec_len processes ≤ vec_capacity room }
    ensures come { map (λ ran. come_to ran.process) result.items ≡
        map (λ h. come_to h.side) processes.items }
{
    let mut all = room;
    for held in processes {
        all.push_reserved(ran_of(held));
    }
    all
}

/// A process, with what was published of it last.
#[tactic(auto, using(crate::proofs::SameStatus::same_status))]
fn ran_of<L: Ledger, S: SwapSlot>(held: Held<L, S>) -> Ran<L, S>
    ensures { result.process ≡ held.side }
{
    let last = held.status();
    Ran {
        process: held.into_side(),
        last,
    }
}
