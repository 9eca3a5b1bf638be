//! A page that a hart lacks is brought in, or its process ended.

ghost use Rattle.std.specs.Prelude.{◌≡◌, ◌≤◌, ◌⊎◌, ◌↔◌};

use crate::seats::{EMPTY, Lack, Look, Seat};
use clock_policy::{Clock, Key};
use flat_machine::KillCause;
use hart_signals::PageWait;
use machine_sides::NotAdmitted;
use paged_memory::PageInFault;
use reclaim_daemon::{Gate, HoldOfBoth, PagedIn, ProcessLocks, Reclaimer, Room, Shared, pause};
use std::sync::ledger::Ledger;
use std::sync::{Mutex, Wait};
use swap_slots::SwapSlot;

/// What one try for a page came to.
#[derive(Clone, Copy)]
enum Try {
    /// The hart may go on: the page is in.
    Done,
    /// The process has ended.
    Ended,
    /// Another try may do, once a frame has come free.
    NoFrame,
    /// Another try may do, once the page has come or gone.
    NotYet,
    /// The page could not be loaded.
    LoadFault,
    /// The process is to be ended.
    Fails(KillCause),
}

/// Brings in the page that a hart lacks, if it lacks one, and makes room for it where it is the worker's turn. Answers whether the hart may go on; else
/// it waits for the page, or its process has ended.
pub(crate) fn bring_in<L: Ledger, S: SwapSlot, C: Clock, G: Gate, R: Wait>(
    rt: &R,
    shared: &Shared<L, S, C>,
    process: u32,
    hart: u32,
    worker: u32,
    seat: &mut Seat,
    look: Look,
    reclaimer: &Mutex<Reclaimer<'_>>,
    gate: &G,
) -> bool
    ensures within { seat.new.left ≤ seat.old.left }
{
    let locks = shared.locks();
    if seat.hungry && !look.is_offered && !locks.may_try(worker) {
        return false;
    }
    'tries: for _ in rt.forever() {
        let Some(lack) = seat.lack else {
            return true;
        };
        if lack.tried == Some(look.rings) && !look.is_serving {
            return false;
        }
        let vpn = lack.vpn;
        match try_page(rt, shared, gate, Key { process, vpn }) {
            Try::Done => {
                locks.count_page(worker);
                seat.lack = None;
                seat.hungry = false;
                locks.set_wait(process, hart, PageWait::Nothing);
                return !is_spent(rt, locks, process);
            }
            Try::Ended => {
                *seat = EMPTY;
                return false;
            }
            Try::NoFrame => {
                if !make_room(rt, shared, process, hart, worker, reclaimer, gate) {
                    seat.lack = Some(Lack {
                        told: false,
                        tried: Some(look.rings),
                        ..lack
                    });
                    seat.hungry = true;
                    locks.set_wait(process, hart, PageWait::Frame);
                    return false;
                }
            }
            // It may have come or gone before it was known that the hart waits for that: so it is tried for once more.
            Try::NotYet if !lack.told => {
                locks.set_wait(process, hart, PageWait::Page);
                seat.lack = Some(Lack { told: true, ..lack });
            }
            Try::NotYet => {
                seat.lack = Some(Lack {
                    tried: Some(look.rings),
                    ..lack
                });
                seat.hungry = false;
                return false;
            }
            Try::LoadFault => {
                let (lack, cause) = lack.failed();
                seat.lack = Some(lack);
                if let Some(cause) = cause {
                    locks.kill(rt, process, cause);
                    return false;
                }
            }
            Try::Fails(cause) => {
                locks.kill(rt, process, cause);
                return false;
            }
        }
        if is_spent(rt, locks, process) {
            return false;
        }
    }
    unreachable!()
}

/// Makes room for a hart that found no frame, where it is its worker's turn. Answers whether the page is to be tried for again at once.
fn make_room<L: Ledger, S: SwapSlot, C: Clock, G: Gate, R: Wait>(
    rt: &R,
    shared: &Shared<L, S, C>,
    process: u32,
    hart: u32,
    worker: u32,
    reclaimer: &Mutex<Reclaimer<'_>>,
    gate: &G,
) -> bool {
    let locks = shared.locks();
    if !locks.take_turn(worker) {
        return false;
    }
    match shared.make_room(rt, reclaimer, gate) {
        Room::Made => {
            locks.end_rest();
            true
        }
        Room::Stuck(stuck) => locks.heed_stuck(rt, worker, process, hart, stuck),
        Room::NoPage => {
            pause(rt);
            true
        }
    }
}

/// Whether a process was tried for too often, and is ended by now. A process that is not there counts as ended.
fn is_spent<L: Ledger, S: SwapSlot, R: Wait>(
    rt: &R,
    locks: &ProcessLocks<L, S>,
    process: u32,
) -> bool {
    match locks.kill_if_spent(rt, process) {
        Some(hold) => hold.reply != Some(false),
        None => true,
    }
}

/// Tries for a page once. An admission that was not loaded is undone.
fn try_page<L: Ledger, S: SwapSlot, C: Clock, G: Gate, R: Wait>(
    rt: &R,
    shared: &Shared<L, S, C>,
    gate: &G,
    key: Key,
) -> Try {
    let Some(hold) = shared.page_in(rt, gate, key) else {
        return Try::Ended;
    };
    let HoldOfBoth { reply, .. } = hold;
    let Some(paged_in) = reply else {
        return Try::Ended;
    };
    match paged_in {
        PagedIn::Mapped | PagedIn::Here => Try::Done,
        PagedIn::NotAdmitted(reason) => after_refusal(reason),
        PagedIn::Failed { admission, fault } => {
            shared.undo(rt, admission);
            after_fault(fault)
        }
    }
}

/// A page that is not absent is on its way out. It is listed as resident between the failed load of another hart and its withdrawal.
fn after_refusal(reason: NotAdmitted) -> Try
    ensures ended { (result ≡ Try.Ended) ↔ (reason ≡ NotAdmitted.Ended) }
    ensures not_yet { (result ≡ Try.NotYet) ↔
        ((reason ≡ NotAdmitted.NotAbsent) ⊎ (reason ≡ NotAdmitted.AlreadyResident)) }
    ensures no_frame { (result ≡ Try.NoFrame) ↔ (reason ≡ NotAdmitted.NoFrame) }
    ensures no_memory { (result ≡ Try.Fails KillCause.NoMemory) ↔
        (reason ≡ NotAdmitted.NoMemory) }
{
    match reason {
        NotAdmitted::Ended => Try::Ended,
        NotAdmitted::NotAbsent | NotAdmitted::AlreadyResident => Try::NotYet,
        NotAdmitted::NoFrame => Try::NoFrame,
        NotAdmitted::NoMemory => Try::Fails(KillCause::NoMemory),
    }
}

fn after_fault(fault: PageInFault) -> Try
    ensures not_yet { (result ≡ Try.NotYet) ↔ (fault ≡ PageInFault.NotAbsent) }
    ensures load_fault { (result ≡ Try.LoadFault) ↔ (fault ≡ PageInFault.Device) }
    ensures damaged { (result ≡ Try.Fails KillCause.Damaged) ↔ (fault ≡ PageInFault.Damaged) }
    ensures no_memory { (result ≡ Try.Fails KillCause.NoMemory) ↔
        (fault ≡ PageInFault.NoMemory) }
{
    match fault {
        PageInFault::NotAbsent => Try::NotYet,
        PageInFault::Device => Try::LoadFault,
        PageInFault::Damaged => Try::Fails(KillCause::Damaged),
        PageInFault::NoMemory => Try::Fails(KillCause::NoMemory),
    }
}
