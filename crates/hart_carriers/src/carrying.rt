//! A worker's rounds over the harts that fall to it.

ghost use Rattle.std.specs.Prelude.{◌≡◌, ◌==◌, ◌+◌, ◌%◌, ◌<◌, ◌≤◌, IfSome};
ghost use Rattle.hart_carriers.specs.Causes.{cause_of_stop};
ghost use Rattle.hart_carriers.specs.Turns.{turn_of};

use crate::crew::Shift;
use crate::paging_in::bring_in;
use crate::seats::{EMPTY, Lack, Look, Row, Seat, seats};
use clock_policy::Clock;
use flat_machine::KillCause;
use machine_limits::{MOST_HARTS, MOST_PROCESSES};
use reclaim_daemon::{Gate, HoldOfProcess, ProcessLocks, Reclaimer, Shared};
use space_core::{Slice, SliceStop};
use std::sync::ledger::Ledger;
use std::sync::{Mutex, Wait};
use swap_slots::SwapSlot;

/// Carries the harts of a machine that fall to a worker, one of so many, until each process has ended: hart `h` of process `p` falls to
/// the worker of number `(p + h) % workers`. Each gets slices of so many instructions (or of one, for none), in turn. Answers by which
/// shift it has carried them.
///
/// It sleeps while none of its harts can run. That `worker` is below `workers` is for the caller to see to: else no hart falls to it.
pub fn carrier<L: Ledger, S: SwapSlot, C: Clock, G: Gate, R: Wait>(
    rt: &R,
    shared: &Shared<L, S, C>,
    worker: u32,
    workers: u32,
    slice: u32,
    reclaimer: &Mutex<Reclaimer<'_>>,
    gate: &G,
) -> Shift
    ensures { result ≡ record { worker = worker; workers = workers; slice = slice } }
{
    let shift = Shift {
        worker,
        workers,
        slice,
    };
    let locks = shared.locks();
    let mut seats = seats();
    let mut next = 0;
    for _ in rt.forever() {
        // In this order: the ring of the last ending comes after that ending, and is not to be among those that are known already.
        let rings = locks.rings(worker);
        if locks.has_ended() {
            return shift;
        }
        let look = Look {
            rings,
            is_offered: locks.take_offer(worker),
            is_serving: false,
        };
        let round = carry_round(
            rt, shared, &shift, &mut seats, &mut next, look, reclaimer, gate,
        );
        locks.set_hungry(worker, round.hungry);
        if !round.hungry || !locks.has_turn(worker) {
            locks.pass_turn(worker);
            if !round.ran {
                locks.wait_for_ring(rt, worker, rings);
            }
        }
    }
    unreachable!()
}

/// What a worker's round over its harts came to.
#[derive(Clone, Copy)]
struct Round {
    /// Whether any instruction ran.
    ran: bool,
    /// Whether a hart waits for a frame.
    hungry: bool,
}

/// That of harts none of which was carried.
const IDLE: Round = Round {
    ran: false,
    hungry: false,
};

impl Round {
    /// What both came to.
    fn and(self, other: Round) -> Round {
        Round {
            ran: self.ran || other.ran,
            hungry: self.hungry || other.hungry,
        }
    }
}

/// Carries each hart that falls to a worker and may be carried. Where the worker was given the turn to make room by then, or is meanwhile, those go first
/// that wait for a frame.
fn carry_round<L: Ledger, S: SwapSlot, C: Clock, G: Gate, R: Wait>(
    rt: &R,
    shared: &Shared<L, S, C>,
    shift: &Shift,
    seats: &mut [Row; MOST_PROCESSES],
    next: &mut u32,
    look: Look,
    reclaimer: &Mutex<Reclaimer<'_>>,
    gate: &G,
) -> Round {
    let mut round = IDLE;
    let locks = shared.locks();
    for process in 0..shared.processes() {
        if locks.begin_turn(shift.worker) {
            let ran = serve_waiting(rt, shared, shift, seats, next, look, reclaimer, gate);
            round.ran = round.ran || ran;
        }
        round = round.and(carry_row(rt, shared, process, shift, seats, look, reclaimer, gate));
    }
    round
}

/// In a worker's turn to make room: serves each of its harts that waits for a frame, from the process on after the one that was served last. Then the next
/// worker has the turn that waits for one. Where the turn is out of order only the process is served for which it is. Answers whether any instruction ran.
fn serve_waiting<L: Ledger, S: SwapSlot, C: Clock, G: Gate, R: Wait>(
    rt: &R,
    shared: &Shared<L, S, C>,
    shift: &Shift,
    seats: &mut [Row; MOST_PROCESSES],
    next: &mut u32,
    look: Look,
    reclaimer: &Mutex<Reclaimer<'_>>,
    gate: &G,
) -> bool {
    let locks = shared.locks();
    let look = look.serving();
    if let Some(first) = locks.lent_for(shift.worker) {
        let round = carry_row(rt, shared, first, shift, seats, look, reclaimer, gate);
        locks.pass_turn(shift.worker);
        return round.ran;
    }
    let mut ran = false;
    for _ in 0..shared.processes() {
        let process = *next;
        *next = next_process(process, shared.processes());
        let round = carry_row(rt, shared, process, shift, seats, look, reclaimer, gate);
        ran = ran || round.ran;
        if !locks.has_turn(shift.worker) {
            return ran;
        }
    }
    locks.let_others_reclaim(shift.worker);
    ran
}

/// The process after this one, of so many, in a round.
fn next_process(process: u32, processes: u32) -> u32 {
    let next = process.saturating_add(1);
    if next < processes { next } else { 0 }
}

/// The same of the harts of one process.
fn carry_row<L: Ledger, S: SwapSlot, C: Clock, G: Gate, R: Wait>(
    rt: &R,
    shared: &Shared<L, S, C>,
    process: u32,
    shift: &Shift,
    seats: &mut [Row; MOST_PROCESSES],
    look: Look,
    reclaimer: &Mutex<Reclaimer<'_>>,
    gate: &G,
) -> Round {
    if shared.locks().has_live(process) {
        if let Some(row) = seats.get_mut(process as usize) {
            return carry_process(rt, shared, process, shift, row, look, reclaimer, gate);
        }
    }
    IDLE
}

fn carry_process<L: Ledger, S: SwapSlot, C: Clock, G: Gate, R: Wait>(
    rt: &R,
    shared: &Shared<L, S, C>,
    process: u32,
    shift: &Shift,
    row: &mut Row,
    look: Look,
    reclaimer: &Mutex<Reclaimer<'_>>,
    gate: &G,
) -> Round {
    let mut round = IDLE;
    let locks = shared.locks();
    let mut next = first_hart(process, shift);
    for _ in 0..MOST_HARTS {
        let Some(seat) = row.get_mut(next as usize) else {
            return round;
        };
        let hart = next as u32;
        let is_wanted = seat.hungry || !look.is_serving;
        if !locks.is_live(process, hart) {
            *seat = EMPTY;
        } else if is_wanted && locks.may_run(process, hart) && falls_to(process, hart, shift) {
            let ran = carry_hart(
                rt, shared, process, hart, shift, seat, look, reclaimer, gate,
            );
            round.ran = round.ran || ran != 0;
            if !look.is_serving {
                locks.let_others_reclaim(shift.worker);
            }
        } else if is_wanted {
            seat.let_others_pass();
        }
        if seat.hungry {
            round.hungry = true;
        }
        next = next.saturating_add(u64::from(shift.workers));
    }
    round
}

/// The least hart of a process that falls to a worker; the others follow by as many as there are workers.
fn first_hart(process: u32, shift: &Shift) -> u64 {
    if shift.workers == 0 {
        return MOST_HARTS as u64;
    }
    let workers = u64::from(shift.workers);
    let others = workers.saturating_sub(u64::from(process) % workers);
    u64::from(shift.worker).saturating_add(others) % workers
}

/// Whether a hart of a process falls to a worker.
fn falls_to(process: u32, hart: u32, shift: &Shift) -> bool
    ensures { 0 < shift.now.workers →
        result ≡ ((process + hart) % shift.now.workers == shift.now.worker) }
{
    if shift.workers == 0 {
        return false;
    }
    (u64::from(process) + u64::from(hart)) % u64::from(shift.workers) == u64::from(shift.worker)
}

/// Carries a hart to the end of its turn, or as far as it gets without a page that it has to wait for. Returns how many instructions ran: no more than
/// its turn had left, which the seat keeps over such a wait.
fn carry_hart<L: Ledger, S: SwapSlot, C: Clock, G: Gate, R: Wait>(
    rt: &R,
    shared: &Shared<L, S, C>,
    process: u32,
    hart: u32,
    shift: &Shift,
    seat: &mut Seat,
    look: Look,
    reclaimer: &Mutex<Reclaimer<'_>>,
    gate: &G,
) -> u32
    ensures within { result + seat.new.left ≤ turn_of shift.now.slice seat.old.left }
{
    let locks = shared.locks();
    let mut ran: u32 = 0;
    locks.begin_serving(shift.worker);
    seat.begin_turn(shift.slice);
    'turn: for _ in rt.forever() {
        if !bring_in(
            rt,
            shared,
            process,
            hart,
            shift.worker,
            seat,
            look,
            reclaimer,
            gate,
        ) {
            return ran;
        }
        let part = run_part(rt, locks, process, hart, seat, gate);
        ran = ran.saturating_add(part.ran);
        if part.is_last {
            return ran;
        }
    }
    unreachable!()
}

/// What a part of a hart's turn came to.
#[derive(Clone, Copy)]
struct Part {
    /// How many instructions ran.
    ran: u32,
    /// Whether the turn is over: else it goes on once the page has come in that the hart lacks by now.
    is_last: bool,
}

/// Runs a hart by a slice, no longer than what is left of its turn. It is lent only the processes' locks: no instruction runs while its
/// carrier has the pager's lock or the slots'.
fn run_part<L: Ledger, S: SwapSlot, G: Gate, R: Wait>(
    rt: &R,
    locks: &ProcessLocks<L, S>,
    process: u32,
    hart: u32,
    seat: &mut Seat,
    gate: &G,
) -> Part
    ensures within { result.ran + seat.new.left ≤ seat.old.left }
{
    let Some(slice) = slice_of(rt, locks, process, hart, seat.left) else {
        return Part {
            ran: 0,
            is_last: true,
        };
    };
    let Slice { ran, stop } = slice;
    gate.after_slice(process, hart, ran);
    seat.left = seat.left.saturating_sub(ran);
    if let SliceStop::Absent(vpn) = stop {
        seat.lack = Some(Lack {
            vpn,
            faults: 0,
            told: false,
            tried: None,
        });
        return Part {
            ran,
            is_last: false,
        };
    }
    if let Some(cause) = failure(stop) {
        locks.kill(rt, process, cause);
    }
    seat.left = 0;
    locks.end_turn(process, hart, matches!(stop, SliceStop::Yield));
    Part { ran, is_last: true }
}

/// A slice of a hart of up to so many instructions, if there is such a process and no other hart of it is pressed.
#[tactic(auto, using(crate::proofs::Turns::slice_within))]
fn slice_of<L: Ledger, S: SwapSlot, R: Wait>(
    rt: &R,
    locks: &ProcessLocks<L, S>,
    process: u32,
    hart: u32,
    budget: u32,
) -> Option<Slice>
    ensures within { IfSome result (λ slice. slice.ran ≤ budget) }
{
    let hold = locks.slice(rt, process, hart, budget)?;
    let HoldOfProcess { reply, .. } = hold;
    reply
}

/// Why a process is ended for what a slice of it stopped for.
fn failure(stop: SliceStop) -> Option<KillCause>
    ensures { result ≡ cause_of_stop stop }
{
    match stop {
        SliceStop::ScheduleFull => Some(KillCause::ScheduleFull),
        SliceStop::NoMemory => Some(KillCause::NoMemory),
        _ => None,
    }
}
