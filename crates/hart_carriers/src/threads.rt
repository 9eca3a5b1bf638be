//! The threads of a run.

ghost use Rattle.std.specs.Prelude.{◌≡◌, ◌≤◌, true};

use crate::carrying::carrier;
use crate::crew::{Carries, Crew, Shift, Writes};
use clock_policy::Clock;
use flat_machine::KillCause;
use reclaim_daemon::{Gate, ProcessLocks, Reclaimer, Shared, daemon};
use std::sync::ledger::Ledger;
use std::sync::{Mutex, Wait};
use std::thread;
use std::thread::Threads;
use swap_slots::SwapSlot;

/// Runs the daemon and so many workers until each process has ended. Answers which of them were started.
///
/// Where a thread can't be started, each process that goes on is killed for want of memory, and the threads that were started end.
pub(crate) fn run_threads<
    L: Ledger + Send + Sync,
    S: SwapSlot + Send,
    C: Clock + Send,
    G: Gate + Sync,
    R: Threads + Wait + Sync,
>(
    rt: &R,
    shared: &Shared<L, S, C>,
    reclaimer: &Mutex<Reclaimer<'_>>,
    workers: u32,
    slice: u32,
    gate: &G,
) -> Crew
    ensures slice { result.slice ≡ slice }
    ensures ahead { result.ahead ≡ shared.now.ahead }
    ensures few { result.workers ≤ workers }
    ensures all { result.is_whole ≡ true → result.workers ≡ workers }
{
    // A closure that writes to nothing outside gets no proof with this toolchain.
    let mut has_begun = false;
    thread::scope(
        thread::scope_env(),
        rt,
        |scope| -> Crew
            ensures slice { result.slice ≡ slice }
            ensures ahead { result.ahead ≡ shared.entry.now.ahead }
            ensures few { result.workers ≤ workers }
            ensures all { result.is_whole ≡ true → result.workers ≡ workers }
        {
            has_begun = true;
            let ahead = shared.is_ahead();
            let makes_room = move || daemon(rt, shared, reclaimer, gate);
            let mut crew = Crew {
                workers: 0,
                slice,
                ahead,
                is_whole: scope.spawn_with(Writes(ahead), makes_room).is_ok(),
            };
            for worker in 0..workers {
                if crew.is_whole {
                    let shift = Shift {
                        worker,
                        workers,
                        slice,
                    };
                    let carries = move || carrier(
                        rt, shared, worker, workers, slice, reclaimer, gate,
                    );
                    if scope.spawn_with(Carries(shift), carries).is_ok() {
                        crew.workers += 1;
                    } else {
                        crew.is_whole = false;
                    }
                }
            }
            if !crew.is_whole {
                kill_all(rt, shared.locks());
            }
            crew
        },
    )
}

/// Ends each process that goes on, for want of memory.
fn kill_all<L: Ledger, S: SwapSlot, R: Wait>(rt: &R, locks: &ProcessLocks<L, S>) {
    for process in 0..locks.count() {
        locks.kill(rt, process, KillCause::NoMemory);
    }
}
