//! The pager's lock and a process's together, in this order.
//!
//! While another thread has the process, in a slice or a load, this thread waits with no other lock, so that others page meanwhile; after a few rounds it is
//! waited for with the pager's lock held.

use crate::process_locks::ProcessLocks;
use crate::shared::Shared;
use crate::waiting::low_half;
use clock_policy::Clock;
use held_machine::{Desk, Held};
use std::sync::ledger::Ledger;
use std::sync::{Mutex, MutexGuard, Wait};
use std::time::Duration;
use swap_slots::SwapSlot;

/// How often a process's lock is waited for with the pager's let go.
pub(crate) const ROUNDS: u32 = 4;

/// Guards of the pager's lock and a process's.
pub(crate) type Both<'a, L, S, C> = (MutexGuard<'a, Desk<L, C>>, MutexGuard<'a, Held<L, S>>);

/// How often a worker that is to run instructions looks whether others wait, at most, and for how many milliseconds it sleeps after each look. Nothing
/// relies on either.
const LOOKS: u32 = 64;

const LOOK_MILLIS: u64 = 1;

impl<L: Ledger, S: SwapSlot> ProcessLocks<L, S> {
    /// This lock of a process, for a thread that runs no instruction under it: it goes before those that do.
    pub(crate) fn lock_first<'a, R: Wait>(
        &self,
        rt: &R,
        number: u32,
        lock: &'a Mutex<Held<L, S>>,
    ) -> MutexGuard<'a, Held<L, S>> {
        if let Some(held) = lock.try_lock() {
            return held;
        }
        let callers = self.signals().callers(number);
        if let Some(them) = callers {
            them.enter();
        }
        let held = lock.lock(rt);
        if let Some(them) = callers {
            them.leave();
        }
        held
    }

    /// Lets those go first that wait for a process's lock and run no instruction under it.
    pub(crate) fn let_callers_pass<R: Wait>(&self, rt: &R, number: u32) {
        let Some(callers) = self.signals().callers(number) else {
            return;
        };
        for _ in 0..LOOKS {
            let waiting = callers.waiting();
            if waiting == 0 {
                return;
            }
            let pause = Duration::from_millis(LOOK_MILLIS);
            callers.word().park_timeout(rt, low_half(waiting), pause);
        }
    }
}

impl<L: Ledger, S: SwapSlot, C: Clock> Shared<L, S, C> {
    /// The pager's lock and this one of a process.
    pub(crate) fn lock_both<'a, R: Wait>(
        &'a self,
        rt: &R,
        number: u32,
        lock: &'a Mutex<Held<L, S>>,
    ) -> Both<'a, L, S, C> {
        for _ in 0..ROUNDS {
            let desk = self.desk.lock(rt);
            if let Some(held) = lock.try_lock() {
                return (desk, held);
            }
            drop(desk);
            drop(self.locks.lock_first(rt, number, lock));
        }
        let desk = self.desk.lock(rt);
        (desk, self.locks.lock_first(rt, number, lock))
    }
}

/// A process's lock, where no other thread has it or no more rounds are left.
pub(crate) fn lock_held<'a, L: Ledger, S: SwapSlot, R: Wait>(
    rt: &R,
    locks: &ProcessLocks<L, S>,
    number: u32,
    lock: &'a Mutex<Held<L, S>>,
    rounds: u32,
) -> Option<MutexGuard<'a, Held<L, S>>> {
    if rounds == 0 {
        return Some(locks.lock_first(rt, number, lock));
    }
    lock.try_lock()
}
