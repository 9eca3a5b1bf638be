//! Whether the list and the pages agree, and no frame is lost.

ghost use Rattle.std.specs.Prelude.{◌≡◌, false, true};
ghost use Rattle.reclaim_daemon.specs.Audit.{FindsAmiss, FindsSound};

use crate::shared::Shared;
use clock_policy::Clock;
use held_machine::{count_more, is_all};
use paged_memory::HeldPages;
use std::sync::Wait;
use std::sync::ledger::Ledger;
use swap_slots::SwapSlot;

impl<L: Ledger, S: SwapSlot, C: Clock> Shared<L, S, C> {
    /// Whether the list's resident entries are exactly the resident pages of the processes, each of which is the one of its number; the
    /// frames that are free or in pages are as many as the machine was made with; and only what events of the machine give has happened.
    /// See [`held_machine::Parts::audit`].
    ///
    /// It looks at one process after another, and so shows the machine at one moment only while no other thread works in it.
    #[tactic(auto, using(crate::proofs::Audited::found_none, crate::proofs::Audited::found_more, crate::proofs::Audited::found_sound, crate::proofs::Audited::found_short, crate::proofs::Audited::found_amiss))]
    pub fn audit<R: Wait>(&self, rt: &R) -> bool
        ensures sound { result ≡ true → FindsSound S self.now.processes }
        ensures amiss { result ≡ false → FindsAmiss S self.now.processes }
    {
        let mut guard = self.desk.lock(rt);
        if self.locks.is_misplaced() {
            guard.mark_unsound();
        }
        let desk = &*guard;
        let mut found = HeldPages {
            resident: 0,
            framed: 0,
        };
        'processes: for number in 0..self.locks.count() {
            let Some(lock) = self.locks.get(number) else {
                unreachable!();
            };
            let held = lock.lock(rt);
            match count_more(desk, number, &*held, found) {
                Some(more) => found = more,
                None => return false,
            }
        }
        is_all(desk, found)
    }
}
