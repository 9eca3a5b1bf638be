//! Whether the list and the pages agree, and no frame is lost.

ghost use Rattle.std.specs.Prelude.{◌≡◌, ◌≤◌, ◌*◌, ◌^◌, true, vec_len, IfSome, IsNone};
ghost use Rattle.machine_sides.specs.Auditing.{CountsMore, IsListed};
ghost use Rattle.held_machine.specs.Audit.{AgreeEverywhere, HoldsAll, IsSound, space_in};
ghost use Rattle.machine_limits.specs.Limits.{most_processes};

use crate::desk::Desk;
use crate::held::Held;
use crate::parts::Parts;
use clock_policy::Clock;
use paged_memory::HeldPages;
use std::sync::ledger::Ledger;
use swap_slots::SwapSlot;

impl<L: Ledger, S: SwapSlot, C: Clock> Parts<L, S, C> {
    /// Whether the list's resident entries are exactly the resident pages of the processes, each of which is the one of its number; the
    /// frames that are free or in pages are as many as the machine was made with; and only what events of the machine give has happened.
    pub fn audit(&self) -> bool
        requires few { vec_len self.now.processes ≤ most_processes }
        ensures sound { result ≡ true → IsSound self.now.desk self.now.processes.items }
        ensures exact { IsSound self.now.desk self.now.processes.items → result ≡ true }
        ensures agree { result ≡ true → AgreeEverywhere self.now.desk self.now.processes.items }
    {
        let mut found = HeldPages {
            resident: 0,
            framed: 0,
        };
        'processes: for number in 0..self.processes.len() {
            match count_more(&self.desk, number as u32, &self.processes[number], found) {
                Some(more) => found = more,
                None => return false,
            }
        }
        self.desk.pager().question();
        is_all(&self.desk, found)
    }
}

/// Counts the pages of one process more, as an audit of the machine's sides does.
pub fn count_more<L: Ledger, S: SwapSlot, C: Clock>(
    desk: &Desk<L, C>,
    number: u32,
    held: &Held<L, S>,
    found: HeldPages,
) -> Option<HeldPages>
    requires resident { found.resident ≤ number * 2 ^ 20 }
    requires framed { found.framed ≤ number * 2 ^ 20 }
    ensures some { IfSome result (CountsMore desk.now.pager.pager number (space_in held.now)
        found) }
    ensures none { IsNone result →
        IsListed desk.now.pager.pager number (space_in held.now) → ⊥ }
{
    machine_sides::count_more(desk.pager(), number, held.side(), found)
}

/// Whether so many pages are all that the pager knows of, and it has known nothing but what events give.
pub fn is_all<L: Ledger, C: Clock>(desk: &Desk<L, C>, found: HeldPages) -> bool
    ensures all { result ≡ true → HoldsAll desk.now found }
    ensures exact { HoldsAll desk.now found → result ≡ true }
{
    if !desk.is_sound() {
        return false;
    }
    machine_sides::is_all(desk.pager(), found)
}
