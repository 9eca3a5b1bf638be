//! The event of a page that comes in.

ghost use Rattle.std.specs.Prelude.{◌≡◌, ◌⊎◌, ◌<◌, length};
ghost use Rattle.machine_core.specs.MachineRun.{RefusesEvent};
ghost use Rattle.machine_core.specs.PagingIn.{page_in_refusal, PagesInAt, PagesInOnce};

use crate::error::EventRefusal;
use crate::event::Reply;
use crate::machine::Core;
use crate::paging_in::page_in;
use clock_policy::{Clock, Key};
use machine_sides::PagerSide;
use space_core::Space;
use std::sync::ledger::Ledger;
use swap_slots::SwapSlot;

impl<L: Ledger, S: SwapSlot, C: Clock> Core<L, S, C> {
    /// A page of a process is brought in.
    pub(crate) fn page_in(&mut self, key: Key) -> Reply
        ensures { RefusesEvent (page_in_refusal key self.old) self.old self.new result ⊎
            PagesInOnce S.content S.honest S.failures key self.old self.new result }
    {
        if key.process as usize >= self.processes.len() {
            return Reply::Refused(EventRefusal::NoProcess);
        }
        page_in_at(&mut self.pager, self.processes.as_mut_slice(), key)
    }
}

/// A page of the process of its key is brought in.
fn page_in_at<L: Ledger, S: SwapSlot, C: Clock>(
    pager: &mut PagerSide<L, C>,
    processes: &mut [Space<L, S>],
    key: Key,
) -> Reply
    requires { key.process < length processes.old }
    ensures { PagesInAt S.content S.honest S.failures key pager.old pager.new processes.old
        processes.new result }
{
    page_in(pager, &mut processes[key.process as usize], key)
}
