//! The event of a page-in: the page is admitted and loaded, or its admission is undone.

ghost use Rattle.std.specs.Prelude.{◌≡◌};
ghost use Rattle.machine_core.specs.PagingIn.{admit_reason, fault_reply, PagesIn};

use crate::error::EventRefusal;
use crate::event::Reply;
use clock_policy::{Clock, Key};
use machine_sides::{NotAdmitted, PagerSide, admit, load, undo};
use paged_memory::PageInFault;
use space_core::Space;
use std::sync::ledger::Ledger;
use swap_slots::SwapSlot;

/// Brings a page of a process in: it is admitted and loaded, or else the admission is undone.
pub(crate) fn page_in<L: Ledger, S: SwapSlot, C: Clock>(
    pager: &mut PagerSide<L, C>,
    process: &mut Space<L, S>,
    key: Key,
) -> Reply
    ensures { PagesIn S.content S.honest S.failures key pager.old pager.new process.old process.new
        result }
{
    let admission = match admit(pager, process, key) {
        Ok(admission) => admission,
        Err(reason) => return Reply::Refused(admit_reason(reason)),
    };
    let (admission, fault) = match load(process, admission) {
        Ok(()) => return Reply::Mapped,
        Err(back) => back,
    };
    undo(pager, process, admission);
    fault_reply(fault)
}

/// Why a page does not come in that was not admitted.
fn admit_reason(reason: NotAdmitted) -> EventRefusal
    ensures { result ≡ admit_reason reason }
{
    match reason {
        NotAdmitted::Ended => EventRefusal::Ended,
        NotAdmitted::NotAbsent => EventRefusal::NotAbsent,
        NotAdmitted::AlreadyResident => EventRefusal::NotAbsent,
        NotAdmitted::NoFrame => EventRefusal::NoFrame,
        NotAdmitted::NoMemory => EventRefusal::NoMemory,
    }
}

/// What is replied for a page that was not loaded.
fn fault_reply(fault: PageInFault) -> Reply
    ensures { result ≡ fault_reply fault }
{
    match fault {
        PageInFault::NotAbsent => Reply::Refused(EventRefusal::NotAbsent),
        PageInFault::Device => Reply::Device,
        PageInFault::Damaged => Reply::Damaged,
        PageInFault::NoMemory => Reply::Refused(EventRefusal::NoMemory),
    }
}
