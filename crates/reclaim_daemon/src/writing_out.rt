//! The write of a page's copy to its slot, before the page leaves its frame or while it stays there.

ghost use Rattle.std.specs.Prelude.{◌≡◌, ◌≤◌, IsTrue, IsFalse};
ghost use Rattle.swap_slots.specs.Slot.{Rose};

use crate::gate::Gate;
use page_store::{WriteJob, WrittenJob};
use swap_slots::SwapSlot;

/// Writes a page's copy to its slot, once the gate was called. It knows of no lock, so that none is held meanwhile.
pub(crate) fn write_slot<S: SwapSlot, P, G: Gate>(gate: &G, job: WriteJob<S, P>) -> WrittenJob<S, P>
    ensures process { result.process ≡ job.process }
    ensures vpn { result.vpn ≡ job.vpn }
    ensures copy { result.copy ≡ job.copy }
    ensures saved { S.honest → IsTrue result.passed → S.content result.slot ≡ job.copy }
    ensures passed { IsTrue result.passed → S.failures result.slot ≡ S.failures job.slot }
    ensures fault { IsFalse result.passed → Rose (S.failures job.slot) (S.failures result.slot) }
    ensures counted { S.failures job.slot ≤ S.failures result.slot }
{
    gate.before_save(job.key());
    job.run()
}
