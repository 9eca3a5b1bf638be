//! Loads an admitted page into its frame and maps it; a refusal hands the admission back.

ghost use Rattle.std.specs.Prelude.{◌≡◌, Some, None, IfErr, OnOk, OnErr};
ghost use Rattle.machine_sides.specs.Agreeing.{AgreeStill, AgreesWhereListed};
ghost use Rattle.machine_sides.specs.Loading.{Loads, DoesNotLoad};
ghost use Rattle.machine_sides.specs.Together.{key_of};
ghost use Rattle.paged_memory.specs.moves.Moving.{SameFailures};
ghost use Rattle.pager_core.specs.Pager.{PagerState};

use crate::admission::Admission;
use page_memory::PAGE_COUNT;
use paged_memory::PageInFault;
use space_core::Space;
use std::sync::ledger::Ledger;
use swap_slots::SwapSlot;

/// Brings an admitted page into its frame, from its slot or as it began, and maps it with its rights, as used and not
/// changed. A refusal hands the admission back, to be undone, and leaves the page where it was.
pub fn load<L: Ledger, S: SwapSlot>(
    space: &mut Space<L, S>,
    admission: Admission<L>,
) -> Result<(), (Admission<L>, PageInFault)>
    ensures loaded { OnOk result (Loads S.content S.honest admission space.old
        space.new) }
    ensures passed { OnOk result (SameFailures S.failures admission.key.vpn space.old.memory
        space.new.memory) }
    ensures refused { IfErr result (λ back.
        DoesNotLoad S.content S.honest S.failures admission back.0 back.1 space.old
        space.new) }
    ensures agree { OnOk result ((pager : PagerState) →
        AgreeStill (Some (key_of space.old.memory.process admission.key.vpn)) pager pager
        space.old space.new) }
    ensures meets { OnOk result (AgreesWhereListed space.new
        (key_of space.old.memory.process admission.key.vpn)) }
    ensures keeps { OnErr result ((pager : PagerState) →
        AgreeStill None pager pager space.old space.new) }
{
    bring_in(space, admission)
}

/// The page comes into its frame, or the admission back.
fn bring_in<L: Ledger, S: SwapSlot>(
    space: &mut Space<L, S>,
    admission: Admission<L>,
) -> Result<(), (Admission<L>, PageInFault)>
    ensures loaded { OnOk result (Loads S.content S.honest admission space.old
        space.new) }
    ensures passed { OnOk result (SameFailures S.failures admission.key.vpn space.old.memory
        space.new.memory) }
    ensures refused { IfErr result (λ back.
        DoesNotLoad S.content S.honest S.failures admission back.0 back.1 space.old
        space.new) }
{
    let Admission { key, frame } = admission;
    if key.vpn >= PAGE_COUNT {
        return Err((Admission { key, frame }, PageInFault::NotAbsent));
    }
    if let Err((frame, fault)) = space.page_in(key.vpn, frame) {
        return Err((Admission { key, frame }, fault));
    }
    Ok(())
}
