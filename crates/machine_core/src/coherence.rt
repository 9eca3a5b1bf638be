//! Consistency of the pages, tables and caches of the machine's processes.

ghost use Rattle.machine_core.specs.Coherent.{EachCoherent};

use crate::machine::Core;
use clock_policy::Clock;
use space_core::Space;
use std::sync::ledger::Ledger;
use swap_slots::SwapSlot;

/// The pages, tables and caches of each process go together. It does nothing.
pub(crate) fn each_coheres<L: Ledger, S: SwapSlot>(processes: &[Space<L, S>])
    ensures { EachCoherent S.content S.honest processes.now }
{
    for side in processes {
        side.coherent();
    }
}

impl<L: Ledger, S: SwapSlot, C: Clock> Core<L, S, C> {
    /// What holds of each process between any two calls, so after any list of events. It represents its flat process where
    /// slots are honest, and its pages, tables and caches are consistent. The call does nothing.
    pub fn coherent(&self)
        ensures { EachCoherent S.content S.honest self.now.processes }
    {
        each_coheres(self.processes.as_slice());
    }
}
