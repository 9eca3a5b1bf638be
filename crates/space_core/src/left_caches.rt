//! The caches of a process's harts, where one of them stops.

ghost use Rattle.std.specs.Prelude.{◌≡◌, ℕ, ◌≤◌};
ghost use Rattle.paged_memory.specs.moves.Moving.{OnlyCaches};
ghost use Rattle.paged_memory.specs.access.Using.{SameCache};
ghost use Rattle.paged_memory.specs.Whole.{harts_in};
ghost use Rattle.space_core.specs.Slicing.{SettlesCaches};

use crate::progress::SliceStop;
use paged_memory::PagedMemory;
use std::sync::ledger::Ledger;
use swap_slots::SwapSlot;

/// A cache for each hart that was started.
#[tactic(auto, using(paged_memory::proofs::access_laws::UsingLaws::added_cache))]
pub(crate) fn add_harts<L: Ledger, S: SwapSlot>(memory: &mut PagedMemory<L, S>, harts: usize)
    requires more { harts_in memory.old ≤ harts }
    requires few { harts ≤ 8 }
    ensures memory { OnlyCaches memory.old memory.new }
    ensures harts { harts_in memory.new ≡ harts }
    ensures caches { (h : ℕ) → SameCache h memory.old memory.new }
{
    for _hart in memory.harts()..harts {
        memory.add_hart();
    }
}

/// Drops the translations that are not kept where a hart stops for this reason.
#[tactic(auto, using(paged_memory::proofs::access_laws::UsingLaws::emptied_each, paged_memory::proofs::access_laws::UsingLaws::cleared_own))]
pub(crate) fn settle_caches<L: Ledger, S: SwapSlot>(
    memory: &mut PagedMemory<L, S>,
    hart: usize,
    stop: SliceStop,
)
    ensures memory { OnlyCaches memory.old memory.new }
    ensures harts { harts_in memory.new ≡ harts_in memory.old }
    ensures caches { SettlesCaches stop hart memory.old memory.new }
{
    match stop {
        SliceStop::Budget => {}
        SliceStop::Ended => memory.clear_caches(),
        _ => {
            if hart < memory.harts() {
                memory.clear_cache(hart);
            }
        }
    }
}
