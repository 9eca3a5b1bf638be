//! A page that could not leave its frame is resident again.

ghost use Rattle.std.specs.Prelude.{◌≡◌, ◌<◌, ◌^◌, true};
ghost use Rattle.paged_memory.specs.Paged.{memory_of};
ghost use Rattle.paged_memory.specs.moves.Stages.{is_leaving_stage};
ghost use Rattle.paged_memory.specs.Whole.{stage_in};
ghost use Rattle.machine_sides.specs.Returning.{CanReturn, ComesBack};

use crate::pager_side::PagerSide;
use clock_policy::{Clock, Key};
use space_core::Space;
use std::sync::ledger::Ledger;
use swap_slots::SwapSlot;

/// Lists a page that is leaving again, and then maps it again.
#[tactic(auto, using(paged_memory::proofs::move_laws::MovingLaws::same_reserved))]
pub(crate) fn bring_back<L: Ledger, S: SwapSlot, C: Clock>(
    pager: &mut PagerSide<L, C>,
    process: &mut Space<L, S>,
    vpn: u32,
)
    requires small { vpn < 2 ^ 20 }
    requires leaving { is_leaving_stage (stage_in process.old.memory vpn) ≡ true }
    requires listed { CanReturn vpn pager.old process.old }
    ensures back { ComesBack vpn pager.old pager.new process.old process.new }
    ensures memory { memory_of S.content process.new.memory ≡
        memory_of S.content process.old.memory }
{
    // The list takes it back.
    let _ = pager.pager.restore(Key {
        process: process.process(),
        vpn,
    });
    if process.bring_back(vpn).is_err() {
        unreachable!()
    }
}
