//! The calls on a pager and a process, on what a process's lock holds.

ghost use Rattle.std.specs.Prelude.{◌≡◌, None, true};
ghost use Rattle.machine_sides.specs.Agreeing.{AgreeStill, AsksOf};
ghost use Rattle.machine_sides.specs.Collecting.{is_leaving_at, Looks};
ghost use Rattle.machine_sides.specs.Purging.{HasRoom, Purges};
ghost use Rattle.machine_sides.specs.Returning.{CanReturn};
ghost use Rattle.machine_sides.specs.SavingBack.{EndsSave};
ghost use Rattle.machine_sides.specs.Sweeping.{Sweeps};
ghost use Rattle.paged_memory.specs.Paged.{memory_of};
ghost use Rattle.held_machine.specs.HeldValue.{tried_if};
ghost use Rattle.held_machine.specs.Tries.{look_failed, save_failed};

use crate::held::Held;
use clock_policy::Clock;
use machine_sides::{Looked, PagerSide, PurgeRefusal, SaveOutcome, Swept};
use page_store::SavedJob;
use std::sync::ledger::Ledger;
use swap_slots::{SlotPool, SwapSlot};

/// A question of the list.
#[tactic(auto, using(crate::proofs::Statuses::sweep_leaves))]
pub fn sweep<L: Ledger, S: SwapSlot, C: Clock>(
    pager: &mut PagerSide<L, C>,
    held: &mut Held<L, S>,
) -> Swept
    ensures swept { Sweeps pager.old pager.new held.old.side held.new.side result }
    ensures agree { AsksOf pager.old.pager held.old.side →
        AgreeStill None pager.old.pager pager.new.pager held.old.side held.new.side }
    ensures held { held.new ≡ record held.old { side = held.new.side } }
{
    machine_sides::sweep(pager, &mut held.side)
}

/// A look at a leaving page. One that finds no slot counts as a try.
#[tactic(auto, using(crate::proofs::Statuses::look_leaves), unfolding(pager_core::specs::Pager::tallied))]
pub fn collect<L: Ledger, S: SwapSlot, C: Clock>(
    pager: &mut PagerSide<L, C>,
    held: &mut Held<L, S>,
    vpn: u32,
    slots: &mut SlotPool<S>,
) -> Looked<S>
    requires { is_leaving_at held.old.side vpn ≡ true → CanReturn vpn pager.old held.old.side }
    ensures looked { Looks vpn pager.old pager.new held.old.side held.new.side slots.old slots.new
        result }
    ensures agree { AgreeStill None pager.old.pager pager.new.pager held.old.side
        held.new.side }
    ensures memory { S.honest → memory_of S.content held.new.side.memory ≡
        memory_of S.content held.old.side.memory }
    ensures held { held.new ≡ record held.old {
      side = held.new.side;
      tries = tried_if
          (look_failed result) held.old.tries;
    } }
{
    let looked = machine_sides::collect(pager, &mut held.side, vpn, slots);
    if matches!(looked, Looked::NoSlot) {
        held.tries = held.tries.saturating_add(1);
    }
    looked
}

/// A save comes back. One that failed counts as a try.
#[tactic(auto, using(crate::proofs::Statuses::save_leaves), unfolding(pager_core::specs::Pager::tallied))]
pub fn saved<L: Ledger, S: SwapSlot, C: Clock>(
    pager: &mut PagerSide<L, C>,
    held: &mut Held<L, S>,
    job: SavedJob<S>,
) -> SaveOutcome<S>
    requires { CanReturn job.vpn pager.old held.old.side }
    ensures ends { EndsSave job pager.old pager.new held.old.side held.new.side result }
    ensures agree { AgreeStill None pager.old.pager pager.new.pager held.old.side
        held.new.side }
    ensures memory { S.honest → memory_of S.content held.new.side.memory ≡
        memory_of S.content held.old.side.memory }
    ensures held { held.new ≡ record held.old {
      side = held.new.side;
      tries = tried_if
          (save_failed result) held.old.tries;
    } }
{
    let outcome = machine_sides::saved(pager, &mut held.side, job);
    if matches!(outcome, SaveOutcome::ResidentAgain(_)) {
        held.tries = held.tries.saturating_add(1);
    }
    outcome
}

/// An ended process gives its frames and slots back.
#[tactic(auto, using(crate::proofs::Statuses::purge_leaves))]
pub fn purge<L: Ledger, S: SwapSlot, C: Clock>(
    pager: &mut PagerSide<L, C>,
    held: &mut Held<L, S>,
    slots: &mut SlotPool<S>,
) -> Result<(), PurgeRefusal>
    requires { HasRoom held.old.side slots.old }
    ensures purges { Purges pager.old pager.new held.old.side held.new.side slots.old slots.new
        result }
    ensures agree { AgreeStill None pager.old.pager pager.new.pager held.old.side
        held.new.side }
    ensures held { held.new ≡ record held.old { side = held.new.side } }
{
    machine_sides::purge(pager, &mut held.side, slots)
}
