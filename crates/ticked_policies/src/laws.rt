//! Laws of the policies' definitions.

ghost use Rattle.page_policies.specs.Demand.{IsPlayed};
ghost use Rattle.ticked_policies.specs.declared.arrival.Arrival.{Arrival};
ghost use Rattle.ticked_policies.specs.declared.ticks.AgingTicks.{AgingTicks};
ghost use Rattle.ticked_policies.specs.declared.ticks.NruTicks.{NruTicks};
ghost use Rattle.ticked_policies.specs.declared.working_set_time.WorkingSetTime.{WorkingSetTime};
ghost use Rattle.ticked_policies.specs.SecondChance.{second_chance_misses};
ghost use Rattle.ticked_policies.specs.Ticked.{aging_misses, nru_misses};
ghost use Rattle.ticked_policies.specs.Uses.{AreWritesPlayed};
ghost use Rattle.ticked_policies.specs.WsClock.{ws_clock_misses};

use textbook_policies::textbook_policies_are_plays;

/// NRU, aging, WSClock and second chance are ways to serve a string, whatever is asked of them, so that the optimum is their floor.
#[tactic(auto, using(crate::proofs::TickedPlayLaws::nru_played, crate::proofs::TickedPlayLaws::aging_played, crate::proofs::WsClockPlayLaws::ws_clock_played))]
pub fn ticked_policies_are_plays()
    ensures nru { (ticks : NruTicks) → AreWritesPlayed (nru_misses ticks) }
    ensures aging { (ticks : AgingTicks) → AreWritesPlayed (aging_misses ticks) }
    ensures ws_clock { (set : WorkingSetTime) → AreWritesPlayed (ws_clock_misses set) }
    ensures second_chance { (arrival : Arrival) → IsPlayed (second_chance_misses arrival) }
{
    textbook_policies_are_plays();
}
