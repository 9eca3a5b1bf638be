//! Laws of the policies' definitions.

ghost use Rattle.page_policies.specs.Demand.{IsPlayed};
ghost use Rattle.textbook_policies.specs.Mru.{mru_misses};
ghost use Rattle.textbook_policies.specs.Lfu.{lfu_misses};
ghost use Rattle.textbook_policies.specs.LruK.{lru_k_misses};
ghost use Rattle.textbook_policies.specs.declared.lru_k_uses.LruKUses.{LruKUses};
ghost use Rattle.textbook_policies.specs.GClock.{g_clock_misses};
ghost use Rattle.textbook_policies.specs.declared.g_clock_counts.GClockCounts.{GClockCounts};
ghost use Rattle.textbook_policies.specs.Car.{car_misses};

/// MRU, LFU, LRU-K, generalized CLOCK and CAR are ways to serve a string, whatever is asked of them, so that the optimum is their floor.
#[tactic(auto, using(crate::proofs::MruPlayLaws::mru_played, crate::proofs::RankPlayLaws::lfu_played, crate::proofs::RankPlayLaws::lru_k_played, crate::proofs::GClockPlayLaws::g_clock_played, crate::proofs::CarPlayLaws::car_played))]
pub fn textbook_policies_are_plays()
    ensures mru { IsPlayed mru_misses }
    ensures lfu { IsPlayed lfu_misses }
    ensures lru_k { (uses : LruKUses) → IsPlayed (lru_k_misses uses) }
    ensures g_clock { (counts : GClockCounts) → IsPlayed (g_clock_misses counts) }
    ensures car { IsPlayed car_misses }
{}
