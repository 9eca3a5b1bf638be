//! Laws of the policies' definitions.

ghost use Rattle.std.specs.Prelude.{ℕ};
ghost use Rattle.page_policies.specs.Inclusion.{Inclusion, MissesNoMore};
ghost use Rattle.page_policies.specs.Queues.{fifo_misses, lru_misses};
ghost use Rattle.page_policies.specs.SecondChance.{clock_misses};
ghost use Rattle.page_policies.specs.Optimal.{optimal_misses};
ghost use Rattle.page_policies.specs.Demand.{NoneMissesLess, IsPlayed};
ghost use Rattle.page_policies.specs.Random.{random_misses};

/// LRU has the inclusion property: at each moment the pages in fewer frames are among those in more, whatever the string.
#[tactic(auto, using(crate::proofs::InclusionLaws::inclusion))]
pub fn fewer_frames_hold_fewer_pages()
    ensures { Inclusion }
{}

/// With more frames LRU never misses more, nor does the optimum, whatever the string.
#[tactic(auto, using(crate::proofs::InclusionLaws::lru_misses_no_more, crate::proofs::MoreFramesLaws::optimum_misses_no_more))]
pub fn more_frames_never_miss_more()
    ensures lru { MissesNoMore 0 lru_misses }
    ensures optimum { MissesNoMore 1 optimal_misses }
{}

/// No way to serve a string that brings each page in when it is used, and no sooner, misses less than the optimum: whichever pages
/// leave, and whenever, as long as each page is there when it is used and no more pages than frames ever are.
#[tactic(auto, using(crate::proofs::DemandLaws::none_misses_less))]
pub fn no_policy_misses_less()
    ensures { NoneMissesLess }
{}

/// The optimum can be reached: what it does is a way to serve the string. FIFO, CLOCK, LRU and random replacement are such ways too, so
/// that the optimum is their floor.
#[tactic(auto, using(crate::proofs::PlayedLaws::optimum_played, crate::proofs::PlayedLaws::fifo_played, crate::proofs::PlayedLaws::lru_played, crate::proofs::SlotPlayLaws::clock_played, crate::proofs::RandomLaws::random_played))]
pub fn optimum_is_a_play()
    ensures optimum { IsPlayed optimal_misses }
    ensures fifo { IsPlayed fifo_misses }
    ensures lru { IsPlayed lru_misses }
    ensures clock { IsPlayed clock_misses }
    ensures random { (seed : ℕ) → IsPlayed (random_misses seed) }
{}
