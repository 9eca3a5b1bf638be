//! Laws of the policies' definitions.

ghost use Rattle.std.specs.Prelude.{◌<◌, ◌≤◌};
ghost use Rattle.clock_policy.specs.FrameCounts.{least_frames, most_frames};
ghost use Rattle.page_policies.specs.Demand.{IsPlayed, IsPlayedWithin};
ghost use Rattle.younger_policies.specs.ClockProPlay.{clock_pro_misses, clock_pro_used_misses};
ghost use Rattle.younger_policies.specs.TwoQueues.{two_queues_misses};
ghost use Rattle.younger_policies.specs.declared.two_queue_shares.TwoQueueShares.{TwoQueueShares};
ghost use Rattle.younger_policies.specs.Lirs.{lirs_misses};
ghost use Rattle.younger_policies.specs.declared.lirs_shares.LirsShares.{LirsShares};
ghost use Rattle.younger_policies.specs.declared.s3_fifo_shares.S3FifoShares.{S3FifoShares};
ghost use Rattle.younger_policies.specs.Arc.{arc_misses};
ghost use Rattle.younger_policies.specs.Sieve.{sieve_misses};
ghost use Rattle.younger_policies.specs.S3Fifo.{s3_fifo_misses};

/// 2Q, LIRS, ARC, SIEVE and S3-FIFO are ways to serve a string, however they divide their frames, so that the optimum is their floor.
#[tactic(auto, using(crate::proofs::TwoQueuePlayLaws::two_queues_played, crate::proofs::LirsPlayLaws::lirs_played, crate::proofs::ArcPlayLaws::arc_played, crate::proofs::SievePlayLaws::sieve_played, crate::proofs::S3FifoPlayLaws::s3_fifo_played))]
pub fn younger_policies_are_plays()
    ensures two_queues { (shares : TwoQueueShares) → shares.kin < 100 → IsPlayed
        (two_queues_misses shares) }
    ensures lirs { (shares : LirsShares) → 1 ≤ shares.floor → IsPlayed (lirs_misses shares) }
    ensures arc { IsPlayed arc_misses }
    ensures sieve { IsPlayed sieve_misses }
    ensures s3_fifo { (shares : S3FifoShares) → 1 ≤ shares.small → shares.small ≤ 100 →
        IsPlayed (s3_fifo_misses shares) }
{}

/// CLOCK-Pro is a way to serve a string too, with 4 to 4096 frames, so that the optimum is its floor. In particular five answers a
/// frame always make room.
#[tactic(auto, using(crate::proofs::ClockPlayLaws::clock_pro_played, crate::proofs::ClockPlayLaws::clock_pro_used_played))]
pub fn clock_pro_is_a_play()
    ensures published { IsPlayedWithin least_frames most_frames clock_pro_misses }
    ensures used { IsPlayedWithin least_frames most_frames clock_pro_used_misses }
{}
