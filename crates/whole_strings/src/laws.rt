//! A law of the optimum.

ghost use Rattle.whole_strings.specs.OptimumInclusion.{OptimumInclusion};

/// The optimum has the inclusion property, so that one stack gives it for every number of frames: at each moment the pages in fewer frames
/// that are used again are among those in more, whatever the string.
#[tactic(auto, using(crate::proofs::OptimumInclusionLaws::optimum_inclusion))]
pub fn optimum_keeps_fewer_in_fewer_frames()
    ensures { OptimumInclusion }
{}
