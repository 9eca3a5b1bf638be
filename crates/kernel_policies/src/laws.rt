//! Laws of the policies' definitions.

ghost use Rattle.page_policies.specs.Demand.{IsPlayed};
ghost use Rattle.kernel_policies.specs.TwoLists.{two_lists_misses};
ghost use Rattle.kernel_policies.specs.declared.two_lists_parts.TwoListsParts.{TwoListsParts};

/// The two lists are a way to serve a string, whatever is asked of them, so that the optimum is their floor.
#[tactic(auto, using(crate::proofs::TwoListsPlayLaws::two_lists_played))]
pub fn kernel_policies_are_plays()
    ensures two_lists { (parts : TwoListsParts) → IsPlayed (two_lists_misses parts) }
{}
