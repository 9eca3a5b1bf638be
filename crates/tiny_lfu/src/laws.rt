//! Laws of the policy's definition.

ghost use Rattle.std.specs.Prelude.{◌≤◌};
ghost use Rattle.page_policies.specs.Demand.{IsPlayed};
ghost use Rattle.tiny_lfu.specs.WTinyLfu.{w_tiny_lfu_misses};
ghost use Rattle.tiny_lfu.specs.declared.shares.TinyLfuShares.{TinyLfuShares};

/// W-TinyLFU is a way to serve a string, however it divides its frames, so that the optimum is its floor.
#[tactic(auto, using(crate::proofs::WTinyLfuPlayLaws::w_tiny_lfu_played))]
pub fn w_tiny_lfu_is_a_play()
    ensures { (shares : TinyLfuShares) → shares.window ≤ 100 → IsPlayed (w_tiny_lfu_misses
        shares) }
{}
