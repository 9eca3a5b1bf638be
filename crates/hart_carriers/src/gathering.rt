//! Gives up a pager at the end of a run, and reports whether each of its frames is there.

ghost use Rattle.std.specs.Prelude.{◌≡◌, ◌+◌, ◌≤◌, true};

use clock_policy::Clock;
use machine_sides::PagerSide;
use std::sync::ledger::{Ledger, Share};

/// Gives up a pager and its frames. Answers whether each frame that it was made with was there, and the share that they make.
pub fn gather_frames<L: Ledger, C: Clock>(pager: PagerSide<L, C>) -> (bool, Share<L>)
    ensures whole { result.0 ≡ true → result.1.parts ≡ pager.pager.size + 1 }
    ensures within { result.1.parts ≤ L.parts }
{
    let whole = pager.counts().pager.free == pager.size() as usize;
    let mut share = pager.give_up();
    // For the proof only: a share into which another is merged is within the ledger's parts.
    let none = share.empty();
    share.merge(none);
    (whole, share)
}
