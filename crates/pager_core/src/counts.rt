//! How many page-ins, victims and questions there were, and how many frames are free.

ghost use Rattle.std.specs.Prelude.{◌≡◌};
ghost use Rattle.pager_core.specs.Pager.{tallied};

/// How often pages came in, were named to leave, and were asked for. Each number stays at its type's largest.
#[derive(Clone, Copy, Debug, PartialEq, Eq)]
pub struct Tallies {
    /// Pages that were admitted.
    pub page_ins: u64,
    /// Pages that an answer named to leave.
    pub victims: u64,
    /// Questions that were answered.
    pub questions: u64,
}

/// The tallies, and how many frames are free.
#[derive(Clone, Copy, Debug, PartialEq, Eq)]
pub struct Counts {
    pub free: usize,
    pub tallies: Tallies,
}

/// A tally and one more, which stays at its type's largest number.
#[tactic(auto, unfolding(crate::specs::Pager::tallied))]
pub fn tally(count: u64) -> u64
    ensures { result ≡ tallied count }
{
    count.saturating_add(1)
}
