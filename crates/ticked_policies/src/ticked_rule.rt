//! What ticks do, and which page leaves.

ghost use Rattle.std.specs.Prelude.{◌≡◌, ◌<◌, ◌^◌};
ghost use Rattle.ticked_policies.specs.Ticked.{aged, class_of, rank_of, ticked, top_bit};

use crate::marks::Marks;

/// A policy that goes by the clock's ticks.
#[derive(Clone, Copy, Debug, PartialEq, Eq)]
pub enum TickedRule {
    NotRecentlyUsed,
    /// By counters of so many bits, 1 to 32.
    Aging(u32),
}

/// The leftmost bit of a counter that has so many.
fn top_bit(bits: u32) -> u64
    ensures bit { result ≡ top_bit bits }
    ensures small { result < 2 ^ 32 }
{
    1u64 << bits.saturating_sub(1).min(31)
}

/// 0 to 3: not used and not changed, changed, used, used and changed.
fn class_of(marks: Marks) -> u64
    ensures { result ≡ class_of marks }
{
    match (marks.used, marks.changed) {
        (false, false) => 0,
        (false, true) => 1,
        (true, false) => 2,
        (true, true) => 3,
    }
}

/// The counter after a tick.
fn aged(marks: Marks, bits: u32) -> u64
    ensures { result ≡ aged bits marks }
{
    if marks.used {
        marks.number / 2 + top_bit(bits)
    } else {
        marks.number / 2
    }
}

impl TickedRule {
    /// The page leaves whose rank is least.
    pub(crate) fn rank_of(self, marks: Marks) -> u64
        ensures { result ≡ rank_of self marks }
    {
        match self {
            TickedRule::NotRecentlyUsed => class_of(marks),
            TickedRule::Aging(_) => marks.number,
        }
    }

    /// The marks after a tick.
    pub(crate) fn ticked(self, marks: Marks) -> Marks
        ensures { result ≡ ticked self marks }
    {
        let number = match self {
            TickedRule::NotRecentlyUsed => marks.number,
            TickedRule::Aging(bits) => aged(marks, bits),
        };
        Marks {
            used: false,
            changed: marks.changed,
            number,
        }
    }
}
