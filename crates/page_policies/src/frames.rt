//! A number of frames.

ghost use Rattle.std.specs.Prelude.{◌≡◌, ◌≤◌, ◌<◌, ◌↔◌, IfSome, IsSome, IsTrue};
ghost use Rattle.clock_policy.specs.FrameCounts.{least_frames, most_frames};
ghost use Rattle.page_policies.specs.PolicyFrames.{most_policy_frames};

use machine_limits::{FEWEST_FRAMES, MOST_FRAMES};

/// The most frames that a policy may have.
pub const MOST_POLICY_FRAMES: usize = 16_777_216;

/// How many frames a policy has: 1 to 16,777,216.
#[derive(Clone, Copy, Debug, PartialEq, Eq)]
pub struct Frames {
    number: usize,
    ghost least: { 1 ≤ number },
    ghost most: { number ≤ most_policy_frames },
}

impl Frames {
    /// None where there are none, or more than 16,777,216.
    pub fn new(number: usize) -> Option<Frames>
        ensures number { IfSome result (λ frames. frames.number ≡ number) }
        ensures some { IsSome result ↔ ((1 ≤ number) × (number ≤ most_policy_frames)) }
    {
        if !(1..=MOST_POLICY_FRAMES).contains(&number) {
            return None;
        }
        Some(Frames::of(number))
    }

    /// So many, which a policy may have.
    pub fn of(number: usize) -> Frames
        requires least { 1 ≤ number }
        requires most { number ≤ most_policy_frames }
        ensures { result.number ≡ number }
    {
        Frames { number }
    }

    pub fn number(self) -> usize
        ensures number { result ≡ self.number }
        ensures least { 1 ≤ result }
        ensures most { result ≤ most_policy_frames }
    {
        self.number
    }

    /// Whether a machine may have so many, and the list of CLOCK-Pro: 4 to 4096.
    pub fn are_a_machines(self) -> bool
        ensures { IsTrue result ↔ ((least_frames ≤ self.number) × (self.number ≤ most_frames)) }
    {
        (FEWEST_FRAMES as usize..=MOST_FRAMES as usize).contains(&self.number)
    }
}
