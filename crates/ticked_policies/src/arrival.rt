//! Second chance.

ghost use Rattle.std.specs.Prelude.{◌≡◌, List, IfOk};
ghost use Rattle.clock_policy.specs.declared.key.Key.{Key};
ghost use Rattle.ticked_policies.specs.SecondChance.{one_bit, second_chance_misses};

use page_policies::{Frames, Policy};
use std::alloc::{AllocError, Global};
use textbook_policies::{GClock, GClockCounts};

/// Whether a page comes in as used.
#[derive(Clone, Copy, Debug, PartialEq, Eq)]
pub enum Arrival {
    Marked,
    Clear,
}

impl Arrival {
    /// One bit for each page.
    fn counts(self) -> GClockCounts
        ensures { result ≡ one_bit self }
    {
        match self {
            Arrival::Marked => GClockCounts { most: 1, first: 1 },
            Arrival::Clear => GClockCounts { most: 1, first: 0 },
        }
    }
}

/// Second chance with its frames empty.
pub fn second_chance(alloc: Global, frames: Frames, arrival: Arrival) -> Result<GClock, AllocError>
    ensures { IfOk result (λ policy. (string : List Key) → ⟦<GClock as Policy>⟧.to_miss policy
        string ≡ second_chance_misses arrival frames.number string) }
{
    GClock::with_counts(alloc, frames, arrival.counts())
}
