//! What WSClock's hand does at a page.

ghost use Rattle.std.specs.Prelude.{◌≡◌};
ghost use Rattle.ticked_policies.specs.WsClock.{ends_as, finds, seen, step_at};

use crate::marks::Marks;

/// What the hand does at a page, and what a turn has come to.
#[derive(Clone, Copy, Debug, PartialEq, Eq)]
pub enum HandStep {
    /// It passes the page.
    Passes,
    /// It has the page written, and passes it.
    Writes,
    /// The page leaves.
    Finds,
}

impl HandStep {
    /// Whether the page leaves.
    pub(crate) fn finds(self) -> bool
        ensures { result ≡ finds self }
    {
        match self {
            HandStep::Finds => true,
            HandStep::Passes => false,
            HandStep::Writes => false,
        }
    }

    /// What a turn has come to that came to so much before.
    pub(crate) fn after(self, so_far: HandStep) -> HandStep
        ensures { result ≡ ends_as self so_far }
    {
        match self {
            HandStep::Passes => so_far,
            HandStep::Writes => HandStep::Writes,
            HandStep::Finds => HandStep::Finds,
        }
    }
}

/// What the hand does at a page with these marks.
pub(crate) fn step_at(tau: u64, now: u64, marks: Marks) -> HandStep
    ensures { result ≡ step_at tau now marks }
{
    if marks.used {
        return HandStep::Passes;
    }
    if now.saturating_sub(marks.number) <= tau {
        return HandStep::Passes;
    }
    if marks.changed {
        return HandStep::Writes;
    }
    HandStep::Finds
}

/// The marks of a page that the hand has passed.
pub(crate) fn seen(tau: u64, now: u64, marks: Marks) -> Marks
    ensures { result ≡ seen tau now marks }
{
    if marks.used {
        return Marks {
            used: false,
            changed: marks.changed,
            number: now,
        };
    }
    if now.saturating_sub(marks.number) <= tau {
        return marks;
    }
    Marks {
        used: false,
        changed: false,
        number: marks.number,
    }
}
