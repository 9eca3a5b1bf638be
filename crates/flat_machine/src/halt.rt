//! Where the inner loop of a hart stopped.

ghost use Rattle.std.specs.Prelude.{◌≡◌};

use rv_exec::{Cause, Outcome};

/// Where a hart's instructions stopped. Its count is as wide as its loop needs: a wider one costs the loop machine instructions.
#[derive(Clone, Copy)]
pub struct Halt<N> {
    /// How many of those that were allowed are left: the loop counts these.
    pub left: N,
    /// What the next one came to, where some are left: it is still to be ended.
    pub last: Outcome,
}

/// Those before the last one are made out of the loop's way, of what an outcome is made of.
impl<N: Copy> Halt<N> {
    /// The next instruction calls.
    #[cold]
    #[inline(never)]
    pub fn at_call(left: N) -> Self
        ensures { result ≡ record { left = left; last = Outcome.Ecall } }
    {
        Halt {
            left,
            last: Outcome::Ecall,
        }
    }

    /// The next word is outside the table.
    #[cold]
    #[inline(never)]
    pub fn at_illegal(left: N, word: u32) -> Self
        ensures { result ≡
            record { left = left; last = Outcome.Trap Cause.IllegalInstruction word } }
    {
        Halt {
            left,
            last: Outcome::Trap(Cause::IllegalInstruction, word),
        }
    }

    /// The next instruction traps.
    #[cold]
    #[inline(never)]
    pub fn at_trap(left: N, cause: Cause, value: u32) -> Self
        ensures { result ≡ record { left = left; last = Outcome.Trap cause value } }
    {
        Halt {
            left,
            last: Outcome::Trap(cause, value),
        }
    }

    /// The next instruction uses a page that is absent.
    #[cold]
    #[inline(never)]
    pub fn at_absent(left: N, page: u32) -> Self
        ensures { result ≡ record { left = left; last = Outcome.Absent page } }
    {
        Halt {
            left,
            last: Outcome::Absent(page),
        }
    }

    /// All that were allowed are done: none is left.
    #[inline(always)]
    pub fn after_all(none: N) -> Self
        ensures { result ≡ record { left = none; last = Outcome.Done } }
    {
        Halt {
            left: none,
            last: Outcome::Done,
        }
    }
}
