//! Answers in a row.

ghost use Rattle.std.specs.Prelude.{◌≡◌, ◌≤◌, ◌*◌, length, IsNone, IsSome, IfSome, IfNone};
ghost use Rattle.clock_policy.specs.ClockPro.{ClockState};
ghost use Rattle.clock_policy.specs.Bound.{NothingResident, run_state, run_victim};

use crate::answer::{Bit, Verdict};
use crate::clock::Clock;
use crate::key::Key;

/// Answers the questions by the bits in turn, until one names a victim or nothing is resident.
///
/// Five bits a frame are enough, whatever they are.
pub fn first_victim<C: Clock>(clock: &mut C, bits: &[Bit]) -> Option<Key>
    ensures moved { C.state clock.new ≡ run_state bits.now (C.state clock.old) }
    ensures victim { result ≡ run_victim bits.now (C.state clock.old) }
    ensures bound { 5 * (C.state clock.old).frames ≤ length bits.now → IsNone result →
        NothingResident (C.state clock.new) }
{
    // For the proof alone: a read tells that what is read is lawful.
    let _ = clock.question();
    for bit in bits {
        match clock.answer(*bit) {
            Ok(Verdict::GoOn) => {}
            Ok(Verdict::Victim(key)) => return Some(key),
            Err(_) => return None,
        }
    }
    None
}
