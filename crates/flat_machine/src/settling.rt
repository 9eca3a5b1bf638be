//! The harts and the ending of a process after a step: a new hart if it started one, and how it ended.

ghost use Rattle.std.specs.Prelude.{◌≡◌, ◌<◌, length, vec_capacity};
ghost use Rattle.flat_machine.specs.Settling.{harts_after, ending_after, goes_alike, IfSpawns};

use crate::end::End;
use env_calls::Stepped;
use rv_exec::Regs;

/// Makes the harts and the ending of a process those after a hart's step, which left it at this pc.
#[inline]
pub fn settle(harts: &mut Vec<Regs>, end: &mut Option<End>, hart: u32, pc: u32, stepped: Stepped)
    requires room { IfSpawns stepped (length harts.old.items < vec_capacity harts.old) }
    ensures harts { harts.new.items ≡ harts_after stepped harts.old.items }
    ensures room { vec_capacity harts.new ≡ vec_capacity harts.old }
    ensures end { end.new ≡ ending_after hart pc stepped end.old }
{
    match stepped {
        Stepped::Ran => {}
        Stepped::Yielded => {}
        Stepped::HartDone => {}
        Stepped::Spawned {
            hart: _,
            regs: first,
        } => harts.push_reserved(first),
        Stepped::Exited(status) => *end = Some(End::Exited(status)),
        Stepped::Trapped(cause, value) => {
            *end = Some(End::Trapped {
                hart,
                cause,
                pc,
                value,
            });
        }
    }
}

/// Whether a process goes on after a step, with the same harts live.
pub(crate) fn goes_alike(stepped: &Stepped) -> bool
    ensures { result ≡ goes_alike stepped.now }
{
    matches!(stepped, Stepped::Ran | Stepped::Yielded)
}
