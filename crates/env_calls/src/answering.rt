//! How a call answers: the value goes to a0, and pc to the next instruction; and the error values.

ghost use Rattle.std.specs.Prelude.{◌≡◌};
ghost use Rattle.rv_exec.specs.Line.{computed};
ghost use Rattle.env_calls.specs.Calls.{a0};

use crate::served::Served;
use rv_exec::Regs;

/// The numbers of the registers that a call's number, arguments and answer are in.
pub const SP: u8 = 2;

pub const A0: u8 = 10;

pub const A1: u8 = 11;

pub const A2: u8 = 12;

pub const A7: u8 = 17;

/// The answer -11: no more harts can be started.
pub const NO_MORE_HARTS: u32 = 0xFFFF_FFF5;

/// The answer -14: the address is in no page that the call may use.
pub const BAD_ADDRESS: u32 = 0xFFFF_FFF2;

/// The answer -38: there is no such call.
pub const NO_SUCH_CALL: u32 = 0xFFFF_FFDA;

/// Answers a call: a0 gets the answer, and pc goes on.
#[tactic(auto, unfolding(rv_exec::specs::Line::computed))]
pub fn answer(regs: &mut Regs, value: u32) -> Served
    ensures goes_on { result ≡ Served.Continue }
    ensures answered { regs.new ≡ computed regs.old a0 value }
{
    regs.set_pc(regs.next_pc());
    regs.set_x(A0, value);
    Served::Continue
}
