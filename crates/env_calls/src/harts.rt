//! Calls that start harts and end them.
ghost use Rattle.std.specs.Prelude.{◌≡◌};
ghost use Rattle.page_memory.specs.Memory.{Memory};
ghost use Rattle.rv_exec.specs.Registers.{register, with_register};
ghost use Rattle.env_calls.specs.Calls.{end_hart, spawn, new_hart};
ghost use Rattle.env_calls.specs.Serving.{Serves};

use crate::answering::{A0, A1, A2, NO_MORE_HARTS, SP, answer};
use crate::env::Env;
use crate::served::Served;
use machine_limits::MOST_HARTS;
use rv_exec::Regs;

/// Serves the end of a hart: the last live one ends its process.
#[tactic(auto, unfolding(crate::specs::Calls::end_hart))]
pub fn serve_end_hart(env: &mut Env, hart: u32, regs: &mut Regs) -> Served
    ensures served { (memory : Memory) →
        Serves (end_hart hart regs.old env.old memory) result regs.new env.new memory }
{
    let status = regs.x(A0);
    regs.set_pc(regs.next_pc());
    if env.end_hart(hart) {
        Served::HartDone
    } else {
        Served::Ended(status)
    }
}

/// Serves a spawn.
#[tactic(auto, unfolding(crate::specs::Calls::spawn, crate::specs::Calls::answers))]
pub fn serve_spawn(env: &mut Env, regs: &mut Regs) -> Served
    ensures served { (memory : Memory) → Serves (spawn regs.old env.old memory) result regs.new
        env.new memory }
{
    let started = env.marks().len();
    if started < MOST_HARTS {
        let hart = started as u32;
        let first = first_registers(regs);
        env.start_hart();
        let _ = answer(regs, hart);
        Served::Spawned { hart, regs: first }
    } else {
        answer(regs, NO_MORE_HARTS)
    }
}

/// What a new hart begins with.
#[tactic(auto, unfolding(crate::specs::Calls::new_hart))]
fn first_registers(regs: &Regs) -> Regs
    ensures { result ≡ new_hart regs.now }
{
    let mut first = Regs::new(regs.x(A0));
    first.set_x(SP, regs.x(A1));
    first.set_x(A0, regs.x(A2));
    first
}
