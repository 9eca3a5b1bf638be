//! Serves an environment call by its number in a7.

ghost use Rattle.std.specs.Prelude.{◌≡◌, Err, IfOk, OnErr};
ghost use Rattle.env_calls.specs.Calls.{call, call_pages, call_stores};
ghost use Rattle.rv_exec.specs.Bounds.{Bounds};
ghost use Rattle.env_calls.specs.Leaving.{LeavesCall};
ghost use Rattle.env_calls.specs.Serving.{Serves, TakesMemory, UsesPages};

use crate::answering::{A0, A7, NO_SUCH_CALL, answer};
use crate::breaking::serve_break;
use crate::calls::Call;
use crate::env::Env;
use crate::harts::{serve_end_hart, serve_spawn};
use crate::served::{ServeStop, Served};
use crate::transfers::{serve_read, serve_write};
use rv_exec::{Bus, Regs};

/// Serves the call that a hart's ECALL at pc makes.
///
/// | a7 | call | what it does |
/// |---|---|---|
/// | 63 | read | copies at most a2 bytes of the input to a1, up to the end of their page; answers how many |
/// | 64 | write | copies at most a2 bytes at a1, up to the end of their page, to the output; answers how many |
/// | 93 | end of hart | ends the hart; the last live one ends the process with the status in a0 |
/// | 94 | end of process | ends the process with the status in a0 |
/// | 124 | yield | lets other harts have their turn; answers 0 |
/// | 214 | break | moves the break up to a0 where that is allowed; answers the break |
/// | 1024 | spawn | starts a hart at pc a0 with sp a1 and a0 a2; answers its number, or -11 where 8 were started |
/// | 1025 | hart number | answers it |
///
/// A read or a write where its page lacks the right answers -14, any other number -38.
#[cold]
#[tactic(auto, unfolding(crate::specs::Calls::answers, crate::specs::Calls::call, crate::specs::Calls::call_pages, crate::specs::Calls::call_stores), using(crate::proofs::LeavingLaws::storing_none))]
pub fn serve<B: Bus>(
    env: &mut Env,
    hart: u32,
    regs: &mut Regs,
    bus: &mut B,
) -> Result<Served, ServeStop>
    ensures served { let effect = call hart regs.old env.old (B.memory bus.old) in
        IfOk result (λ served. Serves effect served regs.new env.new (B.memory bus.new)) }
    ensures regs_stay { OnErr result (regs.new ≡ regs.old) }
    ensures env_stays { OnErr result (env.new ≡ env.old) }
    ensures memory_stays { OnErr result (B.memory bus.new ≡ B.memory bus.old) }

    // Absent only for a page that the call uses and the bus lacks; else the bus had all that it used, and marked them.
    ensures pages { let used = call_pages regs.old (B.memory bus.old) in
        UsesPages (B.has bus.old) (B.marks bus.new) (B.lacks bus.old) used result }
    ensures bound { let memory = B.memory bus.old in
        Bounds (B.within bus.old) (B.within bus.new) (call_pages regs.old memory)
        (call_stores regs.old memory) }

    // Each page that the call stores to takes stores; or the absent one was not at hand when its access came.
    ensures leaves { let stored = call_stores regs.old (B.memory bus.old) in
        LeavesCall (B.takes bus.new) (B.misses bus.old) stored result }

    // Only output and new pages take memory.
    ensures no_memory { result ≡ Err ServeStop.NoMemory →
        TakesMemory env.old (call hart regs.old env.old (B.memory bus.old)) }
    ensures kept { B.keeps bus.old bus.new }
{
    match Call::from_number(regs.x(A7)) {
        Some(Call::Read) => serve_read(env, regs, bus),
        Some(Call::Write) => serve_write(env, regs, bus),
        Some(Call::EndHart) => Ok(serve_end_hart(env, hart, regs)),
        Some(Call::EndProcess) => {
            let status = regs.x(A0);
            regs.set_pc(regs.next_pc());
            Ok(Served::Ended(status))
        }
        Some(Call::Yield) => {
            let _ = answer(regs, 0);
            Ok(Served::Yield)
        }
        Some(Call::Break) => serve_break(env, regs, bus),
        Some(Call::Spawn) => Ok(serve_spawn(env, regs)),
        Some(Call::HartNumber) => Ok(answer(regs, hart)),
        None => Ok(answer(regs, NO_SUCH_CALL)),
    }
}
