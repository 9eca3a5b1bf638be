//! The call that moves the break.
ghost use Rattle.std.specs.Prelude.{◌≡◌, ◌+◌, ◌*◌, ◌^◌, ◌<◌, ◌≤◌, [], true, Err, IfOk, OnErr};
ghost use Rattle.page_memory.specs.MemoryMap.{image_end, most_pages};
ghost use Rattle.rv_exec.specs.Bounds.{Bounds};
ghost use Rattle.rv_exec.specs.Registers.{register};
ghost use Rattle.env_calls.specs.Calls.{move_break, moved_break, pages_to_add, a0};
ghost use Rattle.env_calls.specs.Leaving.{LeavesCall};
ghost use Rattle.env_calls.specs.Serving.{Serves, TakesMemory};

use crate::answering::{A0, answer};
use crate::env::Env;
use crate::served::{ServeStop, Served};
use rv_exec::{Bus, Regs};

/// Serves a request to move the break. The answer is the break after the call.
#[tactic(auto, unfolding(crate::specs::Calls::move_break, crate::specs::Calls::answers), using(crate::proofs::LeavingLaws::storing_none))]
pub fn serve_break<B: Bus>(env: &mut Env, regs: &mut Regs, bus: &mut B) -> Result<Served, ServeStop>
    ensures served { let effect = move_break regs.old env.old (B.memory bus.old)
        (register regs.old a0) in
        IfOk result (λ served. Serves effect served regs.new env.new (B.memory bus.new)) }
    ensures regs_stay { OnErr result (regs.new ≡ regs.old) }
    ensures env_stays { OnErr result (env.new ≡ env.old) }
    ensures memory_stays { OnErr result (B.memory bus.new ≡ B.memory bus.old) }
    ensures stop { OnErr result (result ≡ Err ServeStop.NoMemory) }
    ensures no_memory { let effect = move_break regs.old env.old (B.memory bus.old)
        (register regs.old a0) in
        result ≡ Err ServeStop.NoMemory → TakesMemory env.old effect }
    ensures bound { Bounds (B.within bus.old) (B.within bus.new) [] [] }
    ensures leaves { LeavesCall (B.takes bus.new) (B.misses bus.old) [] result }
    ensures kept { B.keeps bus.old bus.new }
{
    let request = regs.x(A0);
    if env.grants(request) {
        grant_break(env, regs, bus, request)
    } else {
        Ok(answer(regs, env.break_at()))
    }
}

/// Moves the break to a request that is granted.
#[tactic(auto, unfolding(crate::specs::Calls::answers), using(crate::proofs::LeavingLaws::storing_none, page_memory::proofs::ZeroedLaws::gap_counts))]
fn grant_break<B: Bus>(
    env: &mut Env,
    regs: &mut Regs,
    bus: &mut B,
    request: u32,
) -> Result<Served, ServeStop>
    requires above { env.old.break_at < request }
    requires low { request ≤ image_end }
    requires few { env.old.pages + pages_to_add env.old request ≤ most_pages }
    ensures served { let effect = moved_break regs.old env.old (B.memory bus.old) request true in
        IfOk result (λ served. Serves effect served regs.new env.new (B.memory bus.new)) }
    ensures regs_stay { OnErr result (regs.new ≡ regs.old) }
    ensures env_stays { OnErr result (env.new ≡ env.old) }
    ensures memory_stays { OnErr result (B.memory bus.new ≡ B.memory bus.old) }
    ensures stop { OnErr result (result ≡ Err ServeStop.NoMemory) }
    ensures no_memory { let effect = moved_break regs.old env.old (B.memory bus.old) request true in
        result ≡ Err ServeStop.NoMemory → TakesMemory env.old effect }
    ensures bound { Bounds (B.within bus.old) (B.within bus.new) [] [] }
    ensures leaves { LeavesCall (B.takes bus.new) (B.misses bus.old) [] result }
    ensures kept { B.keeps bus.old bus.new }
{
    let added = env.pages_to_add(request);
    bus.map_zeroed(env.break_page(), added)?;
    env.set_break(request, added);
    Ok(answer(regs, request))
}
