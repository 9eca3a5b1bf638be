//! Reading the input and writing the output: bytes of one page at once.
ghost use Rattle.std.specs.Prelude.{◌≡◌, ◌≢◌, ◌+◌, ◌<◌, ◌≤◌, Err, IfOk, OnErr, [], length, take};
ghost use Rattle.page_memory.specs.Words.{page_offset};
ghost use Rattle.page_memory.specs.Pages.{usable};
ghost use Rattle.page_memory.specs.Memory.{copied_out, copied_in};
ghost use Rattle.page_memory.specs.declared.words.Access.{Access};
ghost use Rattle.rv_exec.specs.Registers.{register};
ghost use Rattle.rv_exec.specs.Bounds.{Bounds};
ghost use Rattle.rv_exec.specs.Uses.{page_of_access};
ghost use Rattle.env_calls.specs.Calls.{read, did_read, read_pages, count_to_read, write, wrote};
ghost use Rattle.env_calls.specs.Calls.{write_pages, count_in_page, a1, a2};
ghost use Rattle.env_calls.specs.Leaving.{LeavesCall};
ghost use Rattle.env_calls.specs.Serving.{Serves, TakesMemory, UsesPages};

use crate::answering::{A1, A2, BAD_ADDRESS, answer};
use crate::env::Env;
use crate::served::{ServeStop, Served};
use page_memory::{PAGE_SIZE, offset_in_page};
use rv_exec::{Bus, BusError, Regs};

/// How many of so many bytes at an address lie in its page.
#[tactic(auto, unfolding(crate::specs::Calls::count_in_page))]
fn count_in_page(address: u32, length: u32) -> u32
    ensures count { result ≡ count_in_page address length }
    ensures within { page_offset address + result ≤ 4096 }
    ensures some { 0 < length → 0 < result }
{
    length.min((PAGE_SIZE - offset_in_page(address)) as u32)
}

/// And how many of them are left of the input.
#[tactic(auto, unfolding(crate::specs::Calls::count_to_read))]
fn count_to_read(env: &Env, address: u32, wanted: u32) -> usize
    ensures count { result ≡ count_to_read env.now address wanted }
    ensures within { page_offset address + result ≤ 4096 }
    ensures left { result ≤ length env.now.input }
{
    env.input()
        .len()
        .min(count_in_page(address, wanted) as usize)
}

/// Serves a read.
#[tactic(auto, unfolding(crate::specs::Calls::answers, crate::specs::Calls::read, crate::specs::Calls::read_pages), using(crate::proofs::LeavingLaws::storing_none))]
pub fn serve_read<B: Bus>(env: &mut Env, regs: &mut Regs, bus: &mut B) -> Result<Served, ServeStop>
    ensures served { let memory = B.memory bus.old in
        let effect = read regs.old env.old memory (register regs.old a1) (register regs.old a2) in
        IfOk result (λ served. Serves effect served regs.new env.new (B.memory bus.new)) }
    ensures regs_stay { OnErr result (regs.new ≡ regs.old) }
    ensures env_stays { OnErr result (env.new ≡ env.old) }
    ensures memory_stays { OnErr result (B.memory bus.new ≡ B.memory bus.old) }
    ensures pages { let used = read_pages (B.memory bus.old) (register regs.old a1)
        (register regs.old a2) in
        UsesPages (B.has bus.old) (B.marks bus.new) (B.lacks bus.old) used result }
    ensures bound { let used = read_pages (B.memory bus.old) (register regs.old a1)
        (register regs.old a2) in
        Bounds (B.within bus.old) (B.within bus.new) used used }
    ensures no_memory { result ≢ Err ServeStop.NoMemory }
    ensures leaves { let stored = read_pages (B.memory bus.old) (register regs.old a1)
        (register regs.old a2) in
        LeavesCall (B.takes bus.new) (B.misses bus.old) stored result }
    ensures kept { B.keeps bus.old bus.new }
{
    let address = regs.x(A1);
    let length = regs.x(A2);
    if length == 0 {
        Ok(answer(regs, 0))
    } else {
        let count = count_to_read(env, address, length);
        read_in_page(env, regs, bus, address, count)
    }
}

/// Copies so many of the next bytes of the input into one page, and answers their number.
#[tactic(auto, unfolding(crate::specs::Calls::answers), using(crate::proofs::CallLaws::reading, crate::proofs::CallLaws::read_bound, crate::proofs::LeavingLaws::read_takes))]
fn read_in_page<B: Bus>(
    env: &mut Env,
    regs: &mut Regs,
    bus: &mut B,
    address: u32,
    count: usize,
) -> Result<Served, ServeStop>
    requires within { page_offset address + count ≤ 4096 }
    requires left { count ≤ length env.old.input }
    ensures served { let after = copied_in (B.memory bus.old) address (take count env.old.input) in
        let effect = did_read regs.old env.old (B.memory bus.old) count after in
        IfOk result (λ served. Serves effect served regs.new env.new (B.memory bus.new)) }
    ensures regs_stay { OnErr result (regs.new ≡ regs.old) }
    ensures env_stays { OnErr result (env.new ≡ env.old) }
    ensures memory_stays { OnErr result (B.memory bus.new ≡ B.memory bus.old) }
    ensures pages { let used = page_of_access address
        (usable (B.memory bus.old).pages Access.Store address) in
        UsesPages (B.has bus.old) (B.marks bus.new) (B.lacks bus.old) used result }
    ensures bound { let used = page_of_access address
        (usable (B.memory bus.old).pages Access.Store address) in
        Bounds (B.within bus.old) (B.within bus.new) used used }
    ensures no_memory { result ≢ Err ServeStop.NoMemory }
    ensures leaves { let stored = page_of_access address
        (usable (B.memory bus.old).pages Access.Store address) in
        LeavesCall (B.takes bus.new) (B.misses bus.old) stored result }
    ensures kept { B.keeps bus.old bus.new }
{
    match bus.copy_in(address, &env.input()[..count]) {
        Ok(()) => {
            env.skip(count);
            Ok(answer(regs, count as u32))
        }
        Err(BusError::Fault(_)) => Ok(answer(regs, BAD_ADDRESS)),
        Err(BusError::Absent(page)) => Err(ServeStop::Absent(page)),
    }
}

/// Serves a write.
#[tactic(auto, unfolding(crate::specs::Calls::answers, crate::specs::Calls::write, crate::specs::Calls::write_pages), using(crate::proofs::LeavingLaws::storing_none))]
pub fn serve_write<B: Bus>(env: &mut Env, regs: &mut Regs, bus: &mut B) -> Result<Served, ServeStop>
    ensures served { let memory = B.memory bus.old in
        let effect = write regs.old env.old memory (register regs.old a1) (register regs.old a2) in
        IfOk result (λ served. Serves effect served regs.new env.new (B.memory bus.new)) }
    ensures regs_stay { OnErr result (regs.new ≡ regs.old) }
    ensures env_stays { OnErr result (env.new ≡ env.old) }
    ensures memory_stays { OnErr result (B.memory bus.new ≡ B.memory bus.old) }
    ensures pages { let used = write_pages (B.memory bus.old) (register regs.old a1)
        (register regs.old a2) in
        UsesPages (B.has bus.old) (B.marks bus.new) (B.lacks bus.old) used result }
    ensures bound { let used = write_pages (B.memory bus.old) (register regs.old a1)
        (register regs.old a2) in
        Bounds (B.within bus.old) (B.within bus.new) used [] }
    ensures no_memory { let memory = B.memory bus.old in
        let effect = write regs.old env.old memory (register regs.old a1) (register regs.old a2) in
        result ≡ Err ServeStop.NoMemory → TakesMemory env.old effect }
    ensures leaves { LeavesCall (B.takes bus.new) (B.misses bus.old) [] result }
    ensures kept { B.keeps bus.old bus.new }
{
    let address = regs.x(A1);
    let length = regs.x(A2);
    if length == 0 {
        Ok(answer(regs, 0))
    } else {
        write_in_page(env, regs, bus, address, count_in_page(address, length))
    }
}

/// Writes so many bytes of one page to the output, and answers their number.
#[tactic(auto, unfolding(crate::specs::Calls::answers), using(crate::proofs::CallLaws::writing, crate::proofs::LeavingLaws::storing_none))]
fn write_in_page<B: Bus>(
    env: &mut Env,
    regs: &mut Regs,
    bus: &mut B,
    address: u32,
    count: u32,
) -> Result<Served, ServeStop>
    requires within { page_offset address + count ≤ 4096 }
    requires some { 0 < count }
    ensures served { let bytes = copied_out (B.memory bus.old) address count in
        let effect = wrote regs.old env.old (B.memory bus.old) count bytes in
        IfOk result (λ served. Serves effect served regs.new env.new (B.memory bus.new)) }
    ensures regs_stay { OnErr result (regs.new ≡ regs.old) }
    ensures env_stays { OnErr result (env.new ≡ env.old) }
    ensures memory_stays { OnErr result (B.memory bus.new ≡ B.memory bus.old) }
    ensures pages { let used = page_of_access address (copied_out (B.memory bus.old) address count)
        in
        UsesPages (B.has bus.old) (B.marks bus.new) (B.lacks bus.old) used result }
    ensures bound { let used = page_of_access address (copied_out (B.memory bus.old) address count)
        in
        Bounds (B.within bus.old) (B.within bus.new) used [] }
    ensures no_memory { let bytes = copied_out (B.memory bus.old) address count in
        let effect = wrote regs.old env.old (B.memory bus.old) count bytes in
        result ≡ Err ServeStop.NoMemory → TakesMemory env.old effect }
    ensures leaves { LeavesCall (B.takes bus.new) (B.misses bus.old) [] result }
    ensures kept { B.keeps bus.old bus.new }
{
    let mut page = [0; PAGE_SIZE];
    let bytes = &mut page[..count as usize];
    match bus.copy_out(address, bytes) {
        Ok(()) => {
            env.write(bytes)?;
            Ok(answer(regs, count))
        }
        Err(BusError::Fault(_)) => Ok(answer(regs, BAD_ADDRESS)),
        Err(BusError::Absent(page)) => Err(ServeStop::Absent(page)),
    }
}
