//! The inner loop of a hart: its instructions one after another, on its process's memory.

ghost use Rattle.std.specs.Prelude.{◌≡◌, ◌≤◌, ◌<◌, ◌-◌, true, length};
ghost use Rattle.rv_exec.specs.Registers.{with_pc};
ghost use Rattle.flat_machine.specs.Process.{may_step};
ghost use Rattle.paged_memory.specs.Paged.{memory_of};
ghost use Rattle.paged_memory.specs.access.Using.{cache_in};
ghost use Rattle.paged_memory.specs.Whole.{harts_in};
ghost use Rattle.decoded_pages.specs.Code.{ShowsAll};
ghost use Rattle.space_core.specs.HartLoop.{RunsTo, RunsEach, RunsUntil, HartRuns};
ghost use Rattle.space_core.specs.RunningValue.{with_memory};

use crate::running::Running;
use decoded_pages::{DecodedPages, Ran, RunEnd, run_decoded};
use flat_machine::Halt;
use paged_memory::{HartMemory, Opening, PagedMemory};
use rv_exec::{Cause, Outcome, Regs, execute_at};
use std::marker::Brand;
use std::sync::ledger::Ledger;
use swap_slots::SwapSlot;

/// For fewer instructions no run of decoded ones is begun: it takes longer than their words.
const FEWEST: u32 = 8;

/// How many instructions are run by their words where the next one is in no decoded page.
const UNDECODED: u32 = 256;

/// How far a hart came by its instructions.
#[derive(Clone, Copy)]
pub(crate) struct Course {
    /// How many were done.
    pub done: u32,
    /// What the next one came to, where fewer were done than were allowed: that one is still to be ended.
    pub last: Outcome,
}

/// Runs a hart's next instruction, where pc is at hand. What it came to is marked since it began: so it has a brand of its own.
#[inline(always)]
fn run_one<L: Ledger, S: SwapSlot, O: Opening>(
    pc: &mut u32,
    regs: &mut Regs,
    memory: &mut PagedMemory<L, S>,
    hart: u32,
) -> Outcome
    requires started { hart < harts_in memory.old }
    requires opening { cache_in memory.old hart ≡ O.opening }
    ensures ran { RunsTo S.content S.honest hart result (with_pc regs.old pc.old) memory.old
        (with_pc regs.new pc.new) memory.new }
{
    let mut bus: HartMemory<L, S, O> = HartMemory::new(memory, hart as usize);
    let outcome = execute_at(hart, pc, regs, &mut bus);
    memory.coherent();
    outcome
}

/// Runs a hart's next instructions one by one, up to so many, until one calls, traps or uses a page that is absent.
#[inline(always)]
fn run_each<L: Ledger, S: SwapSlot>(
    regs: &mut Regs,
    memory: &mut PagedMemory<L, S>,
    decoded: &DecodedPages,
    hart: u32,
    most: u32,
) -> Halt<u32>
    requires started { hart < harts_in memory.old }
    requires shows { ShowsAll decoded.now (memory_of S.content memory.old) }
    ensures within { result.left ≤ most }
    ensures ran { RunsUntil S.content S.honest hart most (most - result.left) result.last regs.old
        memory.old regs.new memory.new }
    ensures harts { harts_in memory.new ≡ harts_in memory.old }
{
    if most < FEWEST {
        run_words(regs, memory, hart, most)
    } else {
        run_many(regs, memory, decoded, hart, most)
    }
}

/// The same by decoded instructions, as far as they go, and by words in between.
#[inline(never)]
fn run_many<L: Ledger, S: SwapSlot>(
    regs: &mut Regs,
    memory: &mut PagedMemory<L, S>,
    decoded: &DecodedPages,
    hart: u32,
    most: u32,
) -> Halt<u32>
    requires started { hart < harts_in memory.old }
    requires shows { ShowsAll decoded.now (memory_of S.content memory.old) }
    ensures within { result.left ≤ most }
    ensures ran { RunsUntil S.content S.honest hart most (most - result.left) result.last regs.old
        memory.old regs.new memory.new }
    ensures harts { harts_in memory.new ≡ harts_in memory.old }
{
    let mut left = most;
    while left != 0 {
        let part = run_part(regs, memory, decoded, hart, left);
        let words = by_words(part);
        let halt = run_words(regs, memory, hart, words);
        left = part.left - words + halt.left;
        if halt.left != 0 {
            return Halt {
                left,
                last: halt.last,
            };
        }
    }
    Halt::after_all(left)
}

/// Runs decoded instructions, up to so many, as long as all that they use is at hand.
#[inline(never)]
fn run_part<L: Ledger, S: SwapSlot>(
    regs: &mut Regs,
    memory: &mut PagedMemory<L, S>,
    decoded: &DecodedPages,
    hart: u32,
    most: u32,
) -> Ran
    requires started { hart < harts_in memory.old }
    requires shows { ShowsAll decoded.now (memory_of S.content memory.old) }
    ensures within { result.left ≤ most }
    ensures each { RunsEach S.content S.honest hart (most - result.left) regs.old memory.old
        regs.new memory.new }
{
    memory.coherent();
    let ran = run_decoded(hart, regs, memory, decoded, regs.pc(), most);
    regs.set_pc(ran.pc);
    ran
}

/// How many instructions follow a run by their words.
fn by_words(ran: Ran) -> u32
    ensures within { result ≤ ran.left }
    ensures some { 0 < ran.left → 0 < result }
{
    if ran.left < FEWEST {
        return ran.left;
    }
    match ran.end {
        RunEnd::Page | RunEnd::Word | RunEnd::NotAtHand => 1,
        RunEnd::NoPage if ran.left < UNDECODED => ran.left,
        RunEnd::NoPage => UNDECODED,
    }
}

/// The same by their words.
#[inline(never)]
fn run_words<L: Ledger, S: SwapSlot>(
    regs: &mut Regs,
    memory: &mut PagedMemory<L, S>,
    hart: u32,
    most: u32,
) -> Halt<u32>
    requires started { hart < harts_in memory.old }
    ensures within { result.left ≤ most }
    ensures ran { RunsUntil S.content S.honest hart most (most - result.left) result.last regs.old
        memory.old regs.new memory.new }
    ensures harts { harts_in memory.new ≡ harts_in memory.old }
{
    let mut pc = regs.pc();
    let halt = run_at_hand(&mut pc, regs, memory, hart, most);
    regs.set_pc(pc);
    halt
}

/// The same where pc is at hand.
#[inline(always)]
fn run_at_hand<L: Ledger, S: SwapSlot>(
    pc: &mut u32,
    regs: &mut Regs,
    memory: &mut PagedMemory<L, S>,
    hart: u32,
    most: u32,
) -> Halt<u32>
    requires started { hart < harts_in memory.old }
    ensures within { result.left ≤ most }
    ensures ran { RunsUntil S.content S.honest hart most (most - result.left) result.last
        (with_pc regs.old pc.old) memory.old (with_pc regs.new pc.new) memory.new }
    ensures harts { harts_in memory.new ≡ harts_in memory.old }
{
    let mut left = most;
    while left != 0 {
        match run_one::<L, S, Brand>(pc, regs, memory, hart) {
            Outcome::Done => left -= 1,
            Outcome::Ecall => return Halt::at_call(left),
            Outcome::Trap(Cause::IllegalInstruction, word) => return Halt::at_illegal(left, word),
            Outcome::Trap(cause, value) => return Halt::at_trap(left, cause, value),
            Outcome::Absent(page) => return Halt::at_absent(left, page),
        }
    }
    Halt::after_all(left)
}

impl Running {
    /// The same of a hart that may step.
    pub(crate) fn run_each<L: Ledger, S: SwapSlot>(
        &mut self,
        hart: u32,
        memory: &mut PagedMemory<L, S>,
        decoded: &DecodedPages,
        most: u32,
    ) -> Course
        requires may { may_step hart (with_memory self.old (memory_of S.content memory.old)) ≡
            true }
        requires cached { harts_in memory.old ≡ length self.old.harts }
        requires shows { ShowsAll decoded.now (memory_of S.content memory.old) }
        ensures within { result.done ≤ most }
        ensures ran { HartRuns hart (λ regs regs'.
            RunsUntil S.content S.honest hart most result.done result.last regs memory.old regs'
            memory.new) self.old self.new }
        ensures harts { harts_in memory.new ≡ harts_in memory.old }
    {
        let regs = &mut self.harts[hart as usize];
        let halt = run_each(regs, memory, decoded, hart, most);
        Course {
            done: most - halt.left,
            last: halt.last,
        }
    }
}
