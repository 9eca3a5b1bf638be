//! The inner loop of the machine: decoded instructions, and what is not decoded by its words.
ghost use Rattle.std.specs.Prelude.{◌≡◌, ◌<◌, ◌≤◌, ◌-◌, Some};
ghost use Rattle.page_memory.specs.Memory.{Memory};
ghost use Rattle.rv_exec.specs.Registers.{with_pc};
ghost use Rattle.rv_exec.specs.Line.{line};
ghost use Rattle.decoded_pages.specs.Code.{ShowsAll};
ghost use Rattle.decoded_pages.specs.Running.{Iterates, Steps};
ghost use Rattle.flat_machine.specs.PlainRun.{plain_run, StopsAs};

use crate::halt::Halt;
use decoded_pages::{DecodedPages, Ran, RunEnd, run_decoded};
use page_memory::FlatMemory;
use rv_exec::{Cause, Outcome, Regs, execute_at};

/// For fewer instructions no run of decoded ones is begun: it takes longer than their words.
const FEWEST: u64 = 8;

/// Most instructions of one run of decoded ones.
const MOST: u32 = 0x4000_0000;

/// How many instructions are run by their words where the next one is in no decoded page.
const UNDECODED: u64 = 256;

/// Runs the next instructions of a hart, given by number, up to so many, until one calls or traps. Reports where they stopped.
/// The one that calls or traps has changed nothing.
#[inline(always)]
pub(crate) fn run_plainly(
    hart: u32,
    regs: &mut Regs,
    memory: &mut FlatMemory,
    decoded: &DecodedPages,
    most: u64,
) -> Halt<u64>
    requires shows { ShowsAll decoded.now memory.old }
    ensures ran { plain_run hart (most - result.left) regs.old memory.old ≡
        Some (regs.new, memory.new) }
    ensures within { result.left ≤ most }
    ensures stopped { 0 < result.left → StopsAs result.last (line hart regs.new memory.new) }
{
    if most < FEWEST {
        run_words(hart, regs, memory, most)
    } else {
        run_many(hart, regs, memory, decoded, most)
    }
}

/// The same by their words.
#[inline(never)]
#[tactic(auto, using(rv_exec::proofs::RegistersLaws::own_pc))]
fn run_words(hart: u32, regs: &mut Regs, memory: &mut FlatMemory, most: u64) -> Halt<u64>
    ensures ran { plain_run hart (most - result.left) regs.old memory.old ≡
        Some (regs.new, memory.new) }
    ensures within { result.left ≤ most }
    ensures stopped { 0 < result.left → StopsAs result.last (line hart regs.new memory.new) }
{
    let mut pc = regs.pc();
    let halt = run_words_at(hart, &mut pc, regs, memory, most);
    regs.set_pc(pc);
    halt
}

/// The same by their words, where pc is at hand.
#[inline(always)]
fn run_words_at(
    hart: u32,
    pc: &mut u32,
    regs: &mut Regs,
    memory: &mut FlatMemory,
    most: u64,
) -> Halt<u64>
    ensures ran { plain_run hart (most - result.left) (with_pc regs.old pc.old) memory.old ≡
        Some (with_pc regs.new pc.new, memory.new) }
    ensures within { result.left ≤ most }
    ensures stopped { 0 < result.left →
        StopsAs result.last (line hart (with_pc regs.new pc.new) memory.new) }
{
    let mut left = most;
    while left != 0 {
        match execute_at(hart, pc, regs, memory) {
            Outcome::Done => left -= 1,
            Outcome::Ecall => return Halt::at_call(left),
            Outcome::Trap(Cause::IllegalInstruction, word) => return Halt::at_illegal(left, word),
            Outcome::Trap(cause, value) => return Halt::at_trap(left, cause, value),
            Outcome::Absent(_) => unreachable!(),
        }
    }
    Halt::after_all(left)
}

/// The same by decoded instructions, as far as they go, and by words in between.
#[inline(never)]
fn run_many(
    hart: u32,
    regs: &mut Regs,
    memory: &mut FlatMemory,
    decoded: &DecodedPages,
    most: u64,
) -> Halt<u64>
    requires shows { ShowsAll decoded.now memory.old }
    ensures ran { plain_run hart (most - result.left) regs.old memory.old ≡
        Some (regs.new, memory.new) }
    ensures within { result.left ≤ most }
    ensures stopped { 0 < result.left → StopsAs result.last (line hart regs.new memory.new) }
{
    let mut left = most;
    while left != 0 {
        let allowed = part_of(left);
        let end = run_part(hart, regs, memory, decoded, allowed);
        left -= u64::from(allowed - end.left);
        let words = by_words(end);
        let halt = run_words(hart, regs, memory, words);
        left -= words - halt.left;
        if halt.left != 0 {
            return Halt {
                left,
                last: halt.last,
            };
        }
    }
    Halt::after_all(left)
}

/// So many, or the most of one run.
fn part_of(left: u64) -> u32
    ensures within { result ≤ left }
    ensures some { 0 < left → 0 < result }
{
    if left < u64::from(MOST) {
        left as u32
    } else {
        MOST
    }
}

/// How many instructions follow a run by their words.
fn by_words(ran: Ran) -> u64
    ensures within { result ≤ ran.left }
    ensures some { 0 < ran.left → 0 < result }
{
    let left = u64::from(ran.left);
    if left < FEWEST {
        return left;
    }
    match ran.end {
        RunEnd::Page | RunEnd::Word | RunEnd::NotAtHand => 1,
        RunEnd::NoPage if left < UNDECODED => left,
        RunEnd::NoPage => UNDECODED,
    }
}

/// Runs decoded instructions, up to so many, as long as all that they use is at hand.
#[inline(never)]
fn run_part(
    hart: u32,
    regs: &mut Regs,
    memory: &mut FlatMemory,
    decoded: &DecodedPages,
    most: u32,
) -> Ran
    requires shows { ShowsAll decoded.now memory.old }
    ensures within { result.left ≤ most }
    ensures ran { plain_run hart (most - result.left) regs.old memory.old ≡
        Some (regs.new, memory.new) }
{
    let ran = run_decoded(hart, regs, memory, decoded, regs.pc(), most);
    regs.set_pc(ran.pc);
    ran
}
