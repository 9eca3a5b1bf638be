//! Decoded instructions one after another.

ghost use Rattle.std.specs.Prelude.{◌≡◌, ◌≤◌, ◌<◌, ◌-◌, ◌*◌, ◌+◌, slice_index_or};
ghost use Rattle.page_memory.specs.declared.words.Access.{Access};
ghost use Rattle.page_memory.specs.Words.{page_number};
ghost use Rattle.rv_exec.specs.Arithmetic.{word_sum};
ghost use Rattle.rv_exec.specs.Registers.{with_pc};
ghost use Rattle.decoded_pages.specs.Code.{Shows, ShowsAll};
ghost use Rattle.decoded_pages.specs.Running.{Iterates, Steps};

use crate::page::{DecodedPage, PAGE_WORDS};
use crate::pages::DecodedPages;
use crate::performing::{After, perform};
use crate::ready_memory::ReadyMemory;
use rv_exec::{Regs, add};

/// How far a run of decoded instructions came.
#[derive(Clone, Copy, Debug, PartialEq, Eq)]
pub struct Ran {
    /// The address of the next instruction.
    pub pc: u32,
    /// How many instructions of those that were allowed are left.
    pub left: u32,
    /// Why it ended, if any are left.
    pub end: RunEnd,
}

/// Why a run ended.
#[derive(Clone, Copy, Debug, PartialEq, Eq)]
pub enum RunEnd {
    /// The next instruction is in another page.
    Page,
    /// The next instruction is to be run by its word.
    Word,
    /// The next instruction is in no decoded page.
    NoPage,
    /// The page of the next instruction is not at hand.
    NotAtHand,
}

/// Runs decoded instructions, up to so many, as long as all that they use is at hand.
#[inline(always)]
pub fn run_decoded<M: ReadyMemory>(
    hart: u32,
    regs: &mut Regs,
    memory: &mut M,
    pages: &DecodedPages,
    pc: u32,
    most: u32,
) -> Ran
    requires hart { M.admits hart memory.old }
    requires shows { ShowsAll pages.now (M.memory memory.old) }
    ensures within { result.left ≤ most }
    ensures ran { Iterates (Steps M.memory (M.serves hart) (M.stays hart)) (most - result.left)
        (with_pc regs.old pc, memory.old) (with_pc regs.new result.pc, memory.new) }
{
    let mut pc = pc;
    let mut left = most;
    while left != 0 {
        let Some(page) = pages.page_at(pc) else {
            return Ran {
                pc,
                left,
                end: RunEnd::NoPage,
            };
        };
        if pc % 4 != 0 {
            return Ran {
                pc,
                left,
                end: RunEnd::Word,
            };
        }
        // It stays at hand while the run is in the page.
        if !memory.ready_fetch(hart, pc) {
            return Ran {
                pc,
                left,
                end: RunEnd::NotAtHand,
            };
        }
        let ran = run_in_page(hart, regs, memory, page, pc % 4096 / 4, left);
        if ran.left == left || ran.end == RunEnd::Word {
            return ran;
        }
        pc = ran.pc;
        left = ran.left;
    }
    Ran {
        pc,
        left,
        end: RunEnd::Page,
    }
}

/// Runs decoded instructions of a page, from the one of a number on, up to so many.
#[inline(always)]
fn run_in_page<M: ReadyMemory>(
    hart: u32,
    regs: &mut Regs,
    memory: &mut M,
    page: &DecodedPage,
    from: u32,
    most: u32,
) -> Ran
    requires hart { M.admits hart memory.old }
    requires shows { Shows page.now (M.memory memory.old) }
    requires served { M.serves hart memory.old Access.Fetch (page_number page.now.start) }
    requires from { from < 1024 }
    ensures within { result.left ≤ most }
    ensures ran { Iterates (Steps M.memory (M.serves hart) (M.stays hart)) (most - result.left)
        (with_pc regs.old (word_sum page.now.start (from * 4)), memory.old)
        (with_pc regs.new result.pc, memory.new) }
{
    let end = page.ends[from as usize];
    if u64::from(end) <= u64::from(from) + u64::from(most) {
        run_lines(hart, regs, memory, page, from, most)
    } else {
        run_page(hart, regs, memory, page, from, most)
    }
}

/// The same where each instruction is counted.
#[inline(always)]
fn run_page<M: ReadyMemory>(
    hart: u32,
    regs: &mut Regs,
    memory: &mut M,
    page: &DecodedPage,
    from: u32,
    most: u32,
) -> Ran
    requires hart { M.admits hart memory.old }
    requires shows { Shows page.now (M.memory memory.old) }
    requires served { M.serves hart memory.old Access.Fetch (page_number page.now.start) }
    requires from { from < 1024 }
    ensures within { result.left ≤ most }
    ensures ran { Iterates (Steps M.memory (M.serves hart) (M.stays hart)) (most - result.left)
        (with_pc regs.old (word_sum page.now.start (from * 4)), memory.old)
        (with_pc regs.new result.pc, memory.new) }
{
    let start = page.start;
    let instructions = page.instructions.as_slice();
    let mut place = from as usize;
    let mut left = most;
    while left != 0 {
        match perform(hart, regs, memory, &instructions[place], start, place) {
            After::Next => {
                place += 1;
                left -= 1;
            }
            After::To(relative) => {
                left -= 1;
                if relative >= 4096 {
                    return Ran {
                        pc: add(start, relative),
                        left,
                        end: RunEnd::Page,
                    };
                }
                place = (relative / 4) as usize;
            }
            After::ByWord => {
                return Ran {
                    pc: add(start, place as u32 * 4),
                    left,
                    end: stopped_at(place),
                };
            }
        }
    }
    Ran {
        pc: add(start, place as u32 * 4),
        left,
        end: RunEnd::Page,
    }
}

/// The same where all of the straight line from there may be done: it ends before a line of which that does not hold.
#[inline(always)]
fn run_lines<M: ReadyMemory>(
    hart: u32,
    regs: &mut Regs,
    memory: &mut M,
    page: &DecodedPage,
    from: u32,
    most: u32,
) -> Ran
    requires hart { M.admits hart memory.old }
    requires shows { Shows page.now (M.memory memory.old) }
    requires served { M.serves hart memory.old Access.Fetch (page_number page.now.start) }
    requires from { from < 1024 }
    requires line { slice_index_or page.now.ends.items from 0 ≤ from + most }
    ensures within { result.left ≤ most }
    ensures ran { Iterates (Steps M.memory (M.serves hart) (M.stays hart)) (most - result.left)
        (with_pc regs.old (word_sum page.now.start (from * 4)), memory.old)
        (with_pc regs.new result.pc, memory.new) }
{
    let start = page.start;
    let instructions = page.instructions.as_slice();
    let ends = page.ends.as_slice();
    let mut place = from as usize;
    // The number at which, on a straight line, all that were allowed are done.
    let mut limit = place + most as usize;
    loop {
        match perform(hart, regs, memory, &instructions[place], start, place) {
            After::Next => place += 1,
            After::To(relative) => {
                let left = limit - place - 1;
                if relative >= 4096 {
                    return Ran {
                        pc: add(start, relative),
                        left: left as u32,
                        end: RunEnd::Page,
                    };
                }
                place = (relative / 4) as usize;
                limit = place + left;
                if limit < ends[place] as usize {
                    return Ran {
                        pc: add(start, relative),
                        left: left as u32,
                        end: RunEnd::Page,
                    };
                }
            }
            After::ByWord => {
                return Ran {
                    pc: add(start, place as u32 * 4),
                    left: (limit - place) as u32,
                    end: stopped_at(place),
                };
            }
        }
    }
}

/// Why a run ended where an instruction of that number was not done: the page has no more, or it is to be run by its word.
#[inline(always)]
fn stopped_at(place: usize) -> RunEnd {
    if place == PAGE_WORDS as usize {
        RunEnd::Page
    } else {
        RunEnd::Word
    }
}
