//! A hart as a picture shows it.

ghost use Rattle.std.specs.Prelude.{◌≡◌, IfOk, map};
ghost use Rattle.run_picture.specs.Processes.{cached_by, hart_by, hart_seen, harts_by};

use paged_memory::PagedMemory;
use rv_exec::Regs;
use space_core::Space;
use std::alloc::{AllocError, Global};
use std::sync::ledger::Ledger;
use swap_slots::SwapSlot;
use tlb_core::Translation;

/// A hart that was started.
#[derive(PartialEq, Drop)]
pub struct ShownHart {
    pub regs: Regs,
    /// Whether it is not done.
    pub live: bool,
    /// The word at its pc, where that page is in a frame.
    pub word: Option<u32>,
    /// Its translations, the oldest first.
    pub cached: Vec<Translation>,
}

/// The harts of a process.
pub(crate) fn shown_harts<L: Ledger, S: SwapSlot>(
    alloc: Global,
    process: &Space<L, S>,
) -> Result<Vec<ShownHart>, AllocError>
    ensures { IfOk result (λ shown. map hart_seen shown.items ≡ harts_by process.now) }
{
    process.coherent();
    let memory = process.memory();
    let mut shown = Vec::new(alloc);
    'harts: for number in 0..memory.cached_harts() {
        let Some(regs) = process.regs(number) else {
            unreachable!()
        };
        let hart = shown_hart(alloc, process, number, regs)?;
        shown.push(hart)?;
    }
    Ok(shown)
}

fn shown_hart<L: Ledger, S: SwapSlot>(
    alloc: Global,
    process: &Space<L, S>,
    number: u32,
    regs: &Regs,
) -> Result<ShownHart, AllocError>
    ensures { IfOk result (λ hart. hart_seen hart ≡ hart_by process.now (number, regs.now)) }
{
    let memory = process.memory();
    Ok(ShownHart {
        regs: *regs,
        live: process.is_live(number),
        word: memory.framed_word(regs.pc()),
        cached: cached_by(alloc, memory, number)?,
    })
}

/// What a hart has cached.
fn cached_by<L: Ledger, S: SwapSlot>(
    alloc: Global,
    memory: &PagedMemory<L, S>,
    number: u32,
) -> Result<Vec<Translation>, AllocError>
    ensures { IfOk result (λ cached. cached.items ≡ cached_by memory.now number) }
{
    match memory.translations(number as usize) {
        Some(cached) => Vec::from_slice(alloc, cached),
        None => Ok(Vec::new(alloc)),
    }
}
