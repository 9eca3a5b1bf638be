//! The pages of one step.
ghost use Rattle.std.specs.Prelude.{◌≡◌, ℕ, [], None, Some, is_some, IfSome};
ghost use Rattle.page_memory.specs.Memory.{fetched};
ghost use Rattle.rv_exec.specs.Registers.{Registers};
ghost use Rattle.env_calls.specs.Step.{step_pages, step_stores};
ghost use Rattle.flat_machine.specs.Process.{hart_registers};
ghost use Rattle.guest_strings.specs.Yields.{step_yields};
ghost use Rattle.guest_strings.specs.Told.{listed, used_page, stored_page, pages_told, stores_told};

use crate::instructions::{page_of_insn, yields};
use flat_machine::FlatProcess;
use page_memory::{FlatMemory, MemoryFault, page_of};
use rv_exec::Regs;
use rv_isa::decode;

/// A page that an instruction or a call uses.
#[derive(Clone, Copy, Debug, PartialEq, Eq)]
pub struct PageUse {
    /// The number of the page.
    pub page: u32,
    pub is_written: bool,
}

/// The pages that a step uses, each where memory allows the access.
#[derive(Clone, Copy, Debug, PartialEq, Eq)]
pub struct StepPages {
    /// The page of the instruction.
    pub fetched: Option<u32>,
    /// The page of what it, or the call that it makes, loads or stores.
    pub data: Option<PageUse>,
    /// Whether the step is a call that lets others have their turn.
    pub yields: bool,
}

/// What the next step of a hart uses, or `None` where the hart was never started. The process stays as it is.
pub fn step_pages_of(process: &mut FlatProcess, hart: u32) -> Option<StepPages>
    ensures pages { IfSome result (λ told. (registers : Registers)
        → hart_registers hart process.old ≡ Some registers → pages_told told ≡ step_pages hart
        registers process.old.memory) }
    ensures stores { IfSome result (λ told. (registers : Registers)
        → hart_registers hart process.old ≡ Some registers → stores_told told ≡ step_stores hart
        registers process.old.memory) }
    ensures yields { IfSome result (λ told. (registers : Registers)
        → hart_registers hart process.old ≡ Some registers → told.yields ≡ step_yields hart
        registers process.old.memory) }
    ensures behind { IfSome result (λ told. told.fetched ≡ None → told.data ≡ None) }
    ensures started { is_some result ≡ is_some (hart_registers hart process.old) }
    ensures same { process.new ≡ process.old }
{
    let regs = *process.regs(hart)?;
    let word = process.fetch(regs.pc());
    Some(pages_at(&regs, process.memory(), word))
}

/// The pages of the step of any hart at these registers and this memory, of what the fetch answered.
fn pages_at(regs: &Regs, memory: &FlatMemory, word: Result<u32, MemoryFault>) -> StepPages
    requires { word ≡ fetched memory.now regs.now.pc }
    ensures pages { (hart : ℕ) → pages_told result ≡ step_pages hart regs.now memory.now }
    ensures stores { (hart : ℕ) → stores_told result ≡ step_stores hart regs.now memory.now }
    ensures yields { (hart : ℕ) → result.yields ≡ step_yields hart regs.now memory.now }
    ensures behind { result.fetched ≡ None → result.data ≡ None }
{
    match word {
        Ok(word) => {
            let fetched = Some(page_of(regs.pc()));
            match decode(word) {
                Some(insn) => {
                    let yields = yields(regs, &insn);
                    StepPages {
                        fetched,
                        data: page_of_insn(regs, memory, insn),
                        yields,
                    }
                }
                None => StepPages {
                    fetched,
                    data: None,
                    yields: false,
                },
            }
        }
        Err(_) => StepPages {
            fetched: None,
            data: None,
            yields: false,
        },
    }
}

/// A page that is not written.
pub(crate) fn loaded(page: Option<u32>) -> Option<PageUse>
    ensures used { used_page result ≡ listed page }
    ensures stored { stored_page result ≡ [] }
{
    match page {
        Some(page) => Some(PageUse {
            page,
            is_written: false,
        }),
        None => None,
    }
}

/// A page that is written.
pub(crate) fn stored(page: Option<u32>) -> Option<PageUse>
    ensures used { used_page result ≡ listed page }
    ensures stored { stored_page result ≡ listed page }
{
    match page {
        Some(page) => Some(PageUse {
            page,
            is_written: true,
        }),
        None => None,
    }
}
