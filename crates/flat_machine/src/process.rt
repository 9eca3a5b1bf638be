//! A process on flat memory: its harts' registers, environment, memory and ending.

ghost use Rattle.std.specs.Prelude.{◌≡◌, IfOk, option_copied};
ghost use Rattle.flat_machine.specs.Process.{hart_registers, is_live, IsWhole};
ghost use Rattle.page_memory.specs.Memory.{byte_at, fetched};

use crate::end::End;
use decoded_pages::DecodedPages;
use env_calls::Env;
use machine_limits::MOST_HARTS;
use page_memory::{FlatMemory, MemoryFault};
use rv_exec::Regs;
use std::alloc::{AllocError, Global};
use std::marker::Model;
use std::sync::Arc;

/// A process on flat memory.
#[derive(Drop)]
pub struct FlatProcess {
    /// By number; the room for all harts that a process may start is there.
    pub(crate) harts: Vec<Regs>,
    pub(crate) env: Env,
    pub(crate) memory: FlatMemory,
    /// The pages of its memory that may be run and never written. Copies of the process share them.
    pub(crate) decoded: Arc<DecodedPages>,
    pub(crate) end: Option<End>,
}

impl Model for FlatProcess {
    ghost use Rattle.std.specs.Arc.{arc_value};
    ghost use Rattle.std.specs.Prelude.{◌≤◌, vec_capacity};
    ghost use Rattle.decoded_pages.specs.Code.{ShowsAll};
    ghost use Rattle.env_calls.specs.Environment.{most_harts};
    ghost use Rattle.flat_machine.specs.Process.{Process, IsWhole};
    ghost use Rattle.flat_machine.specs.ProcessCode.{process_code};

    ghost Value = { Process };

    ghost coded = { process_code };

    ghost view = { λ process. record {
      harts = process.harts.items;
      environment = process.env;
      memory = process.memory;
      ending = process.end;
    } };

    ghost invariant = { λ process. record {
      whole : IsWhole (record {
        harts = process.harts.items;
        environment = process.env;
        memory = process.memory;
        ending = process.end;
      });
      roomy : most_harts ≤ vec_capacity process.harts;
      shows : ShowsAll (arc_value process.decoded) process.memory;
    } };
}

impl FlatProcess {
    /// A copy of the process, which goes on by itself. Input and decoded pages are shared.
    pub fn try_clone(&self, alloc: Global) -> Result<Self, AllocError>
        ensures { IfOk result (λ copy. copy ≡ self.now) }
    {
        let mut harts = Vec::with_capacity(alloc, MOST_HARTS)?;
        harts.extend_from_slice(&self.harts)?;
        Ok(FlatProcess {
            harts,
            env: self.env.try_clone(alloc)?,
            memory: self.memory.try_clone()?,
            decoded: Arc::try_clone(&self.decoded)?,
            end: self.end,
        })
    }

    /// A hart's registers, where the hart was started.
    pub fn regs(&self, hart: u32) -> Option<&Regs>
        ensures { option_copied result ≡ hart_registers hart self.now }
    {
        self.harts.get(hart as usize)
    }

    /// Whether a hart was started and is live.
    pub fn is_live(&self, hart: u32) -> bool
        ensures { result ≡ is_live hart self.now }
    {
        self.env.is_live(hart)
    }

    /// The byte at an address, where a page is mapped there.
    pub fn byte(&self, address: u32) -> Option<u8>
        ensures { result ≡ byte_at self.now.memory address }
    {
        self.memory.byte(address)
    }

    /// The memory that all harts share.
    pub fn memory(&self) -> &FlatMemory
        ensures { result.now ≡ self.now.memory }
    {
        &self.memory
    }

    /// The word that a fetch at an address gives. The page is remembered, and nothing has changed.
    pub fn fetch(&mut self, address: u32) -> Result<u32, MemoryFault>
        ensures word { result ≡ fetched self.old.memory address }
        ensures same { self.new ≡ self.old }
    {
        self.memory.fetch(address)
    }

    /// How many pages are mapped.
    pub fn pages(&self) -> u32
        ensures { result ≡ self.now.environment.pages }
    {
        self.env.pages()
    }

    /// What was written so far.
    pub fn output(&self) -> &[u8]
        ensures { result.now ≡ self.now.environment.output }
    {
        self.env.output()
    }

    /// How the process ended, if it did.
    pub fn end(&self) -> Option<End>
        ensures { result ≡ self.now.ending }
    {
        self.end
    }
}
