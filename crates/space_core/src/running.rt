//! A process without its memory: its harts' registers, its environment, and its ending.

ghost use Rattle.std.specs.Prelude.{◌≡◌, ◌≤◌, Some, option_copied, slice_get, slice_index_or};
ghost use Rattle.std.specs.Prelude.{false, length, IfOk};
ghost use Rattle.std.specs.Option.{option_or};
ghost use Rattle.flat_machine.specs.Process.{may_step, opening};
ghost use Rattle.page_memory.specs.Memory.{Memory};
ghost use Rattle.space_core.specs.RunningValue.{beside, with_memory};

use elf_image::Image;
use env_calls::Env;
use flat_machine::{End, KillCause, STACK_PAGES, first_break, first_registers};
use machine_limits::MOST_HARTS;
use rv_exec::Regs;
use shared_origins::SharedBytes;
use std::alloc::{AllocError, Global};
use std::marker::Model;

/// What a process is besides its memory.
#[derive(Drop)]
pub struct Running {
    /// By number; the room for all harts that a process may start is there.
    pub(crate) harts: Vec<Regs>,
    pub(crate) env: Env,
    pub(crate) end: Option<End>,
}

impl Model for Running {
    ghost use Rattle.std.specs.Prelude.{◌≤◌, vec_capacity};
    ghost use Rattle.page_memory.specs.Memory.{Memory};
    ghost use Rattle.flat_machine.specs.Process.{IsWhole};
    ghost use Rattle.space_core.specs.RunningValue.{RunningValue, with_memory};
    ghost use Rattle.space_core.specs.RunningCode.{running_code};

    ghost Value = { RunningValue };

    ghost coded = { running_code };

    ghost view = { λ running. record {
      harts = running.harts.items;
      environment = running.env;
      ending = running.end;
    } };

    ghost invariant = { λ running. record {
      whole : (memory : Memory) → IsWhole (with_memory (record
          { harts = running.harts.items; environment = running.env; ending = running.end }) memory);
      roomy : 8 ≤ vec_capacity running.harts;
    } };
}

impl Running {
    /// What a process that is to run an image on an input begins with.
    #[tactic(auto, unfolding(flat_machine::specs::Process::opening))]
    pub fn new(alloc: Global, image: &Image, input: SharedBytes) -> Result<Self, AllocError>
        ensures { IfOk result (λ running. running ≡ beside (opening image.now input)) }
    {
        let mut harts = Vec::with_capacity(alloc, MOST_HARTS)?;
        harts.push_reserved(first_registers(image.entry()));
        let pages = image.pages();
        Ok(Running {
            harts,
            env: Env::new(
                alloc,
                input,
                first_break(pages),
                pages.len() as u32 + STACK_PAGES,
            ),
            end: None,
        })
    }

    /// The machine ends the process, unless it has ended.
    pub fn kill(&mut self, cause: KillCause)
        ensures { self.new ≡ record self.old {
          ending = option_or self.old.ending
              (Some (End.Killed cause));
        } }
    {
        if self.end.is_none() {
            self.end = Some(End::Killed(cause));
        }
    }

    /// How many harts were started.
    pub(crate) fn started(&self) -> usize
        ensures count { result ≡ length self.now.harts }
        ensures few { result ≤ 8 }
    {
        self.harts.len()
    }

    /// Whether a hart was started and is live in a process that has not ended.
    pub(crate) fn may_step(&self, hart: u32) -> bool
        ensures { (memory : Memory) → result ≡ may_step hart (with_memory self.now memory) }
    {
        if self.end.is_some() {
            return false;
        }
        self.env.is_live(hart)
    }

    /// Whether a hart was started and is live.
    pub fn is_live(&self, hart: u32) -> bool
        ensures { result ≡ slice_index_or self.now.environment.live hart false }
    {
        self.env.is_live(hart)
    }

    /// A hart's registers, where the hart was started.
    pub fn regs(&self, hart: u32) -> Option<&Regs>
        ensures { option_copied result ≡ slice_get self.now.harts hart }
    {
        self.harts.get(hart as usize)
    }

    /// What was written so far.
    pub fn output(&self) -> &[u8]
        ensures { result.now ≡ self.now.environment.output }
    {
        self.env.output()
    }

    /// What was written, to be kept.
    pub fn into_output(self) -> Vec<u8>
        ensures { result.items ≡ self.environment.output }
    {
        self.env.into_output()
    }

    /// How the process ended, if it did.
    pub fn end(&self) -> Option<End>
        ensures { result ≡ self.now.ending }
    {
        self.end
    }
}
