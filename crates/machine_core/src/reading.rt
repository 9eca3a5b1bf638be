//! What the machine shows of its processes.

ghost use Rattle.std.specs.Prelude.{◌≡◌, ◌≢◌, ◌↔◌, ◌+◌, ◌*◌, ◌<◌, ◌≤◌, Some, true, false, None};
ghost use Rattle.std.specs.Prelude.{IsNone, IfNone, IfSome, length, slice_get, option_copied};
ghost use Rattle.std.specs.Prelude.{option_map, vec_len};
ghost use Rattle.std.specs.Option.{option_and_then};
ghost use Rattle.machine_limits.specs.Limits.{most_processes};
ghost use Rattle.page_memory.specs.Words.{page_offset};
ghost use Rattle.machine_sides.specs.Admitting.{stage_at};
ghost use Rattle.machine_core.specs.MachineRun.{ChangesOne};
ghost use Rattle.machine_core.specs.Reading.{is_live_in, IfThere, PeeksAt};
ghost use Rattle.machine_sides.specs.Showing.{Peeks};
ghost use Rattle.space_core.specs.StandsFor.{own_ending};

use crate::machine::Core;
use clock_policy::{Clock, EntryKind, Key};
use elf_image::Image;
use flat_machine::{End, Schedule};
use machine_sides::{PagerSide, SideCounts, peek, state};
use page_store::PageState;
use paged_memory::PeekFault;
use rv_exec::Regs;
use space_core::Space;
use std::sync::ledger::Ledger;
use swap_slots::SwapSlot;

impl<L: Ledger, S: SwapSlot, C: Clock> Core<L, S, C> {
    /// A hart's registers, where there is such a process and the hart was started.
    pub fn regs(&self, process: u32, hart: u32) -> Option<&Regs>
        ensures exact { option_copied result ≡ option_and_then (λ process.
            slice_get process.running.harts hart) (slice_get self.now.processes process) }
        ensures flat { IfThere S.honest (λ flat. option_copied result ≡ slice_get flat.harts hart)
            (slice_get self.now.processes process) }
    {
        self.processes.get(process as usize)?.regs(hart)
    }

    /// What a process has written so far, where there is such a process.
    pub fn output(&self, process: u32) -> Option<&[u8]>
        ensures exact { option_copied result ≡ option_map (λ process.
            process.running.environment.output) (slice_get self.now.processes process) }
        ensures flat { IfThere S.honest (λ flat. option_copied result ≡
            Some flat.environment.output) (slice_get self.now.processes process) }
    {
        Some(self.processes.get(process as usize)?.output())
    }

    /// How a process ended, if it did, where there is such a process.
    pub fn end(&self, process: u32) -> Option<Option<End>>
        ensures exact { result ≡ option_map (λ process. process.running.ending)
            (slice_get self.now.processes process) }
        ensures flat { IfThere S.honest (λ flat. option_map own_ending result ≡ Some flat.ending)
            (slice_get self.now.processes process) }
    {
        Some(self.processes.get(process as usize)?.end())
    }

    /// The instructions that a process ran, where there is such a process.
    pub fn schedule(&self, process: u32) -> Option<&Schedule>
        ensures { option_copied result ≡ option_map (λ process. process.schedule)
            (slice_get self.now.processes process) }
    {
        Some(self.processes.get(process as usize)?.schedule())
    }

    /// How many processes there are: their numbers go from 0 on.
    pub fn processes(&self) -> usize
        ensures count { result ≡ length self.now.processes }
        ensures few { result ≤ most_processes }
    {
        self.processes.len()
    }

    /// Whether there is such a process and it has such a live hart.
    pub fn is_live(&self, process: u32, hart: u32) -> bool
        ensures { result ≡ is_live_in (slice_get self.now.processes process) hart }
    {
        match self.processes.get(process as usize) {
            None => false,
            Some(side) => side.is_live(hart),
        }
    }

    /// Where a page of a process is, or `None` where there is no such process or none is mapped.
    pub fn state(&self, process: u32, vpn: u32) -> Option<PageState>
        ensures { result ≡ option_and_then (λ process. stage_at process vpn)
            (slice_get self.now.processes process) }
    {
        state(self.processes.get(process as usize)?, vpn)
    }

    /// The entry of the list at a place, counted from the front.
    pub fn entry(&self, i: usize) -> Option<(Key, EntryKind)>
        ensures entry { result ≡ option_map (λ e. (e.key, e.kind))
            (slice_get self.now.pager.pager.list.entries i) }
        ensures few { length self.now.pager.pager.list.entries ≤ 2 * self.now.pager.pager.size }
    {
        // For the proof only: a read gives its invariant.
        let _ = &self.pager;
        self.pager.entry(i)
    }

    /// The pager, with its counts.
    pub fn pager(&self) -> &PagerSide<L, C>
        ensures { result.now ≡ self.now.pager }
    {
        &self.pager
    }

    /// The processes by their numbers.
    pub fn spaces(&self) -> &[Space<L, S>]
        ensures spaces { result.now ≡ self.now.processes }
        ensures few { length result.now ≤ most_processes }
    {
        self.processes.as_slice()
    }

    /// Gives up the machine: its pager, and its processes by their numbers.
    pub fn into_spaces(self) -> (PagerSide<L, C>, Vec<Space<L, S>>)
        ensures pager { result.0 ≡ self.pager }
        ensures spaces { result.1.items ≡ self.processes }
        ensures few { vec_len result.1 ≤ most_processes }
    {
        let Core {
            pager,
            slots: _,
            processes,
            jobs: _,
            copies: _,
        } = self;
        (pager, processes)
    }

    /// How many frames are free, and what was counted.
    pub fn counts(&self) -> SideCounts
        ensures free { result.pager.free ≡ length self.now.pager.pager.free }
        ensures tallies { result.pager.tallies ≡ self.now.pager.pager.tallies }
        ensures saves { result.saves ≡ self.now.pager.saves }
        ensures drops { result.drops ≡ self.now.pager.drops }
    {
        self.pager.counts()
    }

    /// Of how many frames the machine was made.
    pub fn size(&self) -> u32
        ensures { result ≡ self.now.pager.pager.size }
    {
        self.pager.size()
    }

    /// Whether a process was started from this image and this input, where there is such a process.
    pub fn started_from(&self, process: u32, image: &Image, input: &[u8]) -> Option<bool>
        ensures there { IsNone result ↔ (slice_get self.now.processes process ≡ None) }
        ensures same { result ≡ Some true → IfSome (slice_get self.now.processes process)
            (λ process. (image.now ≡ process.image) × (input.now ≡ process.input)) }
        ensures different { result ≡ Some false → IfSome (slice_get self.now.processes process)
            (λ process. image.now ≡ process.image → input.now ≢ process.input) }
    {
        Some(
            self.processes
                .get(process as usize)?
                .started_from(image, input),
        )
    }

    /// Reads the bytes that a process's memory shows from an address on, where there is such a process; see
    /// [`machine_sides::peek`].
    pub fn peek(
        &mut self,
        process: u32,
        address: u32,
        bytes: &mut [Option<u8>],
    ) -> Option<Result<(), PeekFault>>
        requires { page_offset address + length bytes.old ≤ 4096 }
        ensures { PeeksAt S.content S.honest S.failures process address bytes.old bytes.new result
            self.old self.new }
    {
        if process as usize >= self.processes.len() {
            return None;
        }
        let read = peek_at(
            self.processes.as_mut_slice(),
            process as usize,
            address,
            bytes,
        );
        Some(read)
    }
}

fn peek_at<L: Ledger, S: SwapSlot>(
    processes: &mut [Space<L, S>],
    process: usize,
    address: u32,
    bytes: &mut [Option<u8>],
) -> Result<(), PeekFault>
    requires there { process < length processes.old }
    requires within { page_offset address + length bytes.old ≤ 4096 }
    ensures { ChangesOne (Peeks S.content S.honest S.failures address bytes.old bytes.new result)
        process processes.old processes.new }
{
    peek(&mut processes[process], address, bytes)
}
