//! The machines that commands run.

ghost use Rattle.std.specs.Prelude.{◌≡◌, ◌+◌, ◌≤◌, IfOk, length, map, replicate};
ghost use Rattle.elf_image.specs.Start.{start_of};
ghost use Rattle.machine_core.specs.Opening.{MachineBegins};
ghost use Rattle.machine_limits.specs.Limits.{most_processes};
ghost use Rattle.swap_slots.specs.Slot.{zero_content};

use clock_ring::ClockRing;
use elf_image::Image;
use image_files::memory_slots;
use machine_core::Core;
use std::alloc::{AllocError, Global};
use std::sync::ledger::{Blank, Ledger};
use swap_slots::{MemorySlot, SwapSlot};

/// A machine of so many frames and slots, in memory, that is to run images on inputs.
pub fn new_machine<L: Ledger>(
    alloc: Global,
    frames: u32,
    blank: Blank,
    slots: u32,
    processes: Vec<(Image, Vec<u8>)>,
) -> Result<Core<L, MemorySlot, ClockRing>, AllocError>
    requires name { blank.name ≡ L.name }
    requires parts { blank.parts ≡ L.parts }
    requires one_each { L.parts ≡ frames + 1 }
    requires least { 4 ≤ frames }
    requires most { frames ≤ 4096 }
    requires few { length processes.items ≤ most_processes }
    ensures { IfOk result (λ core. MachineBegins frames (replicate slots zero_content)
        (map (λ start. start_of start.0 start.1.items) processes.items) core) }
{
    let slots = memory_slots(alloc, slots)?;
    machine_on(alloc, frames, blank, slots, processes)
}

/// The same on these slots.
pub(crate) fn machine_on<L: Ledger, S: SwapSlot>(
    alloc: Global,
    frames: u32,
    blank: Blank,
    slots: Vec<S>,
    processes: Vec<(Image, Vec<u8>)>,
) -> Result<Core<L, S, ClockRing>, AllocError>
    requires name { blank.name ≡ L.name }
    requires parts { blank.parts ≡ L.parts }
    requires one_each { L.parts ≡ frames + 1 }
    requires least { 4 ≤ frames }
    requires most { frames ≤ 4096 }
    requires few { length processes.items ≤ most_processes }
    ensures { IfOk result (λ core. MachineBegins frames slots.items (map (λ start.
        start_of start.0 start.1.items) processes.items) core) }
{
    match Core::new(alloc, frames, blank, slots, processes) {
        Ok(core) => Ok(core),
        Err(_) => Err(AllocError),
    }
}
