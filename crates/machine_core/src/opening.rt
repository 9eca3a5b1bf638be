//! A machine begins.

ghost use Rattle.std.specs.Prelude.{◌≡◌, ◌+◌, ◌<◌, ◌≤◌, ◌↔◌, ◌⊎◌, map, length, IfOk, IsErrOf};
ghost use Rattle.machine_core.specs.Opening.{AllBegin, MachineBegins};
ghost use Rattle.elf_image.specs.Start.{start_of};
ghost use Rattle.machine_limits.specs.Limits.{most_processes};

use crate::error::CoreError;
use crate::machine::Core;
use clock_policy::Clock;
use elf_image::Image;
use machine_limits::{FEWEST_FRAMES, MOST_FRAMES, MOST_PROCESSES};
use machine_sides::{PagerSide, start};
use space_core::Space;
use std::alloc::{AllocError, Global};
use std::sync::ledger::{Blank, Ledger};
use swap_slots::{SlotPool, SwapSlot};

impl<L: Ledger, S: SwapSlot, C: Clock> Core<L, S, C> {
    /// A machine of 4 to 4096 frames, with these slots, that is to run these images on these inputs. The processes are numbered
    /// from 0, in their order; there may be none, and there are at most 64. The ledger has one part for each frame, and one for
    /// the pager itself.
    ///
    /// Refused with the first of `BadSize` and `TooManyProcesses` that holds, or else where there is not enough memory.
    pub fn new(
        alloc: Global,
        frames: u32,
        blank: Blank,
        slots: Vec<S>,
        processes: Vec<(Image, Vec<u8>)>,
    ) -> Result<Self, CoreError>
        requires name { blank.name ≡ L.name }
        requires parts { blank.parts ≡ L.parts }
        requires one_each { L.parts ≡ frames + 1 }
        ensures begins { IfOk result (λ core. MachineBegins frames slots.items (map (λ start.
            start_of start.0 start.1.items) processes.items) core) }
        ensures bad_size { IsErrOf result CoreError.BadSize ↔ ((frames < 4) ⊎ (4096 < frames)) }
        ensures too_many { IsErrOf result CoreError.TooManyProcesses ↔ ((4 ≤ frames) ×
            ((frames ≤ 4096) × (most_processes < length processes.items))) }
    {
        if frames < FEWEST_FRAMES || frames > MOST_FRAMES {
            return Err(CoreError::BadSize);
        }
        if processes.len() > MOST_PROCESSES {
            return Err(CoreError::TooManyProcesses);
        }
        let Ok(pager) = PagerSide::new(alloc, frames, blank) else {
            return Err(CoreError::NoMemory);
        };
        let Ok(processes) = begin_all(alloc, processes) else {
            return Err(CoreError::NoMemory);
        };

        // At most as many saves are out as there are frames, and as many copies.
        let Ok(jobs) = Vec::with_capacity(alloc, frames as usize) else {
            return Err(CoreError::NoMemory);
        };
        let Ok(copies) = Vec::with_capacity(alloc, frames as usize) else {
            return Err(CoreError::NoMemory);
        };
        Ok(Core {
            pager,
            slots: SlotPool::new(slots),
            processes,
            jobs,
            copies,
        })
    }
}

/// Processes, numbered from 0, that are to run images on inputs.
fn begin_all<L: Ledger, S: SwapSlot>(
    alloc: Global,
    starts: Vec<(Image, Vec<u8>)>,
) -> Result<Vec<Space<L, S>>, AllocError>
    requires { length starts.items ≤ most_processes }
    ensures { IfOk result (λ sides. AllBegin (map (λ start.
        start_of start.0 start.1.items) starts.items) sides.items) }
{
    let mut sides = Vec::new(alloc);
    for (image, input) in starts {
        let number = sides.len() as u32;
        sides.push(start(alloc, number, image, input)?)?;
    }
    Ok(sides)
}
