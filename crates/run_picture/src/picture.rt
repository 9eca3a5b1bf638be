//! A picture of a machine between two events.

ghost use Rattle.std.specs.Prelude.{IfOk};
ghost use Rattle.run_picture.specs.Pictures.{IsPictureOf};

use crate::output::lengths;
use crate::shown_page::{ShownPage, shown_pages};
use crate::shown_process::{ShownProcess, shown_processes};
use clock_policy::{Clock, Entry, Key};
use machine_core::{Core, SideCounts};
use pager_core::Hands;
use std::alloc::{AllocError, Global};
use std::sync::ledger::Ledger;
use swap_slots::SwapSlot;

/// What the machine shows between two events.
#[derive(Drop)]
pub struct Picture {
    pub pages: Vec<ShownPage>,
    /// The processes, by their numbers.
    pub processes: Vec<ShownProcess>,
    /// The replacement list from its front, where the hot hand is.
    pub entries: Vec<Entry>,
    pub hands: Hands,
    pub counts: SideCounts,
    /// How many bytes each process has written so far.
    pub written: Vec<usize>,
}

/// The picture of a machine, with these pages.
pub fn picture_of<L: Ledger, S: SwapSlot, C: Clock>(
    alloc: Global,
    core: &Core<L, S, C>,
    pages: &[Key],
) -> Result<Picture, AllocError>
    ensures { IfOk result (IsPictureOf core.now pages.now) }
{
    let mut entries = Vec::new(alloc);
    core.copy_entries(&mut entries)?;
    Ok(Picture {
        pages: shown_pages(alloc, core, pages)?,
        processes: shown_processes(alloc, core.spaces())?,
        entries,
        hands: core.hands(),
        counts: core.counts(),
        written: lengths(alloc, core.spaces())?,
    })
}
