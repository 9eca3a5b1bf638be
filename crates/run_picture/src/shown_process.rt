//! A process as a picture shows it.

ghost use Rattle.std.specs.Prelude.{◌≡◌, IfOk, map};
ghost use Rattle.run_picture.specs.Processes.{process_by, process_seen};

use crate::shown_hart::{ShownHart, shown_harts};
use crate::shown_table::{ShownTable, shown_tables};
use flat_machine::End;
use space_core::Space;
use std::alloc::{AllocError, Global};
use std::sync::ledger::Ledger;
use swap_slots::SwapSlot;

/// A process beside its pages and its output.
#[derive(PartialEq, Drop)]
pub struct ShownProcess {
    /// How it ended, if it did.
    pub end: Option<End>,
    /// The harts that were started, by their numbers.
    pub harts: Vec<ShownHart>,
    /// The root first.
    pub page_tables: Vec<ShownTable>,
}

/// The processes of a machine.
pub(crate) fn shown_processes<L: Ledger, S: SwapSlot>(
    alloc: Global,
    processes: &[Space<L, S>],
) -> Result<Vec<ShownProcess>, AllocError>
    ensures { IfOk result (λ shown. map process_seen shown.items ≡ map process_by processes.now) }
{
    let mut shown = Vec::new(alloc);
    'processes: for process in processes {
        let seen = shown_process(alloc, process)?;
        shown.push(seen)?;
    }
    Ok(shown)
}

fn shown_process<L: Ledger, S: SwapSlot>(
    alloc: Global,
    process: &Space<L, S>,
) -> Result<ShownProcess, AllocError>
    ensures { IfOk result (λ shown. process_seen shown ≡ process_by process.now) }
{
    Ok(ShownProcess {
        end: process.end(),
        harts: shown_harts(alloc, process)?,
        page_tables: shown_tables(alloc, process.memory().tables())?,
    })
}
