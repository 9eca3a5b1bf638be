//! What processes have written.

ghost use Rattle.std.specs.Prelude.{◌≡◌, IfOk, map};
ghost use Rattle.run_picture.specs.Pictures.{bytes_in, output_by, written_by};

use space_core::Space;
use std::alloc::{AllocError, Global};
use std::sync::ledger::Ledger;
use swap_slots::SwapSlot;

/// What a process has written.
#[derive(Drop)]
pub struct Output {
    pub bytes: Vec<u8>,
}

/// What each process has written.
pub(crate) fn outputs_of<L: Ledger, S: SwapSlot>(
    alloc: Global,
    processes: &[Space<L, S>],
) -> Result<Vec<Output>, AllocError>
    ensures { IfOk result (λ outputs. map bytes_in outputs.items ≡ map output_by processes.now) }
{
    let mut outputs = Vec::new(alloc);
    'processes: for process in processes {
        let output = output_of(alloc, process)?;
        outputs.push(output)?;
    }
    Ok(outputs)
}

fn output_of<L: Ledger, S: SwapSlot>(
    alloc: Global,
    process: &Space<L, S>,
) -> Result<Output, AllocError>
    ensures { IfOk result (λ output. bytes_in output ≡ output_by process.now) }
{
    let bytes = Vec::from_slice(alloc, process.output())?;
    Ok(Output { bytes })
}

/// How many bytes each process has written.
pub(crate) fn lengths<L: Ledger, S: SwapSlot>(
    alloc: Global,
    processes: &[Space<L, S>],
) -> Result<Vec<usize>, AllocError>
    ensures { IfOk result (λ lengths. lengths.items ≡ map written_by processes.now) }
{
    let mut lengths = Vec::new(alloc);
    'processes: for process in processes {
        lengths.push(length_of(process))?;
    }
    Ok(lengths)
}

fn length_of<L: Ledger, S: SwapSlot>(process: &Space<L, S>) -> usize
    ensures { result ≡ written_by process.now }
{
    process.output().len()
}
