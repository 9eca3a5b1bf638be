//! A debugger over a process on flat memory and over one on paged memory.

use crate::programs::image_of;
use debug_core::{DebugRefusal, DebugStep, Debugger, Target, Why};
use flat_machine::FlatProcess;
use std::alloc::{AllocError, Global};
use test_guests::STORES_A_BYTE;

/// Whether a debugger over flat memory stops where it is asked to.
pub(crate) fn debugs_on_flat_memory(alloc: Global) -> Result<bool, AllocError> {
    let image = image_of(alloc, STORES_A_BYTE)?;
    let process = FlatProcess::new(alloc, &image, Vec::new(alloc))?;
    stops_as_told(alloc, Debugger::new(process))
}

/// A break at the entry, a step, a watch of the word that the fourth step changes, and the end.
fn stops_as_told<T: Target>(alloc: Global, debugger: Debugger<T>) -> Result<bool, AllocError> {
    let mut debugger = debugger;
    if debugger.add_break(0x1_0000) != Ok(0) || go(&mut debugger, 100)? != Why::Break(0) {
        return Ok(false);
    }
    if step(&mut debugger)? != Ok(DebugStep::Ran) || debugger.add_watch(0x1_1000, 4) != Ok(1) {
        return Ok(false);
    }
    if go(&mut debugger, 100)? != Why::Watch(1) || !is_stored(alloc, &mut debugger)? {
        return Ok(false);
    }
    if go(&mut debugger, 0)? != Why::Limit || go(&mut debugger, 100)? != Why::Ended {
        return Ok(false);
    }
    Ok(debugger.step(0) == Err(DebugRefusal::Ended))
}

/// Why the debugger stops. Where it was refused memory, it goes on once more: the steps before the refusal are kept.
fn go<T: Target>(debugger: &mut Debugger<T>, limit: u64) -> Result<Why, AllocError> {
    if let Ok((why, _, _)) = debugger.go(limit) {
        return Ok(why);
    }
    let (why, _, _) = debugger.go(limit)?;
    Ok(why)
}

fn step<T: Target>(
    debugger: &mut Debugger<T>,
) -> Result<Result<DebugStep, DebugRefusal>, AllocError> {
    let mut answer = debugger.step(0);
    if answer == Err(DebugRefusal::NoMemory) {
        answer = debugger.step(0);
    }
    match answer {
        Err(DebugRefusal::NoMemory) => Err(AllocError),
        answer => Ok(answer),
    }
}

/// Whether the byte is where it was stored.
fn is_stored<T: Target>(alloc: Global, debugger: &mut Debugger<T>) -> Result<bool, AllocError> {
    match debugger.mem(alloc, 0x1_1000, 4) {
        Ok(bytes) => Ok(bytes.as_slice() == [0u8, 0, 0, 5].as_slice()),
        Err(DebugRefusal::NoMemory) => Err(AllocError),
        Err(_) => Ok(false),
    }
}
