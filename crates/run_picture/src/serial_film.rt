//! The film of a run of the driver, written while it is played.

ghost use Rattle.std.specs.Prelude.{ℕ, IfOk, max};
ghost use Rattle.serial_driver.specs.Endings.{HasEnded};
ghost use Rattle.serial_driver.specs.Limit.{EndsByLimit};

use crate::film_json::{write_outputs, write_scene, write_still};
use crate::named::Named;
use crate::output::outputs_of;
use crate::picture::{Picture, picture_of};
use crate::scene::{Scene, opening};
use clock_policy::Clock;
use image_files::Fault;
use machine_core::{Core, Event, Reply};
use serial_driver::SerialRun;
use std::alloc::Global;
use std::io::Write;
use std::sync::ledger::Ledger;
use swap_slots::SwapSlot;

/// How far a film is: the pages that it has named, how many scenes there are, and the last picture.
#[derive(Drop)]
struct Shown {
    named: Named,
    scenes: u64,
    last: Picture,
}

/// Plays a machine in slices of so many instructions until each process has ended, or so many events have happened. It writes the scenes
/// as they come: the machine before the first event, each event with what it leaves, and the machine once the run is closed.
pub fn film_run<'a, L: Ledger, S: SwapSlot, C: Clock, W: Write>(
    alloc: Global,
    core: &mut Core<L, S, C>,
    slice: u32,
    limit: u64,
    out: &mut W,
) -> Result<(), Fault<'a>>
    ensures limited { IfOk result (λ _. EndsByLimit S.content S.honest S.failures
        (max slice 1) limit core.old core.new) }
    ensures ended { IfOk result (λ _. (number : ℕ) → HasEnded core.new number) }
{
    let mut run = SerialRun::new(core, slice, limit);
    let mut shown = begin(alloc, core, out)?;
    'events: while let Some((event, reply)) = run.next(core) {
        show(alloc, core, &mut shown, event, reply, out)?;
    }
    run.close(core);
    end(alloc, core, &shown, out)
}

/// Writes the machine before its first event.
fn begin<'a, L: Ledger, S: SwapSlot, C: Clock, W: Write>(
    alloc: Global,
    core: &Core<L, S, C>,
    out: &mut W,
) -> Result<Shown, Fault<'a>> {
    let first = opening(alloc, core)?;
    write_still(&first, out)?;
    Ok(Shown {
        named: Named::new(alloc),
        scenes: 0,
        last: first,
    })
}

/// Writes an event that happened, with the machine that it left.
fn show<'a, L: Ledger, S: SwapSlot, C: Clock, W: Write>(
    alloc: Global,
    core: &Core<L, S, C>,
    shown: &mut Shown,
    event: Event,
    reply: Reply,
    out: &mut W,
) -> Result<(), Fault<'a>> {
    shown.named.heed(event, reply)?;
    let scene = Scene {
        event,
        reply,
        picture: picture_of(alloc, core, shown.named.keys())?,
    };
    write_scene(shown.scenes, &scene, &shown.last, out)?;
    shown.scenes = shown.scenes.saturating_add(1);
    shown.last = scene.picture;
    Ok(())
}

/// Writes the machine that a run has left, and what its processes have written.
fn end<'a, L: Ledger, S: SwapSlot, C: Clock, W: Write>(
    alloc: Global,
    core: &Core<L, S, C>,
    shown: &Shown,
    out: &mut W,
) -> Result<(), Fault<'a>> {
    let picture = picture_of(alloc, core, shown.named.keys())?;
    write_still(&picture, out)?;
    let outputs = outputs_of(alloc, core.spaces())?;
    write_outputs(outputs.as_slice(), out)?;
    Ok(())
}
