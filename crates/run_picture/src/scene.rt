//! What happened, with a picture of the machine that it left.

ghost use Rattle.std.specs.Prelude.{[], IfOk};
ghost use Rattle.run_picture.specs.Films.{IsScene};
ghost use Rattle.run_picture.specs.Pictures.{IsPictureOf};

use crate::named::Named;
use crate::output::Output;
use crate::picture::{Picture, picture_of};
use clock_policy::Clock;
use machine_core::{Core, Event, Reply};
use std::alloc::{AllocError, Global};
use std::sync::ledger::Ledger;
use swap_slots::SwapSlot;

/// An event with its reply, and the machine after it.
#[derive(Drop)]
pub struct Scene {
    pub event: Event,
    pub reply: Reply,
    pub picture: Picture,
}

/// The machine before its first event, a scene for each event, and what each process has written at the end.
#[derive(Drop)]
pub struct Film {
    pub frames: u32,
    pub first: Picture,
    pub scenes: Vec<Scene>,
    pub outputs: Vec<Output>,
}

/// The picture of a machine of which no page was named yet.
pub(crate) fn opening<L: Ledger, S: SwapSlot, C: Clock>(
    alloc: Global,
    core: &Core<L, S, C>,
) -> Result<Picture, AllocError>
    ensures { IfOk result (IsPictureOf core.now []) }
{
    picture_of(alloc, core, [].as_slice())
}

/// Applies an event, and takes the picture of the machine that it leaves.
pub(crate) fn next_scene<L: Ledger, S: SwapSlot, C: Clock>(
    alloc: Global,
    core: &mut Core<L, S, C>,
    named: &mut Named,
    event: Event,
) -> Result<Scene, AllocError>
    ensures { IfOk result (IsScene S.content S.honest S.failures event core.old core.new) }
{
    let reply = core.apply(event);
    named.heed(event, reply)?;
    let picture = picture_of(alloc, core, named.keys())?;
    Ok(Scene {
        event,
        reply,
        picture,
    })
}
