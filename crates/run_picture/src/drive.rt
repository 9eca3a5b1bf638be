//! The film of a script's events.

ghost use Rattle.std.specs.Prelude.{◌≡◌, [], IfOk, map};
ghost use Rattle.run_picture.specs.Films.{IsFilm};
ghost use Rattle.run_picture.specs.Pictures.{IsPictureOf, bytes_in, output_by};

use crate::named::Named;
use crate::output::outputs_of;
use crate::scene::{Film, next_scene, opening};
use clock_policy::Clock;
use machine_core::{Core, Event};
use std::alloc::{AllocError, Global};
use std::sync::ledger::Ledger;
use swap_slots::SwapSlot;

/// Applies events to a machine, one after another, and takes a picture before the first and after each.
pub fn film<L: Ledger, S: SwapSlot, C: Clock>(
    alloc: Global,
    core: &mut Core<L, S, C>,
    events: &[Event],
) -> Result<Film, AllocError>
    ensures first { IfOk result (λ film. IsPictureOf core.old [] film.first) }
    ensures scenes { IfOk result (λ film. IsFilm S.content S.honest S.failures events.now
        film.scenes.items core.old core.new) }
    ensures frames { IfOk result (λ film. film.frames ≡ core.new.pager.pager.size) }
    ensures outputs { IfOk result (λ film. map bytes_in film.outputs.items ≡
        map output_by core.new.processes) }
{
    let mut named = Named::new(alloc);
    let first = opening(alloc, core)?;
    let mut scenes = Vec::new(alloc);
    'events: for event in events {
        let scene = next_scene(alloc, core, &mut named, *event)?;
        scenes.push(scene)?;
    }
    Ok(Film {
        frames: core.size(),
        first,
        scenes,
        outputs: outputs_of(alloc, core.spaces())?,
    })
}
