//! A machine of one process, played to its end.

ghost use Rattle.std.specs.Prelude.{IfOk};
ghost use Rattle.elf_image.specs.Start.{start_of};
ghost use Rattle.guest_cli.specs.FlatRuns.{TellsFlatRun};
ghost use Rattle.guest_frames.specs.FrameRuns.{RunsOnFrames};

use crate::playing::play_process;
use elf_image::Image;
use flat_machine::{End, KillCause};
use image_files::Fault;
use std::alloc::Global;
use std::io::Write;

/// The slots of the machine: one for each page that a process may have.
const SLOTS: u32 = 4096;

/// How many instructions of a hart come before the next hart's turn.
const SLICE: u32 = 1000;

/// Runs an image on an input, on a machine of so many frames, until it has ended or so many steps are done. Writes its output, and
/// returns its ending and how many steps it took.
pub(crate) fn run_on_frames<'a, W: Write>(
    alloc: Global,
    frames: u32,
    image: Image,
    input: Vec<u8>,
    limit: u64,
    out: &mut W,
) -> Result<(End, u64), Fault<'a>>
    ensures flat { IfOk result (λ done. TellsFlatRun limit (start_of image input.items)
        (W.contents out.old) (W.contents out.new) done.0 done.1) }
    ensures runs { IfOk result (λ done. RunsOnFrames frames limit (start_of image input.items)
        done.0 done.1) }
{
    let process = play_process(alloc, frames, SLOTS, SLICE, image, input, limit)?;
    out.write_all(process.output.as_slice())?;
    out.flush()?;
    let end = process.end.unwrap_or(End::Killed(KillCause::Limit));
    Ok((end, process.steps))
}
