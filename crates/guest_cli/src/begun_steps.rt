//! A program whose steps are to be traced or counted.

ghost use Rattle.std.specs.Prelude.{IfOk};
ghost use Rattle.guest_cli.specs.BegunSteps.{BeginsSteps};

use flat_machine::FlatProcess;
use guest_io::read_whole;
use guest_steps::StepString;
use image_files::{Fault, Folder, read_image};
use std::io::Read;

/// The steps of an image on an input, on flat memory, up to so many; and the bytes of the image's
/// file, which name its functions. The image is read before the input.
pub(crate) fn begin_steps<'a, R: Folder + AllocGlobal, I: Read + Drop>(
    rt: &R,
    image: &'a str,
    input: I,
    limit: u64,
) -> Result<(StepString, Vec<u8>), Fault<'a>>
    ensures { IfOk result (λ begun. BeginsSteps R.gives image.now limit (I.remaining input)
        begun.0 begun.1.items) }
{
    let alloc = rt.alloc();
    let program = read_image(rt, image)?;
    let file = rt.read(image)?;
    let input = read_whole(alloc, input)?;
    let process = FlatProcess::new(alloc, &program, input)?;
    Ok((StepString::new(process, limit), file))
}
