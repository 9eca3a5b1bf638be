//! Guests whose references are wanted.

ghost use Rattle.std.specs.Prelude.{◌≡◌, ◌≤◌, IfOk, length, map};
ghost use Rattle.elf_image.specs.Start.{start_of};
ghost use Rattle.machine_limits.specs.Limits.{most_processes};
ghost use Rattle.policies_cli.specs.Asked.{AreGuests, opened};

use elf_image::Image;
use flat_machine::FlatProcess;
use image_files::{Fault, Folder, read_processes};
use machine_limits::MOST_PROCESSES;
use policies_requests::GuestRequest;
use std::alloc::{AllocError, Global};

/// The guests that a request names, 64 at most.
pub fn read_guests<'a, R: Folder + AllocGlobal>(
    rt: &R,
    request: &GuestRequest<'a>,
) -> Result<Vec<FlatProcess>, Fault<'a>>
    ensures few { IfOk result (λ processes. length processes.items ≤ most_processes) }
    ensures asked { IfOk result (λ processes. AreGuests R.gives request.now processes.items) }
{
    let starts = read_processes(rt, request.images.as_slice(), request.input)?;
    let processes = opened(rt.alloc(), starts)?;
    if processes.len() > MOST_PROCESSES {
        return Err(Fault::BadUsage);
    }
    Ok(processes)
}

/// A process for each image and input.
fn opened(alloc: Global, starts: Vec<(Image, Vec<u8>)>) -> Result<Vec<FlatProcess>, AllocError>
    ensures { IfOk result (λ processes. processes.items ≡ map opened (map (λ start.
        start_of start.0 start.1.items) starts.items)) }
{
    let mut processes = Vec::new(alloc);
    'starts: for (image, input) in starts {
        let process = FlatProcess::new(alloc, &image, input)?;
        processes.push(process)?;
    }
    Ok(processes)
}
