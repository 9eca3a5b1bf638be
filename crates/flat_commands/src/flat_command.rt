//! `paged flat`: an image run on flat memory.

ghost use Rattle.std.specs.Prelude.{◌≡◌, IfOk, OnOk};
ghost use Rattle.std.specs.Io.KnownBytes.{Appends};
ghost use Rattle.flat_machine.specs.Process.{opening};
ghost use Rattle.process_text.specs.ExitStatus.{ending_of, exit_status};
ghost use Rattle.process_text.specs.ProcessText.{process_text};
ghost use Rattle.flat_commands.specs.FlatRun.{FlatAsAsked, IsOpened, RunsToEnd};

use command_line::FlatRequest;
use elf_image::Image;
use flat_machine::FlatProcess;
use image_files::{Fault, Folder, read_image, read_input};
use process_text::{end_of, status_of_end, write_process};
use std::alloc::Global;
use std::io::Write;

/// Runs an image on flat memory, writes how it went, and returns the exit status. The image is read before the input.
pub fn run_flat<'a, R: Folder + AllocGlobal, W: Write>(
    rt: &R,
    request: &FlatRequest<'a>,
    out: &mut W,
) -> Result<u8, Fault<'a>>
    ensures { IfOk result (FlatAsAsked R.gives request.now
        (W.contents out.old) (W.contents out.new)) }
{
    let mut process = begin(rt, request)?;
    run_to_end(&mut process, u64::from(request.limit), out)
}

/// The process of an image and an input.
///
/// It is on the heap. On the stack it could be a multiple of 4096 bytes from what the inner loop writes on its own frame at each
/// instruction. Processors that first compare the lower bits of addresses would then let a read of one wait for the other.
fn begin<'a, R: Folder + AllocGlobal>(
    rt: &R,
    request: &FlatRequest<'a>,
) -> Result<Box<FlatProcess>, Fault<'a>>
    ensures { IfOk result (λ process. IsOpened R.gives request.now process.value) }
{
    let image = read_image(rt, request.image)?;
    let input = read_input(rt, request.input)?;
    open(rt.alloc(), &image, input)
}

fn open<'a>(alloc: Global, image: &Image, input: Vec<u8>) -> Result<Box<FlatProcess>, Fault<'a>>
    ensures { IfOk result (λ process. process.value ≡ opening image.now input.items) }
{
    match Box::new(alloc, FlatProcess::new(alloc, image, input)?) {
        Ok(process) => Ok(process),
        Err(_) => Err(Fault::NoMemory),
    }
}

/// Runs a process until it has ended or the limit is reached, writes how it went, and returns the exit status.
fn run_to_end<'a, W: Write>(
    process: &mut FlatProcess,
    limit: u64,
    out: &mut W,
) -> Result<u8, Fault<'a>>
    ensures { IfOk result (RunsToEnd limit process.old (W.contents out.old) (W.contents out.new)) }
{
    match process.run_for(limit) {
        Ok(steps) => write_end(process, steps, out),
        Err(_) => Err(Fault::NoMemory),
    }
}

/// Writes how a process went, after so many steps, and returns the exit status.
fn write_end<'a, W: Write>(process: &FlatProcess, steps: u64, out: &mut W) -> Result<u8, Fault<'a>>
    ensures told { OnOk result (Appends (W.contents out.old) (W.contents out.new)
        (process_text 0 process.now.environment.output (ending_of process.now.ending) steps)) }
    ensures status { IfOk result (λ status. status ≡ exit_status (ending_of process.now.ending)) }
{
    let end = end_of(process.end());
    write_process(0, process.output(), end, steps, out)?;
    Ok(status_of_end(end))
}
