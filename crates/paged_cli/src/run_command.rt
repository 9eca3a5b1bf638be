//! `paged run`: images run to their end on one machine, on one thread or on several.

ghost use Rattle.std.specs.Prelude.{IfOk};
ghost use Rattle.command_line.specs.Requests.{IsRunInRange};
ghost use Rattle.paged_cli.specs.Asked.{RunsByThreading};

use crate::threads_command::run_on_threads;
use command_line::{RunRequest, Threading};
use image_files::{Fault, Folder};
use serial_commands::run_serially;
use std::io::Write;
use std::sync::Wait;
use std::thread::Threads;

/// Runs a process for each image on a new machine until all have ended, on the threads that are asked for, writes how it went, and
/// answers the exit status.
pub fn run_machines<'a, R: Folder + AllocGlobal + Threads + Wait + Sync, O: Write, E: Write + Send>(
    rt: &R,
    request: &RunRequest<'a>,
    out: &mut O,
    err: &mut E,
) -> Result<u8, Fault<'a>>
where
    R::File: Send,
    requires { IsRunInRange request.now }
    ensures { IfOk result (λ status. RunsByThreading R.gives R.makes request.now.threading
        request.now (O.contents out.old) (O.contents out.new) status) }
{
    match request.threading {
        Threading::Serial => run_serially(rt, request, out),
        Threading::Workers {
            workers,
            status,
            ahead,
        } => run_on_threads(rt, request, workers, status, ahead, out, err),
    }
}
