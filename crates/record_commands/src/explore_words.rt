//! What `guest explore` takes.

use clap::{Arg, Command};
use guest_io::{flag_arg, option_arg, with_arg, with_command};
use std::alloc::{AllocError, Global};

/// The program, of which this is one command.
pub(crate) fn guest<'a>(alloc: Global) -> Result<Command<'a>, AllocError> {
    let command = Ok(Command::new(alloc, "explore"));
    let command = with_arg(command, option_arg(alloc, "runs"));
    let command = with_arg(command, option_arg(alloc, "seed"));
    let command = with_arg(command, option_arg(alloc, "seeds"));
    let command = with_arg(command, option_arg(alloc, "by"));
    let command = with_arg(command, option_arg(alloc, "depth"));
    let command = with_arg(command, option_arg(alloc, "until"));
    let command = with_arg(command, option_arg(alloc, "limit"));
    let command = with_arg(command, option_arg(alloc, "save"));
    let command = with_arg(command, flag_arg(alloc, "csv"));
    let image = Arg::new(alloc, "image").required(true);
    with_command(alloc, with_arg(command, image))
}
