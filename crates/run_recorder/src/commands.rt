//! What the command takes.

use clap::{Arg, Command};
use guest_io::{flag_arg, option_arg, with_arg, with_command};
use guest_words::words_arg;
use std::alloc::{AllocError, Global};

/// The program, of which this is one command.
pub(crate) fn guest<'a>(alloc: Global) -> Result<Command<'a>, AllocError> {
    with_command(alloc, record(alloc))
}

fn record<'a>(alloc: Global) -> Result<Command<'a>, AllocError> {
    let command = Ok(Command::new(alloc, "record"));
    let command = with_arg(command, option_arg(alloc, "frames"));
    let command = with_arg(command, option_arg(alloc, "slots"));
    let command = with_arg(command, option_arg(alloc, "slice"));
    let command = with_arg(command, option_arg(alloc, "workers"));
    let command = with_arg(command, option_arg(alloc, "limit"));
    let command = with_arg(command, flag_arg(alloc, "ahead"));
    let command = with_arg(command, flag_arg(alloc, "serial"));
    let command = with_arg(command, Arg::new(alloc, "record").short('o').required(true));
    let command = with_arg(command, Arg::new(alloc, "image").required(true));
    with_arg(command, words_arg(alloc))
}
