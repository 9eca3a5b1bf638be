//! The commands and what each takes.

use clap::{Arg, Command};
use guest_io::{flag_arg, option_arg, with_arg};
use guest_words::words_arg;
use std::alloc::{AllocError, Global};

pub(crate) fn guest<'a>(alloc: Global) -> Result<Command<'a>, AllocError> {
    let app = Command::new(alloc, "guest")
        .no_binary_name(true)
        .subcommand_required(true);
    let app = with(Ok(app), run(alloc));
    let app = with(app, trace(alloc));
    let app = with(app, profile(alloc));
    let app = with(app, debug(alloc));
    with(app, replay(alloc))
}

/// The program with another command, where both could be made.
fn with<'a>(
    app: Result<Command<'a>, AllocError>,
    command: Result<Command<'a>, AllocError>,
) -> Result<Command<'a>, AllocError> {
    let app = app?;
    app.subcommand(command?)
}

fn run<'a>(alloc: Global) -> Result<Command<'a>, AllocError> {
    let command = Ok(Command::new(alloc, "run"));
    let command = with_arg(command, option_arg(alloc, "frames"));
    guest_image(alloc, with_arg(command, option_arg(alloc, "limit")))
}

fn trace<'a>(alloc: Global) -> Result<Command<'a>, AllocError> {
    let command = Ok(Command::new(alloc, "trace"));
    let command = with_arg(command, option_arg(alloc, "from"));
    let command = with_arg(command, option_arg(alloc, "count"));
    let command = with_arg(command, option_arg(alloc, "hart"));
    image(alloc, with_arg(command, flag_arg(alloc, "functions")))
}

fn profile<'a>(alloc: Global) -> Result<Command<'a>, AllocError> {
    let command = Ok(Command::new(alloc, "profile"));
    let command = with_arg(command, option_arg(alloc, "limit"));
    let command = with_arg(command, option_arg(alloc, "lines"));
    image(alloc, with_arg(command, flag_arg(alloc, "callgrind")))
}

fn debug<'a>(alloc: Global) -> Result<Command<'a>, AllocError> {
    let command = Ok(Command::new(alloc, "debug"));
    let command = with_arg(command, option_arg(alloc, "frames"));
    let command = with_arg(command, option_arg(alloc, "replay"));
    image(alloc, with_arg(command, option_arg(alloc, "input")))
}

fn replay<'a>(alloc: Global) -> Result<Command<'a>, AllocError> {
    let command = Ok(Command::new(alloc, "replay"));
    guest_image(
        alloc,
        with_arg(command, Arg::new(alloc, "record").required(true)),
    )
}

/// The command with the image that it runs.
fn image<'a>(
    alloc: Global,
    command: Result<Command<'a>, AllocError>,
) -> Result<Command<'a>, AllocError> {
    with_arg(command, Arg::new(alloc, "image").required(true))
}

/// The same, with words for it.
fn guest_image<'a>(
    alloc: Global,
    command: Result<Command<'a>, AllocError>,
) -> Result<Command<'a>, AllocError> {
    with_arg(image(alloc, command), words_arg(alloc))
}
