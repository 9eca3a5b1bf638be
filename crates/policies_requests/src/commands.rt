//! The commands and what each takes.

use clap::{Arg, ArgAction, Command};
use std::alloc::{AllocError, Global};

/// What `--format` may be.
const FORMATS: &str = "text, csv, oraclegeneral, lackey or dynamorio";

/// What it may be where a trace is written.
const WRITTEN_FORMATS: &str = "text, csv or oraclegeneral";

/// What `--progress` does.
const PROGRESS: &str = "shows how far the count is";

/// A command, where it could be made.
type Made<'a> = Result<Command<'a>, AllocError>;

pub(crate) fn policies<'a>(alloc: Global) -> Made<'a> {
    let app = Ok(
        Command::new(alloc, "policies")
            .no_binary_name(true)
            .subcommand_required(true),
    );
    let app = with(app, misses(alloc));
    let app = with(app, trace(alloc));
    let app = with(app, replay(alloc));
    let app = with(app, curve(alloc));
    let app = with(app, write_backs(alloc));
    with(app, totals(alloc))
}

/// The program with another command, where both could be made.
fn with<'a>(app: Made<'a>, command: Made<'a>) -> Made<'a> {
    let app = app?;
    app.subcommand(command?)
}

fn misses<'a>(alloc: Global) -> Made<'a> {
    guest(alloc, table(alloc, named(alloc, "misses")))
}

fn trace<'a>(alloc: Global) -> Made<'a> {
    with_option(
        alloc,
        guest(alloc, named(alloc, "trace")),
        "format",
        WRITTEN_FORMATS,
    )
}

fn replay<'a>(alloc: Global) -> Made<'a> {
    let command = table(alloc, named(alloc, "replay"));
    let command = with_option(
        alloc,
        command,
        "skip",
        "plays so many references first that do not count",
    );
    let command = with_flag(
        alloc,
        command,
        "optimum",
        "counts the optimum too, of the whole string",
    );
    with_trace(alloc, command)
}

fn curve<'a>(alloc: Global) -> Made<'a> {
    let command = named(alloc, "curve");
    let command = with_option(
        alloc,
        command,
        "sample",
        "looks at one page in so many, and estimates",
    );
    let command = with_flag(
        alloc,
        command,
        "working-sets",
        "counts working sets, by windows in place of frames",
    );
    let command = with_flag(
        alloc,
        command,
        "optimum",
        "counts the optimum too, of the whole string",
    );
    with_trace(alloc, printed(alloc, command))
}

fn write_backs<'a>(alloc: Global) -> Made<'a> {
    let command = table(alloc, named(alloc, "write-backs"));
    with_trace(alloc, command)
}

fn totals<'a>(alloc: Global) -> Made<'a> {
    with_trace(
        alloc,
        with_flag(alloc, named(alloc, "totals"), "progress", PROGRESS),
    )
}

/// A command that takes nothing yet.
fn named<'a>(alloc: Global, name: &'a str) -> Made<'a> {
    Ok(Command::new(alloc, name))
}

/// The command with what says which table is printed, and how.
fn table<'a>(alloc: Global, command: Made<'a>) -> Made<'a> {
    let command = with_option(
        alloc,
        command,
        "frames",
        "numbers of frames, ranges as 4-64 or 4-64x2, parts of the pages as 0.1%",
    );
    let command = with_option(
        alloc,
        command,
        "policies",
        "names, with what is asked for as 2q:kin=25; or all",
    );
    let command = with_option(alloc, command, "seed", "the seed of the policy random");
    printed(alloc, command)
}

/// The command with the options for how counts are printed, and whether their progress is reported.
fn printed<'a>(alloc: Global, command: Made<'a>) -> Made<'a> {
    let command = with_flag(
        alloc,
        command,
        "ratio",
        "shows which part of the references missed",
    );
    let command = with_flag(
        alloc,
        command,
        "csv",
        "prints numbers with commas between them",
    );
    with_flag(alloc, command, "progress", PROGRESS)
}

/// The command with what says which guests run, and how.
fn guest<'a>(alloc: Global, command: Made<'a>) -> Made<'a> {
    let command = with_option(
        alloc,
        command,
        "slice",
        "how many instructions each live hart runs in turn",
    );
    let command = with_option(
        alloc,
        command,
        "limit",
        "after how many instructions the string ends",
    );
    let command = with_option(
        alloc,
        command,
        "input",
        "the file whose bytes the first process reads",
    );
    let command = with_flag(
        alloc,
        command,
        "data",
        "only the pages that instructions load and store",
    );
    let command = with_flag(
        alloc,
        command,
        "instructions",
        "only the pages of the instructions",
    );
    with_arg(
        command,
        Arg::new(alloc, "image")
            .required(true)
            .action(ArgAction::Append),
    )
}

/// The command with the name of a trace, and what says how it is read.
fn with_trace<'a>(alloc: Global, command: Made<'a>) -> Made<'a> {
    let command = with_option(alloc, command, "format", FORMATS);
    let command = with_option(
        alloc,
        command,
        "columns",
        "of a csv: its columns by names or numbers, as id=lba or time=1,id=2",
    );
    let command = with_option(alloc, command, "ids", "of a csv: words or numbers");
    let command = with_option(
        alloc,
        command,
        "page-size",
        "of a csv with offsets: how many units a page has",
    );
    let command = with_option(
        alloc,
        command,
        "writes",
        "of a csv with an op: the words that mean a write",
    );
    with_arg(command, Arg::new(alloc, "trace").required(true))
}

/// The command with an option that has a value, and its line of help.
fn with_option<'a>(alloc: Global, command: Made<'a>, name: &'a str, help: &'a str) -> Made<'a> {
    with_arg(command, Arg::new(alloc, name).long(name).help(help))
}

/// The command with an option that has no value, and its line of help.
fn with_flag<'a>(alloc: Global, command: Made<'a>, name: &'a str, help: &'a str) -> Made<'a> {
    with_arg(
        command,
        Arg::new(alloc, name)
            .long(name)
            .action(ArgAction::SetTrue)
            .help(help),
    )
}

/// The command with another argument, where it could be made.
fn with_arg<'a>(command: Made<'a>, arg: Arg<'a>) -> Made<'a> {
    command?.arg(arg)
}
