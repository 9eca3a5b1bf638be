//! The commands and what each takes.

ghost use Rattle.std.specs.Prelude.{◌≡◌, IfOk, codes, false};
ghost use Rattle.clap.specs.Simple.{App, app_of, new_app, with_rule, with_subcommand};
ghost use Rattle.command_line.specs.Reads.{Reads};
ghost use Rattle.clap.specs.Walk.{rule_of};
ghost use Rattle.clap.specs.declared.builder.command.Command.TheViews.{out-Command};
ghost use Rattle.command_line.specs.Commands.{paged_app, bare_app, asm_app, flat_app, clock_app, drive_app, run_app, debug_app, file_rule, files_rule, option_rule, flag_rule, with_size};

use clap::{Arg, ArgAction, Command};
use std::alloc::{AllocError, Global};

pub fn paged<'a>(alloc: Global) -> Result<Command<'a>, AllocError>
    ensures read_as { IfOk result (λ command. app_of command ≡ paged_app) }
{
    let app = with(Ok(bare(alloc)), asm(alloc));
    let app = with(app, flat(alloc));
    let app = with(app, clock(alloc));
    let app = with(app, drive(alloc));
    let app = with(app, run(alloc));
    with(app, debug(alloc))
}

/// The program with another command, where both could be made.
fn with<'a>(
    app: Result<Command<'a>, AllocError>,
    command: Result<Command<'a>, AllocError>,
) -> Result<Command<'a>, AllocError>
    ensures { (above : App) (below : App) → Reads above app.entry → Reads below command.entry →
        Reads (with_subcommand above below.top) result }
{
    let app = app?;
    app.subcommand(command?)
}

fn bare<'a>(alloc: Global) -> Command<'a>
    ensures read_as { app_of result ≡ bare_app }
    ensures local { (out-Command result).has_globals ≡ false }
{
    Command::new(alloc, "paged")
        .no_binary_name(true)
        .subcommand_required(true)
}

fn asm<'a>(alloc: Global) -> Result<Command<'a>, AllocError>
    ensures { Reads asm_app result }
{
    let command = named(alloc, "asm");
    let command = with_file(alloc, command, "source");
    with_file(alloc, command, "target")
}

fn flat<'a>(alloc: Global) -> Result<Command<'a>, AllocError>
    ensures { Reads flat_app result }
{
    let command = named(alloc, "flat");
    let command = with_option(alloc, command, "limit");
    let command = with_option(alloc, command, "input");
    with_file(alloc, command, "image")
}

fn clock<'a>(alloc: Global) -> Result<Command<'a>, AllocError>
    ensures { Reads clock_app result }
{
    let command = named(alloc, "clock");
    let command = with_file(alloc, command, "frames");
    with_file(alloc, command, "script")
}

fn drive<'a>(alloc: Global) -> Result<Command<'a>, AllocError>
    ensures { Reads drive_app result }
{
    let command = sized(alloc, named(alloc, "drive"));
    let command = with_file(alloc, command, "script");
    with_files(alloc, command, "image")
}

fn run<'a>(alloc: Global) -> Result<Command<'a>, AllocError>
    ensures { Reads run_app result }
{
    let command = paced(alloc, sized(alloc, named(alloc, "run")));
    let command = with_option(alloc, command, "input");
    let command = with_option(alloc, command, "swap");
    with_files(alloc, flagged(alloc, command), "image")
}

/// The command with the options that say who runs, and how long.
fn paced<'a>(
    alloc: Global,
    command: Result<Command<'a>, AllocError>,
) -> Result<Command<'a>, AllocError>
    ensures { (app : App) → Reads app command.entry → Reads (with_rule (with_rule (with_rule app
        (option_rule (codes "workers"))) (option_rule (codes "slice"))) (option_rule (codes "limit")))
        result }
{
    let command = with_option(alloc, command, "workers");
    let command = with_option(alloc, command, "slice");
    with_option(alloc, command, "limit")
}

/// The command with the flags of a run.
fn flagged<'a>(
    alloc: Global,
    command: Result<Command<'a>, AllocError>,
) -> Result<Command<'a>, AllocError>
    ensures { (app : App) → Reads app command.entry → Reads (with_rule (with_rule (with_rule app
        (flag_rule (codes "serial"))) (flag_rule (codes "status"))) (flag_rule (codes "ahead")))
        result }
{
    let command = with_flag(alloc, command, "serial");
    let command = with_flag(alloc, command, "status");
    with_flag(alloc, command, "ahead")
}

fn debug<'a>(alloc: Global) -> Result<Command<'a>, AllocError>
    ensures { Reads debug_app result }
{
    let command = named(alloc, "debug");
    let command = with_option(alloc, command, "frames");
    with_file(alloc, command, "image")
}

/// A command that takes nothing yet.
fn named<'a>(alloc: Global, name: &'a str) -> Result<Command<'a>, AllocError>
    ensures { Reads (new_app name.now) result }
{
    Ok(Command::new(alloc, name))
}

/// The command with options for the size of its machine.
fn sized<'a>(
    alloc: Global,
    command: Result<Command<'a>, AllocError>,
) -> Result<Command<'a>, AllocError>
    ensures { (app : App) → Reads app command.entry → Reads (with_size app) result }
{
    let command = with_option(alloc, command, "frames");
    with_option(alloc, command, "slots")
}

/// The command with a word that has to be there, where it could be made.
fn with_file<'a>(
    alloc: Global,
    command: Result<Command<'a>, AllocError>,
    name: &'a str,
) -> Result<Command<'a>, AllocError>
    ensures { (app : App) → Reads app command.entry →
        Reads (with_rule app (file_rule name.now)) result }
{
    let command = command?;
    command.arg(file(alloc, name))
}

fn file<'a>(alloc: Global, name: &'a str) -> Arg<'a>
    ensures read_as { rule_of result ≡ file_rule name.now }
    ensures local { result.global ≡ false }
{
    Arg::new(alloc, name).required(true)
}

/// The command with words of which one has to be there, where it could be made.
fn with_files<'a>(
    alloc: Global,
    command: Result<Command<'a>, AllocError>,
    name: &'a str,
) -> Result<Command<'a>, AllocError>
    ensures { (app : App) → Reads app command.entry →
        Reads (with_rule app (files_rule name.now)) result }
{
    let command = command?;
    command.arg(files(alloc, name))
}

fn files<'a>(alloc: Global, name: &'a str) -> Arg<'a>
    ensures read_as { rule_of result ≡ files_rule name.now }
    ensures local { result.global ≡ false }
{
    Arg::new(alloc, name)
        .required(true)
        .action(ArgAction::Append)
}

/// The command with an option with a value, where it could be made.
fn with_option<'a>(
    alloc: Global,
    command: Result<Command<'a>, AllocError>,
    name: &'a str,
) -> Result<Command<'a>, AllocError>
    ensures { (app : App) → Reads app command.entry →
        Reads (with_rule app (option_rule name.now)) result }
{
    let command = command?;
    command.arg(option(alloc, name))
}

fn option<'a>(alloc: Global, name: &'a str) -> Arg<'a>
    ensures read_as { rule_of result ≡ option_rule name.now }
    ensures local { result.global ≡ false }
{
    Arg::new(alloc, name).long(name)
}

/// The command with an option that has no value, where it could be made.
fn with_flag<'a>(
    alloc: Global,
    command: Result<Command<'a>, AllocError>,
    name: &'a str,
) -> Result<Command<'a>, AllocError>
    ensures { (app : App) → Reads app command.entry →
        Reads (with_rule app (flag_rule name.now)) result }
{
    let command = command?;
    command.arg(flag(alloc, name))
}

fn flag<'a>(alloc: Global, name: &'a str) -> Arg<'a>
    ensures read_as { rule_of result ≡ flag_rule name.now }
    ensures local { result.global ≡ false }
{
    Arg::new(alloc, name).long(name).action(ArgAction::SetTrue)
}
