//! What a command takes.

ghost use Rattle.std.specs.Prelude.{◌≡◌, false};
ghost use Rattle.clap.specs.Simple.{App, app_of, with_rule, with_subcommand};
ghost use Rattle.clap.specs.Walk.{rule_of};
ghost use Rattle.clap.specs.declared.builder.command.Command.TheViews.{out-Command};
ghost use Rattle.command_line.specs.Commands.{flag_rule, option_rule};
ghost use Rattle.command_line.specs.Reads.{Reads};
ghost use Rattle.guest_io.specs.Words.{bare_guest};

use clap::{Arg, ArgAction, Command};
use std::alloc::{AllocError, Global};

/// The program `guest` with one command.
pub fn with_command<'a>(
    alloc: Global,
    command: Result<Command<'a>, AllocError>,
) -> Result<Command<'a>, AllocError>
    ensures { (app : App) → Reads app command.entry →
        Reads (with_subcommand bare_guest app.top) result }
{
    let command = command?;
    bare(alloc).subcommand(command)
}

/// The program with no command.
#[tactic(auto, unfolding(crate::specs::Words::bare_guest))]
fn bare<'a>(alloc: Global) -> Command<'a>
    ensures read_as { app_of result ≡ bare_guest }
    ensures local { (out-Command result).has_globals ≡ false }
{
    Command::new(alloc, "guest")
        .no_binary_name(true)
        .subcommand_required(true)
}

/// A command with another argument, where it could be made.
pub fn with_arg<'a>(
    command: Result<Command<'a>, AllocError>,
    arg: Arg<'a>,
) -> Result<Command<'a>, AllocError>
    ensures { (app : App) → Reads app command.entry → arg.entry.global ≡ false →
        Reads (with_rule app (rule_of arg.entry)) result }
{
    command?.arg(arg)
}

/// An option with a value.
pub fn option_arg<'a>(alloc: Global, name: &'a str) -> Arg<'a>
    ensures read_as { rule_of result ≡ option_rule name.now }
    ensures local { result.global ≡ false }
{
    Arg::new(alloc, name).long(name)
}

/// An option that has no value.
pub fn flag_arg<'a>(alloc: Global, name: &'a str) -> Arg<'a>
    ensures read_as { rule_of result ≡ flag_rule name.now }
    ensures local { result.global ≡ false }
{
    Arg::new(alloc, name).long(name).action(ArgAction::SetTrue)
}
