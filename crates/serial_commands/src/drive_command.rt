//! `paged drive`: a machine that answers the events of a script.

ghost use Rattle.std.specs.Prelude.{◌≡◌, ◌+◌, ◌≤◌, IfErr, IfOk, None, Some, length, map};
ghost use Rattle.command_line.specs.Requests.{IsDriveInRange};
ghost use Rattle.elf_image.specs.Start.{start_of};
ghost use Rattle.image_files.specs.Faults.{IfBadLine, IsOfNoLine};
ghost use Rattle.machine_limits.specs.Limits.{most_processes};
ghost use Rattle.serial_commands.specs.Asked.{IsPlayedAsAsked, PlaysAsAsked};
ghost use Rattle.serial_commands.specs.Playing.{Plays};
ghost use Rattle.text_lines.specs.Text.{lines_of};

use crate::machine::new_machine;
use crate::replies::write_replies;
use command_line::DriveRequest;
use elf_image::Image;
use event_scripts::read_drive_script;
use image_files::{Fault, Folder, read_processes, read_text};
use machine_core::Reply;
use std::alloc::{AllocError, Global};
use std::io::Write;
use std::marker::Brand;
use std::sync::ledger::{Blank, Ledger};

/// Plays the script in a file on a new machine with a process for each image, and writes a reply for each event. A bad line
/// ends the play after the replies so far.
pub fn run_drive<'a, R: Folder + AllocGlobal, W: Write>(
    rt: &R,
    request: &DriveRequest<'a>,
    out: &mut W,
) -> Result<(), Fault<'a>>
    requires { IsDriveInRange request.now }
    ensures done { IfOk result (λ _. PlaysAsAsked R.gives request.now (W.contents out.old)
        (W.contents out.new) None) }
    ensures bad_line { IfErr result (λ fault. IfBadLine fault (λ number.
        PlaysAsAsked R.gives request.now (W.contents out.old) (W.contents out.new)
        (Some number))) }
{
    match play_file(rt, request, out)? {
        Some(number) => Err(Fault::BadLine(number)),
        None => Ok(()),
    }
}

/// Plays the script, and returns the number of its first bad line, if there is one.
fn play_file<'a, R: Folder + AllocGlobal, W: Write>(
    rt: &R,
    request: &DriveRequest<'a>,
    out: &mut W,
) -> Result<Option<u64>, Fault<'a>>
    requires { IsDriveInRange request.now }
    ensures played { IfOk result (PlaysAsAsked R.gives request.now (W.contents out.old)
        (W.contents out.new)) }
    ensures fault { IfErr result IsOfNoLine }
{
    let played = read_and_play(rt, request)?;
    write_replies(played.replies.as_slice(), out)?;
    Ok(played.bad_line)
}

/// Plays the script in a file on a new machine with a process for each image.
fn read_and_play<'a, R: Folder + AllocGlobal>(
    rt: &R,
    request: &DriveRequest<'a>,
) -> Result<Played, Fault<'a>>
    requires { IsDriveInRange request.now }
    ensures played { IfOk result (λ played.
        IsPlayedAsAsked R.gives request.now played.replies.items played.bad_line) }
    ensures fault { IfErr result IsOfNoLine }
{
    let script = read_text(rt, request.script)?;
    let processes = read_processes(rt, request.images.as_slice(), None)?;
    let script = script.as_str().as_bytes();
    Ok(play(rt.alloc(), request.frames, request.slots, processes, script)?)
}

/// What a script comes to.
#[derive(Drop)]
pub struct Played {
    pub replies: Vec<Reply>,
    /// The number of its first bad line, counted from 1.
    pub bad_line: Option<u64>,
}

/// Plays a script on a new machine, up to its first bad line.
pub fn play(
    alloc: Global,
    frames: u32,
    slots: u32,
    processes: Vec<(Image, Vec<u8>)>,
    script: &[u8],
) -> Result<Played, AllocError>
    requires least { 4 ≤ frames }
    requires most { frames ≤ 4096 }
    requires few { length processes.items ≤ most_processes }
    ensures { IfOk result (λ played. Plays frames slots (map (λ start.
        start_of start.0 start.1.items) processes.items) (lines_of script.now) played.replies.items
        played.bad_line) }
{
    let blank = Blank::new(u64::from(frames) + 1);
    play_with::<Brand>(alloc, frames, blank, slots, processes, script)
}

fn play_with<L: Ledger>(
    alloc: Global,
    frames: u32,
    blank: Blank,
    slots: u32,
    processes: Vec<(Image, Vec<u8>)>,
    script: &[u8],
) -> Result<Played, AllocError>
    requires name { blank.name ≡ L.name }
    requires parts { blank.parts ≡ L.parts }
    requires one_each { L.parts ≡ frames + 1 }
    requires least { 4 ≤ frames }
    requires most { frames ≤ 4096 }
    requires few { length processes.items ≤ most_processes }
    ensures { IfOk result (λ played. Plays frames slots (map (λ start.
        start_of start.0 start.1.items) processes.items) (lines_of script.now) played.replies.items
        played.bad_line) }
{
    let script = read_drive_script(alloc, script)?;
    let mut machine = new_machine::<L>(alloc, frames, blank, slots, processes)?;
    let replies = machine.run(alloc, script.events.as_slice())?;
    Ok(Played {
        replies,
        bad_line: script.bad_line,
    })
}
