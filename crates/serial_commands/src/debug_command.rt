//! `paged debug`: a debugger that answers the lines of its input.

ghost use Rattle.std.specs.Prelude.{◌≡◌, ◌+◌, ◌≤◌, None, Some, Ok, Err, IfErr, IfOk, IfSome};
ghost use Rattle.command_line.specs.Requests.{IsDebugInRange, IsFrom, least_frames, most_frames};
ghost use Rattle.debug_core.specs.Debugging.{DebuggerValue};
ghost use Rattle.debug_session.specs.Conversation.{HasConversed};
ghost use Rattle.debug_session.specs.declared.conversation.SessionFault.TheVariants.{BadLine};
ghost use Rattle.image_files.specs.Faults.{IfBadLine};
ghost use Rattle.serial_commands.specs.Debugged.{new_debugger, ConversesOver, DebugsAsAsked};
ghost use Rattle.serial_commands.specs.Debugged.{IfLinesEnd, IsTold};

use clock_ring::ClockRing;
use command_line::DebugRequest;
use debug_core::{Debugger, Target};
use debug_session::{Dialect, SessionFault, converse};
use elf_image::Image;
use flat_machine::FlatProcess;
use image_files::{Fault, Folder, memory_slots, read_image};
use paged_target::PagedTarget;
use std::alloc::Global;
use std::io::{Read, Write};
use std::marker::Brand;
use std::sync::ledger::{Blank, Ledger};

/// The slots of a debugger's machine: one for each page that a process may have.
const SLOTS: u32 = 4096;

/// Answers the lines of an input with a debugger of a new process, which runs an image on no input: on flat memory, or on as many
/// frames as are asked for. It ends with the lines, or at one that is bad, which is then the fault.
pub fn run_debug<'a, R: Folder + AllocGlobal, I: Read + Drop, W: Write>(
    rt: &R,
    request: &DebugRequest<'a>,
    input: I,
    out: &mut W,
) -> Result<(), Fault<'a>>
    requires { IsDebugInRange request.now }
    ensures done { IfOk result (λ _. DebugsAsAsked R.gives request.now (I.remaining input)
        (W.contents out.old) (W.contents out.new) (Ok tt)) }
    ensures bad_line { IfErr result (λ fault. IfBadLine fault (λ number.
        DebugsAsAsked R.gives request.now (I.remaining input) (W.contents out.old)
        (W.contents out.new) (Err (BadLine number)))) }
{
    let image = read_image(rt, request.image)?;
    let none = Vec::new(rt.alloc());
    match debug_on(
        rt.alloc(),
        Dialect::Plain,
        request.frames,
        image,
        none,
        input,
        out,
    ) {
        Ok(()) => Ok(()),
        Err(fault) => Err(fault_of(fault)),
    }
}

/// The fault of a conversation as one of the command.
fn fault_of<'a>(fault: SessionFault) -> Fault<'a>
    ensures { IsTold fault result }
{
    match fault {
        SessionFault::BadLine(number) => Fault::BadLine(number),
        SessionFault::NoMemory => Fault::NoMemory,
        SessionFault::CannotRead => Fault::CannotRead("standard input"),
        SessionFault::CannotWrite => Fault::CannotWrite,
    }
}

/// Answers the lines of an input that a dialect has with a debugger of a new process, which runs an image on an input of its own: on
/// flat memory, or on so many frames. It ends with the lines, or at one that is bad, which is then the fault.
pub fn debug_on<I: Read + Drop, W: Write>(
    alloc: Global,
    dialect: Dialect,
    frames: Option<u32>,
    image: Image,
    given: Vec<u8>,
    input: I,
    out: &mut W,
) -> Result<(), SessionFault>
    requires { IfSome frames (IsFrom least_frames most_frames) }
    ensures { IfLinesEnd result (ConversesOver dialect frames image given.items (I.remaining input)
        (W.contents out.old) (W.contents out.new)) }
{
    match frames {
        None => debug_flat(alloc, dialect, &image, given, input, out),
        Some(frames) => {
            let blank = Blank::new(u64::from(frames) + 1);
            debug_paged::<Brand, I, W>(alloc, dialect, frames, blank, image, given, input, out)
        }
    }
}

fn debug_flat<I: Read + Drop, W: Write>(
    alloc: Global,
    dialect: Dialect,
    image: &Image,
    given: Vec<u8>,
    input: I,
    out: &mut W,
) -> Result<(), SessionFault>
    ensures { IfLinesEnd result (ConversesOver dialect None image.now given.items
        (I.remaining input) (W.contents out.old) (W.contents out.new)) }
{
    let Ok(process) = FlatProcess::new(alloc, image, given) else {
        return Err(SessionFault::NoMemory);
    };
    debug(alloc, dialect, process, input, out)
}

fn debug_paged<L: Ledger, I: Read + Drop, W: Write>(
    alloc: Global,
    dialect: Dialect,
    frames: u32,
    blank: Blank,
    image: Image,
    given: Vec<u8>,
    input: I,
    out: &mut W,
) -> Result<(), SessionFault>
    requires name { blank.name ≡ L.name }
    requires parts { blank.parts ≡ L.parts }
    requires one_each { L.parts ≡ frames + 1 }
    requires least { 4 ≤ frames }
    requires most { frames ≤ 4096 }
    ensures { IfLinesEnd result (ConversesOver dialect (Some frames) image given.items
        (I.remaining input) (W.contents out.old) (W.contents out.new)) }
{
    let Ok(slots) = memory_slots(alloc, SLOTS) else {
        return Err(SessionFault::NoMemory);
    };
    let Ok(target) = PagedTarget::<L, ClockRing>::new(alloc, frames, blank, slots, image, given)
    else {
        return Err(SessionFault::NoMemory);
    };
    debug(alloc, dialect, target, input, out)
}

/// Answers the lines of an input with a new debugger of a target.
fn debug<T: Target, I: Read + Drop, W: Write>(
    alloc: Global,
    dialect: Dialect,
    target: T,
    input: I,
    out: &mut W,
) -> Result<(), SessionFault>
    ensures { (end : DebuggerValue T) × HasConversed dialect T.shown T.limits result
        (I.remaining input) (new_debugger T.shown target) (W.contents out.old) end (W.contents out.new) }
{
    let mut debugger = Debugger::new(target);
    converse(alloc, dialect, &mut debugger, input, out)
}
