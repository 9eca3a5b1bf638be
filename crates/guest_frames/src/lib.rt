//! Programs on frames: a machine of one process.
#![tactic(auto)]

mod machine;
mod playing;

use crate::machine::run_on_frames;
use debug_session::{Dialect, SessionFault};
use elf_image::Image;
use flat_machine::End;
use guest_cli::FrameMachine;
use image_files::Fault;
pub use playing::play_process;
use serial_commands::debug_on;
use std::alloc::Global;
use std::io::{Read, Write};

/// The machine that brings pages in and lets them go by CLOCK-Pro.
#[derive(Clone, Copy, Debug)]
pub struct PagedMachine;

impl FrameMachine for PagedMachine {
    ghost use Rattle.std.specs.Prelude.{Some};
    ghost use Rattle.serial_commands.specs.Debugged.{ConversesOver, IfLinesEnd};
    ghost use Rattle.debug_session.specs.declared.lines.Dialect.TheVariants.{Fuller};
    ghost use Rattle.guest_frames.specs.FrameRuns.{RunsOnFrames};

    ghost runs = { λ frames limit start end steps. RunsOnFrames frames limit start end steps };

    ghost debugs = { λ frames image given lines old new result.
        IfLinesEnd result (ConversesOver Fuller (Some frames) image given lines old new) };

    fn run<'a, W: Write>(
        &self,
        alloc: Global,
        frames: u32,
        image: Image,
        input: Vec<u8>,
        limit: u64,
        out: &mut W,
    ) -> Result<(End, u64), Fault<'a>> {
        run_on_frames(alloc, frames, image, input, limit, out)
    }

    fn debug<I: Read + Drop, W: Write>(
        &self,
        alloc: Global,
        frames: u32,
        image: Image,
        input: Vec<u8>,
        lines: I,
        out: &mut W,
    ) -> Result<(), SessionFault> {
        debug_on(
            alloc,
            Dialect::Fuller,
            Some(frames),
            image,
            input,
            lines,
            out,
        )
    }
}
