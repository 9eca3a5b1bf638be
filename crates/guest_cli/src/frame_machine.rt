//! Programs on frames.

ghost use Rattle.std.specs.Prelude.{◌≤◌, IfOk};
ghost use Rattle.elf_image.specs.Start.{start_of};
ghost use Rattle.guest_cli.specs.FlatRuns.{TellsFlatRun};

use debug_session::SessionFault;
use elf_image::Image;
use flat_machine::End;
use image_files::Fault;
use std::alloc::Global;
use std::io::{Read, Write};

/// What runs a program on frames.
pub trait FrameMachine {
    ghost use Rattle.std.specs.Prelude.{ℕ, List, Option, Result};
    ghost use Rattle.elf_image.specs.Image.{ImageContent};
    ghost use Rattle.elf_image.specs.Start.{Start};
    ghost use Rattle.flat_machine.specs.declared.end.End.{End};
    ghost use Rattle.debug_session.specs.declared.conversation.SessionFault.{SessionFault};

    /// How a program may end on a machine of so many frames, up to so many steps: the ending, and after how many steps.
    ghost runs: { ℕ → ℕ → Start → End → ℕ → Type 0 };

    /// How a debugger on so many frames, of an image on an input, answers lines: it has these lines to read, this output before and
    /// after, and this result.
    ghost debugs: { ℕ → ImageContent → List ℕ → Option (List ℕ) → Option (List ℕ) → Option (List ℕ)
        → Result (Unit {0}) SessionFault → Type 0 };

    /// Runs an image on an input on so many frames, 4 to 4096, up to so many steps. Once the program has ended, writes what it wrote, and
    /// returns how it ended and after how many steps. A run of the flat machine gives the same result. If the limit ended the program,
    /// it did as many steps as are allowed.
    fn run<'a, W: Write>(
        &self,
        alloc: Global,
        frames: u32,
        image: Image,
        input: Vec<u8>,
        limit: u64,
        out: &mut W,
    ) -> Result<(End, u64), Fault<'a>>
        ensures flat { IfOk result (λ done. TellsFlatRun limit (start_of image input.items)
            (W.contents out.old) (W.contents out.new) done.0 done.1) }
        ensures runs { IfOk result (λ done. runs frames limit (start_of image input.items)
            done.0 done.1) };

    /// Answers lines with a debugger of an image on an input, on so many frames.
    fn debug<I: Read + Drop, W: Write>(
        &self,
        alloc: Global,
        frames: u32,
        image: Image,
        input: Vec<u8>,
        lines: I,
        out: &mut W,
    ) -> Result<(), SessionFault>
        requires least { 4 ≤ frames }
        requires most { frames ≤ 4096 }
        ensures { debugs frames image input.items (I.remaining lines) (W.contents out.old)
            (W.contents out.new) result };
}
