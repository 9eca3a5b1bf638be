//! A program and its input.

ghost use Rattle.std.specs.Prelude.{◌≡◌, IfOk};
ghost use Rattle.flat_machine.specs.Process.{opening};

use elf_image::Image;
use flat_machine::FlatProcess;
use std::alloc::{AllocError, Global};

/// A program and the bytes that it reads.
#[derive(Drop)]
pub struct Program {
    pub image: Image,
    pub input: Vec<u8>,
}

impl Program {
    /// The process at its beginning.
    pub fn begin(&self, alloc: Global) -> Result<FlatProcess, AllocError>
        ensures { IfOk result (λ process. process ≡ opening self.now.image self.now.input.items) }
    {
        let input = Vec::from_slice(alloc, self.input.as_slice())?;
        FlatProcess::new(alloc, &self.image, input)
    }
}
