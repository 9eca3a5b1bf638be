//! An input that asks for what it reads.

ghost use Rattle.std.specs.Prelude.{◌≡◌, Ok};

use std::io;
use std::io::{Read, Write};

/// The text before a line that a user is to type.
const PROMPT: &str = "(paged) ";

/// An input that writes a prompt to where the user sees it, each time before it waits for a line, where a user types the lines.
#[derive(Drop)]
pub struct PromptedInput<I: Read + Drop, E: Write + Drop> {
    input: I,
    prompts: E,
    is_typed: bool,
}

impl<I: Read + Drop, E: Write + Drop> PromptedInput<I, E> {
    pub fn new(input: I, prompts: E, is_typed: bool) -> Self {
        PromptedInput {
            input,
            prompts,
            is_typed,
        }
    }
}

impl<I: Read + Drop, E: Write + Drop> Read for PromptedInput<I, E> {
    ghost remaining = { λ prompted. I.remaining prompted.input };

    fn read(&mut self, buf: &mut [u8]) -> io::Result<usize> {
        if self.is_typed {
            write_prompt(&mut self.prompts, PROMPT);
        }
        let result = self.input.read(buf);
        if self.is_typed && matches!(result, Ok(0)) {
            write_prompt(&mut self.prompts, "\n");
        }
        result
    }
}

/// Writes a prompt. A user who can't see it can type all the same.
fn write_prompt<E: Write>(prompts: &mut E, text: &str) {
    let _ = write!(prompts, "{text}");
    let _ = prompts.flush();
}
