//! The items of a program: labels, parts of the text and parts of the data.

ghost use Rattle.std.specs.Prelude.{◌≡◌, ◌≤◌};
ghost use Rattle.rv_asm.specs.Program.{item_length};

use asm_lines::Span;
use asm_statements::{CodePart, Section};
use asm_values::Datum;

/// A label of a source, or a part that it puts into a section, with the number of its line.
#[derive(Drop)]
pub(crate) enum Item<'a> {
    Label { section: Section, name: Span<'a> },
    InText { line: usize, code: CodePart<'a> },
    InData { line: usize, datum: Datum<'a> },
}

impl<'a> Item<'a> {
    /// How many bytes the item takes in a section.
    pub(crate) fn length(&self, section: Section) -> u32
        ensures { result ≡ item_length section self.now }
    {
        match (self, section) {
            (Item::InText { code, .. }, Section::Text) => code.length(),
            (Item::InData { datum, .. }, Section::Data) => datum.length(),
            _ => 0,
        }
    }
}
