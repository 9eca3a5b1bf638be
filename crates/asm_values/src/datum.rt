//! What a directive puts into the data while labels are still names, and its length in bytes.

ghost use Rattle.std.specs.Prelude.{◌≡◌};
ghost use Rattle.asm_values.specs.Lengths.{datum_length};

use asm_lines::Span;

/// What a directive puts into the data.
#[derive(Drop)]
pub enum Datum<'a> {
    /// A word that is a number.
    Word(u32),
    /// A word that is a label's address.
    Pointer(Span<'a>),
    /// Two bytes.
    Half(u16),
    /// One byte.
    Byte(u8),
    /// A number of zero bytes.
    Zeros(u32),
}

impl<'a> Datum<'a> {
    /// How many bytes of data the part takes.
    pub fn length(&self) -> u32
        ensures { result ≡ datum_length self.now }
    {
        match self {
            Datum::Word(_) | Datum::Pointer(_) => 4,
            Datum::Half(_) => 2,
            Datum::Byte(_) => 1,
            Datum::Zeros(count) => *count,
        }
    }
}
