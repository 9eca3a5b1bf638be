//! A stretch of the source text, without a copy of its bytes.

ghost use Rattle.std.specs.Prelude.{◌≡◌};

use std::marker::Model;

/// A stretch of the source: a name, or what is between quotes.
#[derive(Drop)]
pub struct Span<'a> {
    bytes: &'a [u8],
}

impl<'a> Model for Span<'a> {
    ghost use Rattle.std.specs.Prelude.{ℕ, List};

    ghost Value = { List ℕ };

    ghost view = { λ span. span.bytes.now };
}

impl<'a> Span<'a> {
    /// The stretch of these bytes.
    pub fn new(bytes: &'a [u8]) -> Self
        ensures { result ≡ bytes.now }
    {
        Span { bytes }
    }

    /// Its bytes.
    pub fn bytes(&self) -> &'a [u8]
        ensures { result.now ≡ self.now }
    {
        self.bytes
    }

    /// The same stretch once more.
    pub fn again(&self) -> Span<'a>
        ensures { result ≡ self.now }
    {
        Span { bytes: self.bytes }
    }
}
