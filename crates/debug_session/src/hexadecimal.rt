//! Bytes and words in hexadecimal digits, their letters capital.

use std::fmt;

/// A byte, in two digits.
#[derive(Clone, Copy)]
pub(crate) struct HexByte(pub u8);

impl fmt::Display for HexByte {
    ghost use Rattle.std.specs.Prelude.{Some};
    ghost use Rattle.debug_session.specs.ReplyText.{byte_text};

    ghost output = { λ byte. Some (byte_text byte.0) };

    #[tactic(auto, using(std::proofs::lemmas::Fmt::hex_byte))]
    fn fmt<W: fmt::Write>(&self, f: &mut fmt::Formatter<W>) -> fmt::Result {
        let byte = self.0;
        write!(f, "{byte:02X}")
    }
}

/// A word, in eight digits after `0x`.
#[derive(Clone, Copy)]
pub(crate) struct HexWord(pub u32);

impl fmt::Display for HexWord {
    ghost use Rattle.std.specs.Prelude.{Some};
    ghost use Rattle.debug_session.specs.ReplyText.{word_text};

    ghost output = { λ word. Some (word_text word.0) };

    fn fmt<W: fmt::Write>(&self, f: &mut fmt::Formatter<W>) -> fmt::Result {
        let word = self.0;
        let first = HexByte((word / 0x100_0000) as u8);
        let second = HexByte((word / 0x1_0000 % 256) as u8);
        let third = HexByte((word / 0x100 % 256) as u8);
        let fourth = HexByte((word % 256) as u8);
        write!(f, "0x{first}{second}{third}{fourth}")
    }
}
