//! What a byte is in a line of source.

ghost use Rattle.std.specs.Prelude.{◌≡◌};
ghost use Rattle.asm_lines.specs.Bytes.{class_of, is_name_byte, is_text_byte, is_escape, text_step};

/// What a byte begins, outside of quotes.
#[derive(Clone, Copy, Debug, PartialEq, Eq)]
pub enum ByteClass {
    /// Nothing: a space or a tab.
    Blank,
    /// A comment, to the end of the line.
    Comment,
    /// A text.
    Quote,
    Colon,
    Comma,
    Open,
    Close,
    /// A name or a number.
    Word,
    /// No token at all.
    Stray,
}

/// What a byte begins, outside of quotes.
#[tactic(auto, unfolding(crate::specs::Bytes::class_of))]
pub fn class_of(byte: u8) -> ByteClass
    ensures { result ≡ class_of byte }
{
    match byte {
        b' ' | b'\t' => ByteClass::Blank,
        b'#' => ByteClass::Comment,
        b'"' => ByteClass::Quote,
        b':' => ByteClass::Colon,
        b',' => ByteClass::Comma,
        b'(' => ByteClass::Open,
        b')' => ByteClass::Close,
        b'-' => ByteClass::Word,
        _ if is_name_byte(byte) => ByteClass::Word,
        _ => ByteClass::Stray,
    }
}

/// What a byte does to a text between quotes.
#[derive(Clone, Copy, Debug, PartialEq, Eq)]
pub enum TextStep {
    /// It is the closing quote.
    Closes,
    /// It is a byte of the text: a backslash, which escapes the byte after it, or another.
    Belongs { escapes: bool },
    /// It can't stand there.
    Breaks,
}

/// What a byte does to a text between quotes, where the byte before it escapes it or does not.
#[tactic(auto, unfolding(crate::specs::Bytes::text_step))]
pub fn text_step(escaped: bool, byte: u8) -> TextStep
    ensures { result ≡ text_step escaped byte }
{
    match byte {
        b'"' if !escaped => TextStep::Closes,
        b'\\' if !escaped => TextStep::Belongs { escapes: true },
        _ if escaped && is_escape(byte) => TextStep::Belongs { escapes: false },
        _ if !escaped && is_text_byte(byte) => TextStep::Belongs { escapes: false },
        _ => TextStep::Breaks,
    }
}

/// Whether a byte may stand in a name.
#[tactic(auto, unfolding(crate::specs::Bytes::is_name_byte))]
pub fn is_name_byte(byte: u8) -> bool
    ensures { result ≡ is_name_byte byte }
{
    byte.is_ascii_alphanumeric() || byte == b'_' || byte == b'.'
}

/// Whether a byte may stand between quotes, but for the quote and the backslash.
#[tactic(auto, unfolding(crate::specs::Bytes::is_text_byte))]
fn is_text_byte(byte: u8) -> bool
    ensures { result ≡ is_text_byte byte }
{
    byte.is_ascii_graphic() || byte == b' '
}

/// Whether a byte may follow a backslash between quotes.
#[tactic(auto, unfolding(crate::specs::Bytes::is_escape))]
fn is_escape(byte: u8) -> bool
    ensures { result ≡ is_escape byte }
{
    matches!(byte, b'n' | b't' | b'\\' | b'"' | b'0')
}
