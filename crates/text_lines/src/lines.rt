//! The lines of a text, one at a time, separated by line feeds.

ghost use Rattle.std.specs.Prelude.{◌≡◌, ◌<◌, ◌∷◌, [], length, position, IfSome, MatchOption};
ghost use Rattle.text_lines.specs.Text.{lines_of, is_line_end};

/// The first line of a text, without its line end, and what follows it. A line ends with a line feed, which the last one
/// may do without; a carriage return is a byte of its line.
#[tactic(auto, using(crate::proofs::Parts::parts_at_end_found, crate::proofs::Parts::parts_at_no_end))]
pub fn next_line(text: &[u8]) -> Option<(&[u8], &[u8])>
    ensures lines { MatchOption result (lines_of text.now ≡ []) (λ cut. lines_of text.now ≡
        cut.0.now ∷ lines_of cut.1.now) }
    ensures shorter { IfSome result (λ cut. length cut.1.now < length text.now) }
{
    if text.is_empty() {
        return None;
    }
    match line_end(text) {
        Some(end) => Some((&text[..end], &text[end + 1..])),
        None => Some((text, &[])),
    }
}

/// Where the first line feed is.
fn line_end(text: &[u8]) -> Option<usize>
    ensures { result ≡ position is_line_end text.now }
{
    text.iter().position(|byte| *byte == b'\n')
}
