//! The words of a line, one at a time, separated by spaces and tabs.

ghost use Rattle.std.specs.Prelude.{◌≡◌, ◌<◌, ◌∷◌, [], length, position, IfSome, MatchOption};
ghost use Rattle.text_lines.specs.Text.{words_of, parts_at, is_blank};

/// The first word of a line, and what follows it. Words are parted by spaces and tabs.
pub fn next_word(line: &[u8]) -> Option<(&[u8], &[u8])>
    ensures words { MatchOption result (words_of line.now ≡ []) (λ cut. words_of line.now ≡
        cut.0.now ∷ words_of cut.1.now) }
    ensures shorter { IfSome result (λ cut. length cut.1.now < length line.now) }
{
    let mut rest = line;
    while !rest.is_empty() {
        let (part, others) = split_part(rest);
        if !part.is_empty() {
            return Some((part, others));
        }
        rest = others;
    }
    None
}

/// What is before the first blank, and what is after it.
#[tactic(auto, using(crate::proofs::Parts::parts_at_end_found, crate::proofs::Parts::parts_at_no_end))]
fn split_part(text: &[u8]) -> (&[u8], &[u8])
    requires { 0 < length text.now }
    ensures parts { parts_at is_blank text.now ≡ result.0.now ∷ parts_at is_blank result.1.now }
    ensures shorter { length result.1.now < length text.now }
{
    match blank(text) {
        Some(end) => (&text[..end], &text[end + 1..]),
        None => (text, &[]),
    }
}

/// Where the first space or tab is.
fn blank(text: &[u8]) -> Option<usize>
    ensures { result ≡ position is_blank text.now }
{
    text.iter().position(|byte| *byte == b' ' || *byte == b'\t')
}
