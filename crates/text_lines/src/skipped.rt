//! Which lines of a script are skipped: empty ones, and remarks, which begin with `#`.

ghost use Rattle.std.specs.Prelude.{◌↔◌, IsTrue};
ghost use Rattle.text_lines.specs.Lines.{IsSkipped};

/// Whether a line is empty or a remark.
pub fn is_skipped(line: &[u8]) -> bool
    ensures { IsTrue result ↔ IsSkipped line.now }
{
    match line.first() {
        None | Some(b'#') => true,
        Some(_) => false,
    }
}
