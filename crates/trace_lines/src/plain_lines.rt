//! Lines as other programs write them.

ghost use Rattle.std.specs.Prelude.{◌≡◌, drop};
ghost use Rattle.std.specs.Char.{is_ascii_whitespace};
ghost use Rattle.std.specs.List.{prefix_len};
ghost use Rattle.std.specs.Io.BufRead.{strip_last};
ghost use Rattle.trace_lines.specs.PlainLines.{is_left_out, plain_line, tells_nothing, without_mark};

/// A line by its number, without the carriage return at its end; the first one also without a byte order mark in front.
#[inline(always)]
#[tactic(auto, unfolding(crate::specs::PlainLines::plain_line))]
pub(crate) fn plain_line(number: u64, line: &[u8]) -> &[u8]
    ensures { result.now ≡ plain_line number line.now }
{
    without_return(without_mark(number, line))
}

#[tactic(auto, unfolding(crate::specs::PlainLines::without_mark))]
fn without_mark(number: u64, line: &[u8]) -> &[u8]
    ensures { result.now ≡ without_mark number line.now }
{
    if number == 1 && line.starts_with(b"\xEF\xBB\xBF".as_slice()) {
        &line[3..]
    } else {
        line
    }
}

fn without_return(line: &[u8]) -> &[u8]
    ensures { result.now ≡ strip_last 13 line.now }
{
    let length = line.len();
    if length == 0 {
        return line;
    }
    if line[length - 1] != b'\r' {
        return line;
    }
    &line[..length - 1]
}

/// Whether a line is blank, or a remark, which begins with `#`.
#[inline(always)]
#[tactic(auto, unfolding(crate::specs::PlainLines::is_left_out))]
pub(crate) fn is_left_out(line: &[u8]) -> bool
    ensures { result ≡ is_left_out line.now }
{
    tells_nothing(without_space(line))
}

/// A line without the white space in front.
fn without_space(line: &[u8]) -> &[u8]
    ensures { result.now ≡ drop (prefix_len is_ascii_whitespace line.now) line.now }
{
    line.trim_ascii_start()
}

#[tactic(auto, unfolding(crate::specs::PlainLines::tells_nothing))]
fn tells_nothing(text: &[u8]) -> bool
    ensures { result ≡ tells_nothing text.now }
{
    text.is_empty() || text.starts_with(b"#".as_slice())
}
