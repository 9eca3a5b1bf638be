//! Lines and words of a text.

use text_lines::{next_line, next_word};

#[test]
fn a_text_has_its_lines(rt: HostRuntime) {
    let mut rest = b"a\r\n\nb".as_slice();
    for expected in [b"a\r".as_slice(), b"".as_slice(), b"b".as_slice()] {
        let Some((line, more)) = next_line(rest) else {
            assert!(rt; false);
            return;
        };
        assert!(rt; line == expected);
        rest = more;
    }
    assert!(rt; next_line(rest).is_none());
}

#[test]
fn a_line_has_its_words(rt: HostRuntime) {
    let mut rest = b" \tadmit\t 0/1 ".as_slice();
    for expected in [b"admit".as_slice(), b"0/1".as_slice()] {
        let Some((word, more)) = next_word(rest) else {
            assert!(rt; false);
            return;
        };
        assert!(rt; word == expected);
        rest = more;
    }
    assert!(rt; next_word(rest).is_none());
}
