//! Lines, fields and numbers, by hand.

use text_lines::{first_line, is_blank, next_field, number};

/// Whether the lines of a text are these.
fn has_lines(text: &[u8], lines: &[&[u8]]) -> bool {
    let mut rest = text;
    for line in lines {
        if rest.is_empty() {
            return false;
        }
        let (first, after) = first_line(rest);
        if first != *line {
            return false;
        }
        rest = after;
    }
    rest.is_empty()
}

/// Whether the fields of a line are these.
fn has_fields(line: &[u8], fields: &[&[u8]]) -> bool {
    let mut rest = line;
    for field in fields {
        let Some((first, after)) = next_field(rest) else {
            return false;
        };
        if first != *field {
            return false;
        }
        rest = after;
    }
    next_field(rest).is_none()
}

#[test]
fn splits_lines(rt: HostRuntime) {
    assert!(rt; has_lines(b"", &[]));
    assert!(rt; has_lines(b"\n", &[b""]));
    assert!(rt; has_lines(b"a\nb", &[b"a", b"b"]));
    assert!(rt; has_lines(b"a\r\n\r\r\n\rb\n\n", &[b"a", b"\r", b"\rb", b""]));
    assert!(rt; has_lines(b"a\n\r", &[b"a", b"\r"]));
}

#[test]
fn splits_fields(rt: HostRuntime) {
    assert!(rt; has_fields(b" \t ", &[]));
    assert!(rt; has_fields(b"\tab  c\r\t", &[b"ab", b"c\r"]));
    assert!(rt; is_blank(b'\t'));
}

#[test]
fn reads_numbers(rt: HostRuntime) {
    for (field, value) in [
        (b"".as_slice(), None),
        (b"007", Some(7)),
        (b"999999999999999999", Some(999_999_999_999_999_999)),
        (b"0000000000000000000", None),
        (b"-1", None),
        (b"1:", None),
        (b"/1", None),
    ] {
        assert!(rt; number(field) == value);
    }
}
