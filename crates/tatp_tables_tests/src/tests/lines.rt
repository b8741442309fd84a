//! Lines of texts, and of bytes; numbers.

use tatp_lines::{Lines, next_line, read_number};

// a text, and its first three lines
const TEXTS: [(&str, [Option<&str>; 3]); 8] = [
    ("", [None, None, None]),
    ("a", [Some("a"), None, None]),
    ("a\n", [Some("a"), None, None]),
    ("\n", [Some(""), None, None]),
    ("\n\n", [Some(""), Some(""), None]),
    ("a\n\nb", [Some("a"), Some(""), Some("b")]),
    ("a\r\nb\r", [Some("a\r"), Some("b\r"), None]),
    ("a\n\r\n", [Some("a"), Some("\r"), None]),
];

#[test]
fn lines_of_texts(rt: HostRuntime) {
    for (text, wanted) in TEXTS {
        let mut lines = Lines::new(text);
        for line in wanted {
            assert_eq!(rt; lines.next(), line);
        }
        assert_eq!(rt; lines.next(), None);
    }
}

#[test]
fn lines_of_bytes(rt: HostRuntime) {
    for (text, wanted) in TEXTS {
        let mut rest = text.as_bytes();
        for line in wanted {
            let found = next_line(rest);
            assert_eq!(rt;
                found.map(|parts| parts.0),
                line.map(|text| text.as_bytes())
            );
            rest = match found {
                Some(parts) => parts.1,
                None => rest,
            };
        }
        assert!(rt; next_line(rest).is_none());
    }
    assert_eq!(rt;
        next_line(&[255, 10, 10]),
        Some(([255].as_slice(), [10].as_slice()))
    );
}

#[test]
fn numbers(rt: HostRuntime) {
    for (text, number) in [
        ("0", Some(0)),
        ("10", Some(10)),
        ("18446744073709551615", Some(u64::MAX)),
        ("18446744073709551616", None),
        ("", None),
        ("00", None),
        ("01", None),
        ("+1", None),
        ("-1", None),
        ("1x", None),
        (" 1", None),
    ] {
        assert_eq!(rt; read_number(text), number, "{text:?}");
    }
}
