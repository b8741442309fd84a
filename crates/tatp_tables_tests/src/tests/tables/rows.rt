//! Rows as lines, and values as text.
use super::numbers;
use std::alloc::{AllocError, Global};
use std::process::Abort;
use std::test::Fail;
use tatp_tables::Row;
use tatp_texts::{push_value, read_row, read_value, row_text};

/// Lines, and the columns of the row that each is: of each kind of row the least values, the
/// greatest values and others; decimals outside their domain.
const READ: &str = "\
S 1 000000000000000 0 0 0 0 0 0 0 0 0 0 0 0 0 0 0 0 0 0 0 0 0 0 0 0 0 0 0 0 0 0 1 1 = 1 0 0 0 0 \
    0 0 0 0 0 0 0 0 0 0 0 0 0 0 0 0 0 0 0 0 0 0 0 0 0 0 0 1 1
S 1 000000000000001 0 0 0 0 0 0 0 0 0 0 0 0 0 0 0 0 0 0 0 0 0 0 0 0 0 0 0 0 0 0 1 1 = 1 1 0 0 0 \
    0 0 0 0 0 0 0 0 0 0 0 0 0 0 0 0 0 0 0 0 0 0 0 0 0 0 0 1 1
S 4294967295 999999999999999 1 1 1 1 1 1 1 1 1 1 15 15 15 15 15 15 15 15 15 15 255 255 255 255 \
    255 255 255 255 255 255 4294967295 4294967295 = 4294967295 999999999999999 1 1 1 1 1 1 1 1 1 \
    1 15 15 15 15 15 15 15 15 15 15 255 255 255 255 255 255 255 255 255 255 4294967295 \
    4294967295
A 1 1 0 0 AAA AAAAA = 1 1 0 0 4276545 280267669825
A 4294967295 4 255 254 ABC ZYXWV = 4294967295 4 255 254 4276803 388046018390
A 4294967295 4 255 255 ZZZ ZZZZZ = 4294967295 4 255 255 5921370 388062927450
F 1 1 0 0 0 AAAAA = 1 1 0 0 0 280267669825
F 1 1 1 0 0 AAAAA = 1 1 1 0 0 280267669825
F 4294967295 4 1 255 255 ZZZZZ = 4294967295 4 1 255 255 388062927450
C 1 1 0 1 000000000000000 = 1 1 0 1 0
C 1 1 8 20 000000000000888 = 1 1 8 20 888
C 7 4 16 24 999999999999999 = 7 4 16 24 999999999999999
C 4294967295 4 16 24 999999999999999 = 4294967295 4 16 24 999999999999999
C 18446744073709551615 0 1 300 000000000000000 = 18446744073709551615 0 1 300 0
";

/// Lines of rows with letters or numbers of fifteen digits outside their domain. They print in
/// decimal, and aren't read.
const PRINTED: &str = "\
A 1 1 0 0 0 AAAAA = 1 1 0 0 0 280267669825
A 1 1 0 0 AAA 4276545 = 1 1 0 0 4276545 4276545
F 1 1 1 0 0 18446744073709551615 = 1 1 1 0 0 18446744073709551615
C 1 1 8 20 1000000000000000 = 1 1 8 20 1000000000000000
S 1 1000000000000000 0 0 0 0 0 0 0 0 0 0 0 0 0 0 0 0 0 0 0 0 0 0 0 0 0 0 0 0 0 0 2 1 = 1 \
    1000000000000000 0 0 0 0 0 0 0 0 0 0 0 0 0 0 0 0 0 0 0 0 0 0 0 0 0 0 0 0 0 0 2 1
";

/// Lines that are no row.
const OTHER: &str = "
S
A
X 1 1 8 20 000000000000888
AA 1 1 0 0 AAA AAAAA
a 1 1 0 0 AAA AAAAA
A  1 1 0 0 AAA AAAAA
A 1 1  0 0 AAA AAAAA
A 01 1 0 0 AAA AAAAA
A 00 1 0 0 AAA AAAAA
A +1 1 0 0 AAA AAAAA
A -1 1 0 0 AAA AAAAA
A 1x 1 0 0 AAA AAAAA
A 1 1 0 0 AAa AAAAA
A 1 1 0 0 AAAA AAAAA
A 1 1 0 0 AA AAAAA
A 1 1 0 0 AAA AAAAAA
A 1 1 0 0 AAA AAAA
A 1 1 0 0 AAA AAA1A
A 1 1 0 0 AA[ AAAAA
A 1 1 0 0 AA@ AAAAA
A 1 1 0 0 4276545 AAAAA
 A 1 1 0 0 AAA AAAAA
A 1 1 0 0 AAA
A 1 1 0 0 AAA AAAAA 0
A 1 1 0 0 AÄA AAAAA
A 1 1 0 0 AÄ AAAAA
F 1 1 1 0 0
F 1 1 1 0 0 AAA AAAAA
C 1 1 8 20 00000000000888
C 1 1 8 20 0000000000000888
C 1 1 8 20 +00000000000888
C 1 1 8 20 00000000000088x
C 1 1 8 20 888
C 1 1 8 20
C 1 1 8 20 000000000000888 0
C 18446744073709551616 0 1 300 000000000000000
S 1 000000000000001 0 0 0 0 0 0 0 0 0 0 0 0 0 0 0 0 0 0 0 0 0 0 0 0 0 0 0 0 0 0 1
S 1 000000000000001 0 0 0 0 0 0 0 0 0 0 0 0 0 0 0 0 0 0 0 0 0 0 0 0 0 0 0 0 0 0 1 1 1
s 1 000000000000001 0 0 0 0 0 0 0 0 0 0 0 0 0 0 0 0 0 0 0 0 0 0 0 0 0 0 0 0 0 0 1 1
S 1 1 0 0 0 0 0 0 0 0 0 0 0 0 0 0 0 0 0 0 0 0 0 0 0 0 0 0 0 0 0 0 1 1
";

/// Others, with white space at their ends or in the place of a space.
static WITH_OTHER_SPACE: [&str; 7] = [
    " ",
    "A ",
    "A 1 1 0 0 AAA AAAAA ",
    "A 1 1 0 0 AAA AAAAA\r",
    "A 1 1 0 0 AAA AAAAA\n",
    "A\t1 1 0 0 AAA AAAAA",
    "A 1 1 0\t0 AAA AAAAA",
];

/// The line, and the row of its letter that has the columns after the line.
fn case(text: &str) -> Option<(&str, Row)> {
    let (line, columns) = text.split_once(" = ")?;
    let columns = numbers(columns)?;
    let [a, b, c, d, e, f, ..] = columns;
    let row = match line.as_bytes().first()? {
        b'S' => Row::S(columns),
        b'A' => Row::A([a, b, c, d, e, f]),
        b'F' => Row::F([a, b, c, d, e, f]),
        _ => Row::C([a, b, c, d, e]),
    };
    Some((line, row))
}

/// The row prints as this line.
fn expect_line(rt: &impl Abort, alloc: Global, row: &Row, line: &str) -> Result<(), AllocError> {
    assert_eq!(rt; row_text(alloc, row)?.as_str(), line);
    Ok(())
}

/// The line is this row, or none.
fn expect_row(rt: &impl Abort, line: &str, row: Option<Row>) {
    assert_eq!(rt; read_row(line), row, "{line:?}");
}

#[test]
fn rows_as_lines(rt: HostRuntime) -> Result<(), Fail> {
    for text in READ.lines() {
        let (line, row) = case(text).ok_or("a line and columns")?;
        expect_row(&rt, line, Some(row));
        expect_line(&rt, rt.alloc(), &row, line)?;
    }
    for text in PRINTED.lines() {
        let (line, row) = case(text).ok_or("a line and columns")?;
        expect_row(&rt, line, None);
        expect_line(&rt, rt.alloc(), &row, line)?;
    }
    Ok(())
}

#[test]
fn other_lines(rt: HostRuntime) {
    for line in OTHER.lines() {
        expect_row(&rt, line, None);
    }
    for line in &WITH_OTHER_SPACE {
        expect_row(&rt, line, None);
    }
}

/// A column, a text, and the value that it is there.
static VALUES: [(u8, &str, Option<u64>); 8] = [
    (0, "10", Some(10)),
    (0, "000000000000010", None),
    (1, "000000000000010", Some(10)),
    (1, "10", None),
    (38, "AAB", Some(4276546)),
    (38, "AAAAA", None),
    (45, "AAAAB", Some(280267669826)),
    (45, "AAA", None),
];

#[test]
fn values_as_text(rt: HostRuntime) -> Result<(), Fail> {
    let mut text = String::from_str(rt.alloc(), "numbers:")?;
    for (column, value) in [(0, 10), (1, 10), (38, 5918283), (50, 0), (51, 7)] {
        text.push_str(" ")?;
        push_value(&mut text, column, value)?;
    }
    let wanted = "numbers: 10 000000000000010 ZNK 000000000000000 7";
    assert_eq!(rt; text.as_str(), wanted);
    Ok(())
}

#[test]
fn texts_as_values(rt: HostRuntime) {
    for (column, text, value) in &VALUES {
        assert_eq!(rt; read_value(*column, text), *value);
    }
}
