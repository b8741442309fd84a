//! The domain of each of the 51 columns, at and around each bound; the columns that are fixed.
//!
//! Letters are packed as bytes, the first letter highest: AAA is 65 * 65536 + 65 * 256 + 65.
use std::process::Abort;
use std::test::Fail;
use tatp_lines::read_number;
use tatp_tables::{in_domain, is_fixed};

/// Columns, and values that each of them accepts: numbers of a subscriber and locations; numbers of
/// fifteen digits; bits; hexadecimal digits; bytes; types; three letters (AAA, ZZZ, ABC, MNO, AZA);
/// five letters (AAAAA, ZZZZZ, ABCDE, QRSTU); start times; end times.
const ACCEPTED: &str = "\
0 32 33 34 40 46: 1 2 4294967294 4294967295
1 50: 0 1 999999999999998 999999999999999
2 3 4 5 6 7 8 9 10 11 42: 0 1
12 13 14 15 16 17 18 19 20 21: 0 1 2 14 15
22 23 24 25 26 27 28 29 30 31 36 37 43 44: 0 1 2 254 255
35 41 47: 1 2 3 4
38: 4276545 5921370 4276803 5066319 4282945
39 45: 280267669825 388062927450 280284578885 349273543765
48: 0 8 16
49: 1 2 12 23 24
";

/// The same columns, and values that each of them refuses.
///
/// Of three letters: 0, 1, the most; '@' for each letter of AAA and of ZZZ; '[' for each letter of
/// AAA and of ZZZ; aaa; A, AA, ZZ, AA before and A A round a zero byte; AAAA, ZZZZ, AAA before and
/// after a zero byte, AAA with a bit above it; AAAAA, ZZZZZ.
///
/// Of five letters: 0, 1, the most; '@' for each letter of AAAAA and of ZZZZZ; '[' for each letter
/// of AAAAA and of ZZZZZ; A, AA, AAA, AAAA; six, seven and eight times A, ZZZZZZ, AAAAA before and
/// after a zero byte, AAAAA with a bit above it.
const REFUSED: &str = "\
0 32 33 34 40 46: 0 4294967296 4294967297 18446744073709551615
1 50: 1000000000000000 1000000000000001 18446744073709551615
2 3 4 5 6 7 8 9 10 11 42: 2 3 256 18446744073709551615
12 13 14 15 16 17 18 19 20 21: 16 17 256 18446744073709551615
22 23 24 25 26 27 28 29 30 31 36 37 43 44: 256 257 65536 18446744073709551615
35 41 47: 0 5 6 18446744073709551615
38: 0 1 18446744073709551615 4211009 4276289 4276544 4217434 5914714 5921344 5980481 4283201 \
    4276571 5986906 5921626 5921371 6381921 65 16705 23130 4276480 4259905 1094795585 1515870810 \
    1094795520 21053761 4299243841 9223372036859052353 280267669825 388062927450
39 45: 0 1 18446744073709551615 275972702529 280250892609 280267604289 280267669569 \
    280267669824 276393777754 387626719834 388061223514 388062920794 388062927424 391936819521 \
    280703877441 280269373761 280267676481 280267669851 392357894746 388079704666 388062992986 \
    388062927706 388062927451 65 16705 4276545 1094795585 71748523475265 18367622009667905 \
    4702111234474983745 99344109427290 71748523475200 1379779297601 281755244380481 \
    9223372317122445633
48: 1 2 4 7 9 15 17 24 32 18446744073709551615
49: 0 25 26 256 18446744073709551615
";

/// The column accepts each of the values, or refuses it.
fn try_values(
    rt: &impl Abort,
    column: u8,
    values: &str,
    accepts: bool,
) -> Result<(), &'static str> {
    for value in values.split_whitespace() {
        let value = read_number(value).ok_or("a value")?;
        assert_eq!(rt; in_domain(column, value), accepts, "{column} {value}");
    }
    Ok(())
}

/// Each column of a line accepts each value, or refuses it.
fn try_lines(rt: &impl Abort, lines: &str, accepts: bool) -> Result<(), &'static str> {
    for line in lines.lines() {
        let (columns, values) = line.split_once(": ").ok_or("columns and values")?;
        for column in columns.split_whitespace() {
            let column = column.parse::<u8>().map_err(|_| "a column")?;
            try_values(rt, column, values, accepts)?;
        }
    }
    Ok(())
}

#[test]
fn each_column_has_its_domain(rt: HostRuntime) -> Result<(), Fail> {
    try_lines(&rt, ACCEPTED, true)?;
    try_lines(&rt, REFUSED, false)?;
    for column in 51..=255 {
        for value in [0, 1, 8, 255, 4276545, 280267669825, u64::MAX] {
            assert!(rt; !in_domain(column, value), "no column {column}");
        }
    }
    for column in 0..=255 {
        let fixed = [0, 1, 34, 35, 40, 41, 46, 47, 48].contains(&column);
        assert_eq!(rt; is_fixed(column), fixed, "{column}");
    }
    Ok(())
}
