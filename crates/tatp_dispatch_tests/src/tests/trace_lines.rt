//! Lines of `trace`, read and printed.
use std::test::Fail;
use tatp_trace_lines::{read_trace_line, trace_line_text};

/// One of each kind, and those at their bounds.
static LINES: [&str; 21] = [
    "submit 3 UPDATE_LOCATION 000000000000129 7",
    "submit 0 GET_ACCESS_DATA 1 5",
    "raw 0 4 id 2 2 7",
    "raw 1 9 number 5",
    "raw 0 18446744073709551615 id 0 1 2 3 4 5 6 7 8",
    "begin 0",
    "deny 1",
    "step 18446744073709551615",
    "one 2",
    "steps 0 1",
    "steps 0 4096",
    "take 0 3",
    "give 1 3",
    "route 3 65535",
    "checkpoint 18446744073709551615 0",
    "stop 0",
    "resume 0",
    "break 0 3 9",
    "clear 0 3 9",
    "look 7",
    "home 0 129",
];

#[test]
fn lines_print_as_they_are_read(rt: HostRuntime) -> Result<(), Fail> {
    for line in &LINES {
        match read_trace_line(line) {
            Some(read) => {
                assert_eq!(rt; trace_line_text(rt.alloc(), &read)?.as_str(), *line);
            }
            None => assert!(rt; false),
        }
    }
    Ok(())
}
