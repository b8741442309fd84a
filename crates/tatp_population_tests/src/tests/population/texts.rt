//! Texts of errors.

use std::test::Fail;
use tatp_audits::Verdict;
use tatp_extents::{CheckpointError, OpenError};
use tatp_population::ReadError;

#[test]
fn texts_of_errors(rt: HostRuntime) -> Result<(), Fail> {
    for (error, text) in [
        (ReadError::BadLine(7), "5 BadLine 7"),
        (ReadError::NoMemory, "46 NoMemory"),
    ] {
        assert_eq!(rt; format!(in rt.alloc(); "{error}")?.as_str(), text);
    }
    for (error, text) in [
        (OpenError::TooMany, "28 TooMany"),
        (
            OpenError::NotClean(Verdict::NumberTwice(1)),
            "27 NotClean A2 000000000000001",
        ),
        (OpenError::NoMemory, "46 NoMemory"),
    ] {
        assert_eq!(rt; format!(in rt.alloc(); "{error}")?.as_str(), text);
    }
    for (error, text) in [
        (CheckpointError::LogEnded, "54 LogEnded"),
        (CheckpointError::ChapterCountFull, "55 ChapterCountFull"),
        (CheckpointError::NoMemory, "46 NoMemory"),
    ] {
        assert_eq!(rt; format!(in rt.alloc(); "{error}")?.as_str(), text);
    }
    Ok(())
}
