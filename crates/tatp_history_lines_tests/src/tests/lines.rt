//! The lines of two clients, one after another.

use std::alloc::AllocError;
use std::test::Fail;
use tatp_calls::{BadArgument, Call, Outputs, Reply};
use tatp_history::{Line, Recorded};
use tatp_history_lines::{LineFault, OpenCalls};

/// What a text says, which is then followed.
fn said(opened: &mut OpenCalls, text: &str) -> Result<Result<Option<Line>, LineFault>, AllocError> {
    let said = opened.read(text);
    if let Ok(Some(line)) = &said {
        opened.follow(line)?;
    }
    Ok(said)
}

const GET_ACCESS_DATA: Call = Call::GetAccessData {
    s_id: 7,
    ai_type: 2,
};

fn answered(client: u64, reply: Reply) -> Line {
    Line::End {
        client,
        recorded: Recorded::Exactly(reply),
    }
}

#[test]
fn a_call_is_asked_and_answered(rt: HostRuntime) -> Result<(), Fail> {
    let mut opened = OpenCalls::new(rt.alloc());
    let asked = Line::Ask {
        client: 3,
        call: GET_ACCESS_DATA,
    };
    assert_eq!(rt; said(&mut opened, "# two clients")?, Ok(None));
    assert_eq!(rt; said(&mut opened, "")?, Ok(None));
    assert_eq!(rt;
        said(&mut opened, "ask 3 GET_ACCESS_DATA 7 2")?,
        Ok(Some(asked))
    );
    assert_eq!(rt;
        said(&mut opened, "end 4 FAILED 1")?,
        Err(LineFault::BadLine)
    );
    assert_eq!(rt;
        said(&mut opened, "end 3 OK 1 2 ABC")?,
        Err(LineFault::BadLine)
    );
    let outputs = Outputs::from_slice(&[1, 2, 4_276_803, 70_000]);
    let ended = answered(3, Reply::Values(outputs));
    assert_eq!(rt;
        said(&mut opened, "end 3 OK 1 2 ABC 070000")?,
        Err(LineFault::BadLine)
    );
    assert_eq!(rt;
        said(&mut opened, "end 3 OK 1 2 abc 70000")?,
        Err(LineFault::BadLine)
    );
    assert_eq!(rt;
        said(&mut opened, "end 3 OK 1 2 ABC 70000")?,
        Ok(Some(ended))
    );
    assert_eq!(rt; said(&mut opened, "abort 3")?, Err(LineFault::BadLine));
    Ok(())
}
