//! The text of a bad argument; raw calls and outputs, which keep their lists in place.
use std::test::Fail;
use tatp_calls::{BadArgument, Outputs, Raw};
use tatp_numbers::Key;

#[test]
fn lists_in_place_and_a_bad_argument(rt: HostRuntime) -> Result<(), Fail> {
    let text = format!(in rt.alloc(); "{}", BadArgument(3))?;
    assert_eq!(rt; text.as_str(), "26 BadArgument 3");
    let raw = Raw::new(5, &[2, 0], Key::Id(7));
    assert_eq!(rt; raw.args(), [2, 0].as_slice());
    assert!(rt; raw != Raw::new(5, &[2], Key::Id(7)));
    assert!(rt; Outputs::from_slice(&[3, 0]) != Outputs::from_slice(&[3]));
    Ok(())
}
