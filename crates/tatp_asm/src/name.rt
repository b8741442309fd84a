//! Names and labels, kept in place.
ghost use Rattle.std.specs.Prelude.{◌≡◌, ◌≤◌, length};

use arrayvec::ArrayString;
use tatp_limits::MAX_NAME_BYTES;

/// A procedure's name, or a label.
pub(crate) type Name = ArrayString<MAX_NAME_BYTES>;

/// A text that is as short as a name, kept in place.
pub(crate) fn name_of(text: &str) -> Name
    requires { length text.now ≤ MAX_NAME_BYTES }
    ensures { result.bytes ≡ text.now }
{
    let mut name = ArrayString::new();
    name.push_str(text);
    name
}
