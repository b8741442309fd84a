//! Why a text is no line of a history.

use tatp_calls::BadArgument;

/// Why a text is no line of a history.
#[derive(Clone, Copy, Debug, PartialEq, Eq)]
pub enum LineFault {
    /// It has none of the forms; or it ends the call of a client that has none open, or ends it
    /// with no reply of the call's form.
    BadLine,
    /// An argument of the call that is asked is outside its domain.
    BadArgument(BadArgument),
}
