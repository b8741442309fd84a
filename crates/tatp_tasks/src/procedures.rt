//! Where the procedures of a run come from.

/// Where the procedures of a run come from.
#[derive(Clone, Copy, Debug, PartialEq, Eq)]
pub enum Procedures {
    /// They are the seven of the standard module.
    Standard,
    /// The input begins with their text, up to a line `.`; other lines follow it.
    Read,
}
