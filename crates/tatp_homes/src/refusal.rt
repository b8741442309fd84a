//! Why a change of a home is refused.

use thiserror::Error;

/// Why a change of a home is refused. Its text is its number and its name.
#[derive(Clone, Copy, Debug, PartialEq, Eq, Error)]
pub enum Refusal {
    /// No row has the key.
    #[error("1 NoCurrent")]
    NoCurrent = 1,
    /// A value is outside its column's domain.
    #[error("2 Domain")]
    Domain = 2,
    /// A row has the key already.
    #[error("3 KeyExists")]
    KeyExists = 3,
    /// The row that the new one refers to is not there.
    #[error("4 NoParent")]
    NoParent = 4,
}
