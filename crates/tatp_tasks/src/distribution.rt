//! How the calls of a client are distributed over the subscribers.

/// How the calls of a client are distributed over the subscribers.
#[derive(Clone, Copy, Debug, PartialEq, Eq)]
pub enum Distribution {
    /// Some subscribers are called far more often than others.
    Skewed,
    /// Each subscriber is called about as often as any other.
    Uniform,
}
