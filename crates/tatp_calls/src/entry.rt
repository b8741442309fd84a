//! A completed call in a log.

use crate::{Ask, Reply};

/// One completed call, in the log of its home's extent.
#[derive(Clone, Copy, Debug, PartialEq, Eq)]
pub struct Entry {
    /// Which client asked.
    pub client: u64,
    /// How many calls of that client were accepted before it.
    pub number: u64,
    /// What was asked.
    pub ask: Ask,
    /// What was answered.
    pub reply: Reply,
    /// Its place in the order of the log.
    pub stamp: u64,
}
