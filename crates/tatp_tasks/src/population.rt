//! Where the rows of a run come from.

/// Where the rows of a run come from.
#[derive(Clone, Copy, Debug, PartialEq, Eq)]
pub enum Population {
    /// The input begins with them, up to a line `.`; other lines follow it.
    Read,
    /// They are drawn for this many subscribers, 1 to `MAX_SUBSCRIBERS`, from the random words of
    /// this seed. No line of the input is a row.
    Generated { subscribers: u64, seed: u64 },
}
