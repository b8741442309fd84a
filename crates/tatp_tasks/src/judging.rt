//! What history is to be judged.
use crate::Population;

/// A history to be judged.
#[derive(Clone, Copy, Debug, PartialEq, Eq)]
pub struct JudgePlan {
    /// Where the rows come from with which it begins.
    pub population: Population,
    /// How many configurations of one subscriber are kept at most, 1 to `MAX_CONFIGURATIONS`.
    pub most: usize,
    /// Whether the history is followed by a line `.` and the rows at its end.
    pub final_rows: bool,
    /// Which of the parts of the subscribers is judged, from 1 on.
    pub part: u64,
    /// How many parts there are, at most `MAX_PARTS`.
    pub parts: u64,
}
