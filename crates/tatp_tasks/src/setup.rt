//! What a run over lines is opened with.
use crate::{Population, Procedures};

/// What a run over lines is opened with.
#[derive(Clone, Copy, Debug, PartialEq, Eq)]
pub struct Setup {
    /// Where the procedures come from.
    pub procedures: Procedures,
    /// Where the rows come from.
    pub population: Population,
    /// Over how many partitions the rows are dealt, 1 to `MAX_PARTITIONS`.
    pub partitions: u8,
    /// For how many clients, 1 to `MAX_CLIENTS`.
    pub clients: u16,
    /// How many bytes of the input are read at most, 1 to `MAX_INPUT_LIMIT`.
    pub input_limit: usize,
}
