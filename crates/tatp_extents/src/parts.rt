//! The parts of an extent, and of the log of calls without a home.

use crate::SharedHomes;
use tatp_homes::Home;
use tatp_logs::Log;

/// What an extent is made of. Only of an [`crate::Extent`] is it known that these fit together.
#[derive(Debug, Drop)]
pub struct ExtentParts {
    /// Which extent it is, counted from 1.
    pub number: u32,
    /// How often it was moved.
    pub moves: u16,
    /// Whether a call that is no standard transaction has ended on it.
    pub mixed: bool,
    /// How many chapters it handed out.
    pub chapters: u16,
    /// Its homes at the last checkpoint.
    pub opening: SharedHomes,
    /// Its homes now.
    pub homes: Vec<Home>,
    /// The calls that were logged since the last checkpoint, in the order of their stamps.
    pub log: Log,
}

/// What the log of the calls without a home is made of.
#[derive(Debug, Drop)]
pub struct HomelessParts {
    /// Whether a call that is no standard transaction has ended.
    pub mixed: bool,
    /// How many chapters it handed out.
    pub chapters: u16,
    /// The calls that were logged since the last checkpoint, in the order of their stamps.
    pub log: Log,
}
