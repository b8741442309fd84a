//! A run that is to be settled, as functions hand it on.
use crate::Closed;
use tatp_calls::Ask;
use tatp_logs::Receipts;
use tatp_tables::Rows;

/// What a run began with, and what it left.
#[derive(Clone, Copy)]
pub(crate) struct Run<'a> {
    /// The rows from which it began.
    pub(crate) population: &'a Rows,
    /// What its sites, parcels and chapters left.
    pub(crate) closed: &'a Closed,
    /// What each client got for its calls.
    pub(crate) receipts: &'a [Receipts],
    /// What each client asked.
    pub(crate) calls: &'a [Vec<Ask>],
}
