//! The result of a run of threads.
ghost use Rattle.std.specs.Prelude.{◌≡◌};

use tatp_extents::Chapter;
use tatp_logs::Receipts;
use tatp_partition::{Parcel, Site};

/// The result of a run. It can be neither copied nor dropped: [`RunOutcome::parts`] spends it.
pub struct RunOutcome<'m> {
    parts: RunOutcomeParts<'m>,
}

/// The parts of the result of a run.
pub struct RunOutcomeParts<'m> {
    /// The sites, that of partition 0 first, one for each partition.
    pub sites: Vec<Site<'m>>,
    /// The extents that were taken and not given.
    pub parcels: Vec<Parcel>,
    /// The chapters that each executor's site handed out, in that order, executor 0 first.
    pub chapters: Vec<Vec<Chapter>>,
    /// The receipts of each client in the order in which it got them, client 0 first.
    pub receipts: Vec<Receipts>,
}

impl<'m> RunOutcome<'m> {
    /// The result of a run that has ended.
    pub(crate) fn new(parts: RunOutcomeParts<'m>) -> RunOutcome<'m>
        ensures { result.parts ≡ parts.entry }
    {
        RunOutcome { parts }
    }

    /// Spends it: its parts.
    pub fn parts(self) -> RunOutcomeParts<'m>
        ensures { result ≡ self.entry.parts }
    {
        let RunOutcome { parts } = self;
        parts
    }
}
