//! What is seen of a site, in mid-call too.
ghost use Rattle.std.specs.Prelude.{◌≡◌, None, Some, IfErr, IfOk};

use super::Site;
use crate::SiteRefusal;
use tatp_debug::{Snapshot, snapshot_of};
use tatp_homes::Home;

impl<'m> Site<'m> {
    ghost use Rattle.tatp_partition.specs.Looking.{Looks};
    ghost use Rattle.tatp_partition.specs.Sites.{home_here};
    ghost use Rattle.tatp_partition.specs.declared.refusal.SiteRefusal.TheVariants.{NotHere};

    /// The state of the running call: [`SiteRefusal::NotRunning`] where none runs.
    pub fn look(&self) -> Result<Snapshot, SiteRefusal>
        ensures { Looks self.now result }
    {
        match self.machine() {
            None => Err(SiteRefusal::NotRunning),
            Some(machine) => Ok(snapshot_of(self.loaded(), machine)),
        }
    }

    /// The home of a subscriber as it is now, in mid-call too: [`SiteRefusal::NotHere`] where it is
    /// away.
    pub fn home_rows(&self, s_id: u64) -> Result<&Home, SiteRefusal>
        ensures here { IfOk result (λ home. home_here self.now s_id ≡ Some home.now) }
        ensures away { IfErr result (λ refusal.
            (refusal ≡ NotHere) × (home_here self.now s_id ≡ None)) }
    {
        match self.home(s_id) {
            Some(home) => Ok(home),
            None => Err(SiteRefusal::NotHere),
        }
    }
}
