//! Homes that are equal: one s_id, and the same rows.
ghost use Rattle.std.specs.Prelude.{◌≡◌, ◌↔◌, IsTrue};
ghost use Rattle.std.proofs.Common.{rules};
ghost use Rattle.std.specs.Cmp.Rules.{comparing};
ghost use Rattle.tatp_homes.specs.Home.{same_home};

use super::Home;
use crate::stored::{accesses_in, facilities_in, forwardings_in, subscriber_in};

impl PartialEq for Home {
    ghost eq = { same_home };

    ghost laws = { Prim.search (comparing, rules) depth 12 };

    /// Whether they are one home: its s_id, and its rows.
    fn eq(&self, other: &Home) -> bool
        ensures value { result ≡ same_home self.now other.now }
        ensures same { IsTrue result ↔ self.now ≡ other.now }
    {
        self.s_id == other.s_id
            && subscriber_in(&self.subscriber) == subscriber_in(&other.subscriber)
            && accesses_in(&self.accesses) == accesses_in(&other.accesses)
            && facilities_in(&self.facilities) == facilities_in(&other.facilities)
            && forwardings_in(&self.forwardings) == forwardings_in(&other.forwardings)
    }
}

impl Eq for Home {
    ghost laws = { Prim.search (comparing, rules) depth 12 };
}
