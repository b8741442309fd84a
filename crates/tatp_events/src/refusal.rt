//! Why an event is refused.
ghost use Rattle.std.specs.Prelude.{◌≡◌, Some};
ghost use Rattle.tatp_events.specs.declared.refusal.Refusal.TheVariants.{Site};
ghost use Rattle.tatp_events.specs.RefusalText.{refusal_text};

use std::error::Error;
use std::fmt;
use tatp_calls::BadArgument;
use tatp_partition::SiteRefusal;

/// Why an event is refused. Its text is its number and its name, and for 26 the argument's place.
#[derive(Clone, Copy, Debug, PartialEq, Eq)]
pub enum Refusal {
    /// There is no such partition.
    NoPartition,
    /// There is no such client.
    NoClient,
    /// A call of the client is under way.
    ClientBusy,
    /// No call waits at the partition.
    NothingQueued,
    /// No such parcel or landing is in hand.
    NotInHand,
    /// Memory ran out.
    NoMemory,
    /// The module has no such procedure with as many arguments.
    NoProcedure,
    /// As many calls of the client were accepted as can be numbered. Its text is a site's 51
    /// StampFull: one refusal says that no stamp, or no number of a call, is above the last.
    NumbersFull,
    /// An argument is outside its domain.
    BadArgument(BadArgument),
    /// The site refuses.
    Site(SiteRefusal),
}

impl From<SiteRefusal> for Refusal {
    ghost from_gives = { λ site refusal. refusal ≡ Site site };

    fn from(site: SiteRefusal) -> Refusal {
        Refusal::Site(site)
    }
}

impl fmt::Display for Refusal {
    ghost output = { λ refusal. Some (refusal_text refusal) };

    fn fmt<W: fmt::Write>(&self, f: &mut fmt::Formatter<W>) -> fmt::Result {
        match self {
            Refusal::NoPartition => f.write_str("38 NoPartition"),
            Refusal::NoClient => f.write_str("40 NoClient"),
            Refusal::ClientBusy => f.write_str("41 ClientBusy"),
            Refusal::NothingQueued => f.write_str("42 NothingQueued"),
            Refusal::NotInHand => f.write_str("43 NotInHand"),
            Refusal::NoMemory => f.write_str("46 NoMemory"),
            Refusal::NoProcedure => f.write_str("48 NoProcedure"),
            Refusal::NumbersFull => f.write_str("51 StampFull"),
            Refusal::BadArgument(bad) => {
                let place = bad.0;
                write!(f, "26 BadArgument {place}")
            }
            Refusal::Site(refusal) => write!(f, "{refusal}"),
        }
    }
}

impl Error for Refusal {}
