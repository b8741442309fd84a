//! What the audits say.
ghost use Rattle.std.specs.Prelude.{◌≡◌, Some};
ghost use Rattle.tatp_audits.specs.Audits.{says_clean};
ghost use Rattle.tatp_audits.specs.Printing.{key_text, verdict_text};

use std::fmt;

/// The primary key of a row that fails an audit.
#[derive(Clone, Copy, Debug, PartialEq, Eq)]
pub enum FailedKey {
    /// Of a Subscriber row: s_id.
    S([u64; 1]),
    /// Of an Access_Info row: s_id, ai_type.
    A([u64; 2]),
    /// Of a Special_Facility row: s_id, sf_type.
    F([u64; 2]),
    /// Of a Call_Forwarding row: s_id, sf_type, start_time.
    C([u64; 3]),
}

/// The verdict on rows: that they are clean, or the first audit that fails and the least key that
/// fails it.
#[derive(Clone, Copy, Debug, PartialEq, Eq)]
pub enum Verdict {
    /// The rows pass all audits: how many there are, table by table.
    Clean {
        subscribers: usize,
        accesses: usize,
        facilities: usize,
        forwardings: usize,
    },
    /// Of 1 to the number of subscribers, 1 in any case, this isn't the s_id of exactly one.
    Ids(u64),
    /// Two subscribers have this number.
    NumberTwice(u64),
    /// Two rows have this primary key.
    KeyTwice(FailedKey),
    /// The row with this key refers to a row that isn't there.
    NoParent(FailedKey),
    /// The row with this key has a value outside its column's domain, in this column.
    OutsideDomain(FailedKey, u8),
    /// A subscriber with this s_id, or one of its facilities, has fewer or more rows than it may.
    Counts(u64),
}

impl Verdict {
    /// Whether it says that the rows are clean.
    pub fn is_clean(&self) -> bool
        ensures { result ≡ says_clean self.now }
    {
        matches!(self, Verdict::Clean { .. })
    }
}

impl fmt::Display for FailedKey {
    ghost output = { λ key. Some (key_text key) };

    fn fmt<W: fmt::Write>(&self, f: &mut fmt::Formatter<W>) -> fmt::Result {
        match self {
            FailedKey::S([s_id]) => write!(f, "S {s_id}"),
            FailedKey::A([s_id, ai_type]) => write!(f, "A {s_id} {ai_type}"),
            FailedKey::F([s_id, sf_type]) => write!(f, "F {s_id} {sf_type}"),
            FailedKey::C([s_id, sf_type, start_time]) => write!(
                f,
                "C {s_id} {sf_type} {start_time}"
            ),
        }
    }
}

impl fmt::Display for Verdict {
    ghost output = { λ verdict. Some (verdict_text verdict) };

    fn fmt<W: fmt::Write>(&self, f: &mut fmt::Formatter<W>) -> fmt::Result {
        match self {
            Verdict::Clean {
                subscribers,
                accesses,
                facilities,
                forwardings,
            } => {
                write!(
                    f,
                    "CLEAN {subscribers} {accesses} {facilities} {forwardings}"
                )
            }
            Verdict::Ids(s_id) => write!(f, "A1 {s_id}"),
            Verdict::NumberTwice(number) => write!(f, "A2 {number:015}"),
            Verdict::KeyTwice(key) => write!(f, "A3 {key}"),
            Verdict::NoParent(key) => write!(f, "A4 {key}"),
            Verdict::OutsideDomain(key, column) => write!(f, "A5 {key} {column}"),
            Verdict::Counts(s_id) => write!(f, "A6 {s_id}"),
        }
    }
}
