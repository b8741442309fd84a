//! Calls as their clients saw them.
ghost use Rattle.std.specs.Prelude.{◌↔◌, IsTrue};
ghost use Rattle.tatp_history.specs.Histories.{MayHaveReply, IsAsRecorded};

use tatp_calls::{Call, Reply};

/// What a client recorded of a reply.
#[derive(Clone, Copy, Debug, PartialEq, Eq)]
pub enum Recorded {
    /// The client recorded this reply.
    Exactly(Reply),
    /// It recorded that the call succeeded, and no values.
    Success,
    /// It recorded that the call failed, and no number.
    Failure,
}

/// How a call ended for its client.
#[derive(Clone, Copy, Debug, PartialEq, Eq)]
pub enum Outcome {
    /// It was answered.
    Answered {
        /// The time of the answer.
        at: u64,
        /// What the client recorded of the reply.
        recorded: Recorded,
    },
    /// It was aborted, and changed nothing.
    Aborted {
        /// The time at which it was aborted.
        at: u64,
    },
    /// No answer came, and none will: it takes effect at any time after it was asked, or never.
    Unknown,
}

/// A call as its client saw it.
#[derive(Clone, Copy, Debug, PartialEq, Eq)]
pub struct Observed {
    /// The time at which it was asked: in a history the number of its line.
    pub asked: u64,
    /// What was asked.
    pub call: Call,
    /// How it ended.
    pub outcome: Outcome,
}

impl Recorded {
    /// Whether a client that got the reply may have recorded this.
    fn allows(&self, reply: &Reply) -> bool
        ensures { IsTrue result ↔ IsAsRecorded self.now reply.now }
    {
        match self {
            Recorded::Exactly(recorded) => *recorded == *reply,
            Recorded::Success => matches!(reply, Reply::Values(_)),
            Recorded::Failure => matches!(reply, Reply::Failed(_)),
        }
    }
}

impl Outcome {
    /// Whether a call that took effect with this reply may have had this outcome.
    pub fn allows(&self, reply: &Reply) -> bool
        ensures { IsTrue result ↔ MayHaveReply self.now reply.now }
    {
        match self {
            Outcome::Answered { recorded, .. } => recorded.allows(reply),
            Outcome::Aborted { .. } => false,
            Outcome::Unknown => true,
        }
    }
}
