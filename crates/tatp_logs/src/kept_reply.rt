//! Replies as lists of many keep them: with as many outputs as each has.
ghost use Rattle.std.specs.Prelude.{◌≡◌, ◌+◌, ◌≤◌, ◌↔◌, ◌++◌, ℕ, List, IsTrue, vec_len};
ghost use Rattle.std.specs.Vec.{vec_capacity};
ghost use Rattle.tatp_calls.specs.Replies.{reply_seen};
ghost use Rattle.tatp_logs.specs.KeptReplies.{StandsIn, reply_in};

use tatp_calls::{Outputs, Reply, ReplyRef};
use tatp_instr::Trap;
use tatp_limits::MAX_OUTPUTS;

/// A reply whose outputs are in a list of the outputs of many. A [`Reply`] of its own has space
/// for the most outputs that there may be.
#[derive(Clone, Copy, Debug)]
pub(crate) enum KeptReply {
    /// It ended with `count` outputs, which are from the place `first` on.
    Values { count: u8, first: usize },
    /// It ended with a failure.
    Failed(u32),
    /// It was stopped.
    Trapped(Trap),
    /// It was not begun.
    Refused,
}

impl KeptReply {
    /// Puts the outputs of a reply behind all others, where memory for them is reserved.
    pub(crate) fn keep(outputs: &mut Vec<u64>, reply: &Reply) -> KeptReply
        requires { vec_len outputs.old + MAX_OUTPUTS ≤ vec_capacity outputs.old }
        ensures behind { (more : List ℕ) × (outputs.new.items ≡ outputs.old.items ++ more) }
        ensures stands { StandsIn outputs.new.items result }
        ensures reply { reply_in outputs.new.items result ≡ reply.now }
        ensures len { vec_len outputs.new ≤ vec_len outputs.old + MAX_OUTPUTS }
        ensures capacity { vec_capacity outputs.old ≤ vec_capacity outputs.new }
    {
        match reply {
            Reply::Values(values) => {
                let values = values.as_slice();
                let first = outputs.len();
                outputs.extend_from_slice(values).unwrap();
                KeptReply::Values {
                    first,
                    count: values.len() as u8,
                }
            }
            Reply::Failed(number) => KeptReply::Failed(*number),
            Reply::Trapped(trap) => KeptReply::Trapped(*trap),
            Reply::Refused => KeptReply::Refused,
        }
    }

    /// The reply.
    pub(crate) fn reply(&self, outputs: &[u64]) -> Reply
        requires { StandsIn outputs.now self.now }
        ensures { result ≡ reply_in outputs.now self.now }
    {
        match *self {
            KeptReply::Values { first, count } => {
                let values = &outputs[first..first + count as usize];
                Reply::Values(Outputs::from_slice(values))
            }
            KeptReply::Failed(number) => Reply::Failed(number),
            KeptReply::Trapped(trap) => Reply::Trapped(trap),
            KeptReply::Refused => Reply::Refused,
        }
    }

    /// The reply, with its outputs where they are.
    pub(crate) fn reply_ref<'o>(&self, outputs: &'o [u64]) -> ReplyRef<'o>
        requires { StandsIn outputs.now self.now }
        ensures { reply_seen result ≡ reply_in outputs.now self.now }
    {
        match *self {
            KeptReply::Values { first, count } => {
                ReplyRef::Values(&outputs[first..first + count as usize])
            }
            KeptReply::Failed(number) => ReplyRef::Failed(number),
            KeptReply::Trapped(trap) => ReplyRef::Trapped(trap),
            KeptReply::Refused => ReplyRef::Refused,
        }
    }

    /// Whether it is this reply.
    pub(crate) fn is(&self, outputs: &[u64], reply: ReplyRef<'_>) -> bool
        requires { StandsIn outputs.now self.now }
        ensures { IsTrue result ↔ (reply_in outputs.now self.now ≡ reply_seen reply.entry) }
    {
        match (self, reply) {
            (KeptReply::Values { first, count }, ReplyRef::Values(values)) => {
                let kept = &outputs[*first..*first + *count as usize];
                kept == values
            }
            (KeptReply::Failed(number), ReplyRef::Failed(other)) => *number == other,
            (KeptReply::Trapped(trap), ReplyRef::Trapped(other)) => *trap == other,
            (KeptReply::Refused, ReplyRef::Refused) => true,
            _ => false,
        }
    }
}
