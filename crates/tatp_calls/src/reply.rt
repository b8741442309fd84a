//! Replies of calls.
ghost use Rattle.std.specs.Prelude.{◌≡◌, ◌≤◌, length, nat_eq};
ghost use Rattle.std.specs.Cmp.{partial_equiv_from_equiv};
ghost use Rattle.std.specs.Cmp.Lexicographic.{pointwise, nat_list_eq_equiv};
ghost use Rattle.tatp_calls.specs.Replies.{reply_seen, reply_to};

use std::marker::Model;
use tatp_instr::{End, Trap};
use tatp_limits::MAX_OUTPUTS;

/// Values that a call put out, at most [`MAX_OUTPUTS`]. Contracts see them as a list.
#[derive(Clone, Copy, Debug)]
pub struct Outputs {
    count: usize,
    /// With 0 after the last.
    values: [u64; MAX_OUTPUTS],
}

impl Model for Outputs {
    ghost use Rattle.std.specs.Prelude.{ℕ, List, take, length};
    ghost use Rattle.tatp_limits.specs.declared.limits.TheConstants.{MAX_OUTPUTS};
    ghost use Rattle.tatp_calls.specs.Padding.{ArePadded, padded, padded_count, padded_values};

    ghost Value = { List ℕ };

    ghost view = { λ a. take a.count a.values };

    ghost invariant = { λ a. ArePadded MAX_OUTPUTS a.count a.values };

    ghost inverse = { λ xs. record { count = length xs; values = padded MAX_OUTPUTS xs } };

    ghost inverse_ok = { λ a h. λ i. record {
      count = padded_count MAX_OUTPUTS a.count a.values h i;
      values = padded_values MAX_OUTPUTS a.count a.values h i;
    } };
}

impl Outputs {
    /// These values.
    pub fn from_slice(values: &[u64]) -> Outputs
        requires { length values.now ≤ MAX_OUTPUTS }
        ensures { result ≡ values.now }
    {
        let mut outputs = Outputs {
            count: 0,
            values: [0; MAX_OUTPUTS],
        };
        outputs.set(values);
        outputs
    }

    /// These values in place of the others.
    fn set(&mut self, values: &[u64])
        requires { length values.now ≤ MAX_OUTPUTS }
        ensures { self.new ≡ values.now }
    {
        let count = values.len();
        self.values[..count].copy_from_slice(values);
        self.values[count..].fill(0);
        self.count = count;
    }

    /// The values, in the order in which they were put out.
    pub fn as_slice(&self) -> &[u64]
        ensures value { result.now ≡ self.now }
        ensures most { length self.now ≤ MAX_OUTPUTS }
    {
        &self.values[..self.count]
    }
}

impl PartialEq for Outputs {
    ghost eq = { pointwise nat_eq };

    ghost laws = { partial_equiv_from_equiv nat_list_eq_equiv };

    fn eq(&self, other: &Outputs) -> bool {
        self.as_slice() == other.as_slice()
    }
}

impl Eq for Outputs {
    ghost laws = { nat_list_eq_equiv };
}

/// What a call is answered.
#[derive(Clone, Copy, Debug, PartialEq, Eq)]
pub enum Reply {
    /// It ended with these outputs.
    Values(Outputs),
    /// It ended with a failure, which its procedure numbers.
    Failed(u32),
    /// It was stopped.
    Trapped(Trap),
    /// It was not begun.
    Refused,
}

/// A reply whose outputs are elsewhere.
#[derive(Clone, Copy, Debug)]
pub enum ReplyRef<'a> {
    /// It ended with these outputs.
    Values(&'a [u64]),
    /// It ended with a failure.
    Failed(u32),
    /// It was stopped.
    Trapped(Trap),
    /// It was not begun.
    Refused,
}

impl Reply {
    /// The reply, with its outputs where they are.
    pub fn as_ref(&self) -> ReplyRef<'_>
        ensures { reply_seen result ≡ self.now }
    {
        match self {
            Reply::Values(values) => ReplyRef::Values(values.as_slice()),
            Reply::Failed(number) => ReplyRef::Failed(*number),
            Reply::Trapped(trap) => ReplyRef::Trapped(*trap),
            Reply::Refused => ReplyRef::Refused,
        }
    }

    /// The reply to a call that ended so, with these outputs, in place of this one. Outputs go
    /// where outputs are, so that only as many are copied as there are.
    ///
    /// What makes a whole reply is not inlined, since a function clears the memory of all its
    /// locals when it begins.
    pub fn set(&mut self, end: End, outputs: &[u64])
        requires { length outputs.now ≤ MAX_OUTPUTS }
        ensures { self.new ≡ reply_to end outputs.now }
    {
        match end {
            End::Done => match self {
                Reply::Values(values) => values.set(outputs),
                _ => self.become_values(outputs),
            },
            End::Failed(number) => self.become_failed(number),
            End::Trapped(trap) => self.become_trapped(trap),
        }
    }

    #[inline(never)]
    fn become_values(&mut self, outputs: &[u64])
        requires { length outputs.now ≤ MAX_OUTPUTS }
        ensures { self.new ≡ Reply.Values outputs.now }
    {
        *self = Reply::Values(Outputs::from_slice(outputs));
    }

    #[inline(never)]
    fn become_failed(&mut self, number: u32)
        ensures { self.new ≡ Reply.Failed number }
    {
        *self = Reply::Failed(number);
    }

    #[inline(never)]
    fn become_trapped(&mut self, trap: Trap)
        ensures { self.new ≡ Reply.Trapped trap }
    {
        *self = Reply::Trapped(trap);
    }
}
