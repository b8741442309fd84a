//! A call of any procedure.
ghost use Rattle.std.specs.Prelude.{◌≡◌, ◌≤◌, length};

use std::marker::Model;
use tatp_limits::MAX_ARGUMENTS;
use tatp_numbers::Key;

/// A call of any procedure, which may be none, with any arguments, at most [`MAX_ARGUMENTS`].
#[derive(Clone, Copy, Debug, PartialEq, Eq)]
pub struct Raw {
    procedure: u64,
    count: usize,
    /// With 0 after the last.
    args: [u64; MAX_ARGUMENTS],
    key: Key,
}

impl Model for Raw {
    ghost use Rattle.std.specs.Prelude.{take, length};
    ghost use Rattle.tatp_limits.specs.declared.limits.TheConstants.{MAX_ARGUMENTS};
    ghost use Rattle.tatp_calls.specs.Asks.{RawCall};
    ghost use Rattle.tatp_calls.specs.Padding.{ArePadded, padded, padded_count, padded_values};

    ghost Value = { RawCall };

    ghost view = { λ a. record {
      procedure = a.procedure;
      arguments = take a.count a.args;
      key = a.key;
    } };

    ghost invariant = { λ a. ArePadded MAX_ARGUMENTS a.count a.args };

    ghost inverse = { λ r. record {
      procedure = r.procedure;
      count = length r.arguments;
      args = padded MAX_ARGUMENTS r.arguments;
      key = r.key;
    } };

    ghost inverse_ok = { λ a h. λ i. record {
      procedure = a.procedure;
      count = padded_count MAX_ARGUMENTS a.count a.args h i;
      args = padded_values MAX_ARGUMENTS a.count a.args h i;
      key = a.key;
    } };
}

impl Raw {
    /// The call of the procedure with this number.
    pub fn new(procedure: u64, arguments: &[u64], key: Key) -> Raw
        requires { length arguments.now ≤ MAX_ARGUMENTS }
        ensures { result ≡ record { procedure = procedure; arguments = arguments.now; key = key } }
    {
        let mut args = [0; MAX_ARGUMENTS];
        args[..arguments.len()].copy_from_slice(arguments);
        Raw {
            procedure,
            count: arguments.len(),
            args,
            key,
        }
    }

    /// The number of the procedure.
    pub fn procedure(&self) -> u64
        ensures { result ≡ self.now.procedure }
    {
        self.procedure
    }

    /// The arguments.
    pub fn args(&self) -> &[u64]
        ensures value { result.now ≡ self.now.arguments }
        ensures most { length self.now.arguments ≤ MAX_ARGUMENTS }
    {
        &self.args[..self.count]
    }

    /// The key of the subscriber whose rows it may use.
    pub fn key(&self) -> Key
        ensures { result ≡ self.now.key }
    {
        self.key
    }
}
