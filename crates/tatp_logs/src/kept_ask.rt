//! What was asked, as a list of many calls keeps it: with as many arguments as each has.
ghost use Rattle.std.specs.Prelude.{◌≡◌, ◌+◌, ◌≤◌, ◌++◌, ℕ, List, vec_len};
ghost use Rattle.std.specs.Vec.{vec_capacity};
ghost use Rattle.tatp_logs.specs.KeptAsks.{HasArgumentsIn, ask_in};

use tatp_calls::{Ask, Call, Raw};
use tatp_limits::MAX_ARGUMENTS;
use tatp_numbers::Key;

/// What was asked, where the arguments of a call that is no transaction are in a list of the
/// values of many. A [`Raw`] of its own has places for eight.
#[derive(Clone, Copy, Debug)]
pub(crate) enum KeptAsk {
    /// A call of a transaction.
    Txn(Call),
    /// A call of any procedure, with `count` arguments, which are from the place `first` on.
    Raw {
        procedure: u64,
        key: Key,
        first: usize,
        count: u8,
    },
}

impl KeptAsk {
    /// Puts the arguments of a call that is no transaction behind all other values, where memory
    /// for them is reserved.
    pub(crate) fn keep(values: &mut Vec<u64>, ask: &Ask) -> KeptAsk
        requires { vec_len values.old + MAX_ARGUMENTS ≤ vec_capacity values.old }
        ensures behind { (more : List ℕ) × (values.new.items ≡ values.old.items ++ more) }
        ensures stands { HasArgumentsIn values.new.items result }
        ensures ask { ask_in values.new.items result ≡ ask.now }
        ensures len { vec_len values.new ≤ vec_len values.old + MAX_ARGUMENTS }
        ensures capacity { vec_capacity values.old ≤ vec_capacity values.new }
    {
        match ask {
            Ask::Txn(call) => KeptAsk::Txn(*call),
            Ask::Raw(raw) => {
                let arguments = raw.args();
                let first = values.len();
                values.extend_from_slice(arguments).unwrap();
                KeptAsk::Raw {
                    procedure: raw.procedure(),
                    key: raw.key(),
                    first,
                    count: arguments.len() as u8,
                }
            }
        }
    }

    /// What was asked.
    pub(crate) fn ask(&self, values: &[u64]) -> Ask
        requires { HasArgumentsIn values.now self.now }
        ensures { result ≡ ask_in values.now self.now }
    {
        match *self {
            KeptAsk::Txn(call) => Ask::Txn(call),
            KeptAsk::Raw {
                procedure,
                key,
                first,
                count,
            } => {
                let arguments = &values[first..first + count as usize];
                Ask::Raw(Raw::new(procedure, arguments, key))
            }
        }
    }
}
