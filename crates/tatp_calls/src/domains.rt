//! The domains of a call's arguments.
ghost use Rattle.std.specs.Prelude.{◌≡◌, length};
ghost use Rattle.tatp_calls.specs.Arguments.{fits, fitting, first_bad, arguments_accepted};

use crate::Call;
use crate::transactions::S_ID;
use tatp_tables::in_domain;
use thiserror::Error;

/// An argument is outside its domain: the first of those, counted from 0. Its text is its number,
/// its name and the argument.
#[derive(Clone, Copy, Debug, PartialEq, Eq, Error)]
#[error("26 BadArgument {0}")]
pub struct BadArgument(pub usize);

/// Whether each argument is in the domain of the column that it names; an s_id may be any number.
#[tactic(auto, using(crate::proofs::ArgumentLaws::one_each))]
pub fn args_ok(call: &Call) -> Result<(), BadArgument>
    ensures { result ≡ arguments_accepted call.now }
{
    match first_bad(call.columns(), &call.args()) {
        Some(argument) => Err(BadArgument(argument)),
        None => Ok(()),
    }
}

/// The place of the first argument that doesn't fit its column.
#[tactic(auto, using(crate::proofs::ArgumentLaws::bad_found, crate::proofs::ArgumentLaws::none_bad, crate::proofs::ArgumentLaws::one_fits))]
fn first_bad(columns: &[u8], arguments: &[u64]) -> Option<usize>
    requires { length columns.now ≡ length arguments.now }
    ensures { result ≡ first_bad (fitting columns.now arguments.now) }
{
    for place in 0..columns.len() {
        if !fits(columns[place], arguments[place]) {
            return Some(place);
        }
    }
    None
}

fn fits(column: u8, value: u64) -> bool
    ensures { result ≡ fits column value }
{
    column == S_ID || in_domain(column, value)
}
