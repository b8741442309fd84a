//! The call of a line, and the line of a call.
ghost use Rattle.std.specs.Prelude.{◌≡◌, ◌++◌, true, Some, IfOk, IfSome, OnOk};
ghost use Rattle.std.specs.String.{string_bytes};
ghost use Rattle.tatp_calls.specs.CallText.{call_of_line, call_text, is_printable_call};

mod arguments;

use crate::Call;
use crate::transactions::{
    DELETE_CALL_FORWARDING, GET_ACCESS_DATA, GET_NEW_DESTINATION, GET_SUBSCRIBER_DATA,
    INSERT_CALL_FORWARDING, UPDATE_LOCATION, UPDATE_SUBSCRIBER_DATA,
};
use crate::values::{push_values, with_values};
use std::alloc::{AllocError, Global};
use tatp_texts::Fields;

/// The call that a line is: its name and its arguments, each in its column's form.
pub fn read_call(line: &str) -> Option<Call>
    ensures call { result ≡ call_of_line line.now }
    ensures printed { IfSome result (λ call. call_text call ≡ line.now) }
    ensures printable { IfSome result (λ call. is_printable_call call ≡ true) }
{
    call_of_line(line)
}

#[tactic(auto, unfolding(crate::specs::CallText::call_of_line))]
fn call_of_line(line: &str) -> Option<Call>
    ensures { result ≡ call_of_line line.now }
{
    let mut fields = Fields::new(line);
    let name = fields.next()?;
    if name == GET_SUBSCRIBER_DATA.name {
        arguments::get_subscriber_data(&mut fields)
    } else if name == GET_NEW_DESTINATION.name {
        arguments::get_new_destination(&mut fields)
    } else if name == GET_ACCESS_DATA.name {
        arguments::get_access_data(&mut fields)
    } else if name == UPDATE_SUBSCRIBER_DATA.name {
        arguments::update_subscriber_data(&mut fields)
    } else if name == UPDATE_LOCATION.name {
        arguments::update_location(&mut fields)
    } else if name == INSERT_CALL_FORWARDING.name {
        arguments::insert_call_forwarding(&mut fields)
    } else if name == DELETE_CALL_FORWARDING.name {
        arguments::delete_call_forwarding(&mut fields)
    } else {
        None
    }
}

/// The line of a call.
pub fn call_text(alloc: Global, call: &Call) -> Result<String, AllocError>
    ensures text { IfOk result (λ text. string_bytes text ≡ call_text call.now) }
    ensures read_back { IfOk result (λ text. is_printable_call call.now ≡ true
        → call_of_line (string_bytes text) ≡ Some call.now) }
{
    with_values(alloc, call.name(), call.columns(), &call.args())
}

/// Appends the line of a call. An error may leave some of it.
pub fn push_call(text: &mut String, call: &Call) -> Result<(), AllocError>
    ensures { OnOk result (string_bytes text.new ≡ string_bytes text.old ++ call_text call.now) }
{
    text.push_str(call.name())?;
    push_values(text, call.columns(), &call.args())
}
