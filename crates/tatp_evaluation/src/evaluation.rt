//! A transaction on the home of its subscriber.
ghost use Rattle.std.specs.Prelude.{◌≡◌, Ok};
ghost use Rattle.tatp_calls.specs.Arguments.{arguments_accepted};
ghost use Rattle.tatp_calls.specs.Transactions.{transaction};

use crate::reads::{get_access_data, get_new_destination, get_subscriber_data};
use crate::writes::{
    delete_call_forwarding, insert_call_forwarding, update_location, update_subscriber_data,
};
use tatp_calls::{Call, Reply};
use tatp_homes::Home;

/// Makes a transaction on a home: the reply takes the place of the one that is lent. It takes no
/// memory, and runs no procedure.
pub fn evaluate(home: &mut Home, call: &Call, reply: &mut Reply)
    requires accepted { arguments_accepted call.now ≡ Ok tt }
    ensures reply { reply.new ≡ (transaction call.now home.old.tables).reply }
    ensures rows { home.new.tables ≡ (transaction call.now home.old.tables).database }
    ensures same { home.new.s_id ≡ home.old.s_id }
{
    match *call {
        Call::GetSubscriberData { s_id } => get_subscriber_data(home, s_id, reply),
        Call::GetNewDestination {
            s_id,
            sf_type,
            start_time,
            end_time,
        } => get_new_destination(home, [s_id, sf_type], start_time, end_time, reply),
        Call::GetAccessData { s_id, ai_type } => get_access_data(home, s_id, ai_type, reply),
        Call::UpdateSubscriberData {
            s_id,
            bit_1,
            sf_type,
            data_a,
        } => update_subscriber_data(home, [s_id, sf_type], bit_1, data_a, reply),
        Call::UpdateLocation {
            sub_nbr,
            vlr_location,
        } => update_location(home, sub_nbr, vlr_location, reply),
        Call::InsertCallForwarding {
            sub_nbr,
            sf_type,
            start_time,
            end_time,
            numberx,
        } => {
            let columns = [sf_type, start_time, end_time, numberx];
            insert_call_forwarding(home, sub_nbr, columns, reply);
        }
        Call::DeleteCallForwarding {
            sub_nbr,
            sf_type,
            start_time,
        } => delete_call_forwarding(home, sub_nbr, sf_type, start_time, reply),
    }
}
