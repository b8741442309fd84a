//! The calls whose arguments the fields left of a line are.
ghost use Rattle.std.specs.Prelude.{◌≡◌};
ghost use Rattle.tatp_calls.specs.CallText.{get_subscriber_data_of, get_new_destination_of, get_access_data_of, update_subscriber_data_of, update_location_of, insert_call_forwarding_of, delete_call_forwarding_of};

use crate::Call;
use crate::transactions::{
    DELETE_CALL_FORWARDING, GET_ACCESS_DATA, GET_NEW_DESTINATION, GET_SUBSCRIBER_DATA,
    INSERT_CALL_FORWARDING, UPDATE_LOCATION, UPDATE_SUBSCRIBER_DATA,
};
use crate::values::read_values;
use tatp_texts::Fields;

pub(super) fn get_subscriber_data(fields: &mut Fields) -> Option<Call>
    ensures { result ≡ get_subscriber_data_of fields.old }
{
    let [s_id] = read_values(fields, &GET_SUBSCRIBER_DATA.columns)?;
    Some(Call::GetSubscriberData { s_id })
}

pub(super) fn get_new_destination(fields: &mut Fields) -> Option<Call>
    ensures { result ≡ get_new_destination_of fields.old }
{
    let [s_id, sf_type, start_time, end_time] = read_values(fields, &GET_NEW_DESTINATION.columns)?;
    Some(Call::GetNewDestination {
        s_id,
        sf_type,
        start_time,
        end_time,
    })
}

pub(super) fn get_access_data(fields: &mut Fields) -> Option<Call>
    ensures { result ≡ get_access_data_of fields.old }
{
    let [s_id, ai_type] = read_values(fields, &GET_ACCESS_DATA.columns)?;
    Some(Call::GetAccessData { s_id, ai_type })
}

pub(super) fn update_subscriber_data(fields: &mut Fields) -> Option<Call>
    ensures { result ≡ update_subscriber_data_of fields.old }
{
    let [s_id, bit_1, sf_type, data_a] = read_values(fields, &UPDATE_SUBSCRIBER_DATA.columns)?;
    Some(Call::UpdateSubscriberData {
        s_id,
        bit_1,
        sf_type,
        data_a,
    })
}

pub(super) fn update_location(fields: &mut Fields) -> Option<Call>
    ensures { result ≡ update_location_of fields.old }
{
    let [sub_nbr, vlr_location] = read_values(fields, &UPDATE_LOCATION.columns)?;
    Some(Call::UpdateLocation {
        sub_nbr,
        vlr_location,
    })
}

pub(super) fn insert_call_forwarding(fields: &mut Fields) -> Option<Call>
    ensures { result ≡ insert_call_forwarding_of fields.old }
{
    let [sub_nbr, sf_type, start_time, end_time, numberx] = read_values(
        fields,
        &INSERT_CALL_FORWARDING.columns,
    )?;
    Some(Call::InsertCallForwarding {
        sub_nbr,
        sf_type,
        start_time,
        end_time,
        numberx,
    })
}

pub(super) fn delete_call_forwarding(fields: &mut Fields) -> Option<Call>
    ensures { result ≡ delete_call_forwarding_of fields.old }
{
    let [sub_nbr, sf_type, start_time] = read_values(fields, &DELETE_CALL_FORWARDING.columns)?;
    Some(Call::DeleteCallForwarding {
        sub_nbr,
        sf_type,
        start_time,
    })
}
