//! The name of each transaction, and the columns that its arguments name.
ghost use Rattle.std.specs.Prelude.{◌≡◌};
ghost use Rattle.tatp_calls.specs.Arguments.{columns_of};
ghost use Rattle.tatp_calls.specs.CallText.{name_of};

use crate::Call;

/// A transaction of COUNT arguments.
#[derive(Clone, Copy)]
pub struct Transaction<const COUNT: usize> {
    /// Its name, which is that of its standard procedure.
    pub name: &'static str,
    /// The columns that its arguments name, one for each.
    pub columns: [u8; COUNT],
}

pub(crate) const S_ID: u8 = 0;

pub(crate) const SUB_NBR: u8 = 1;

pub(crate) const BIT_1: u8 = 2;

pub(crate) const VLR_LOCATION: u8 = 33;

pub(crate) const AI_TYPE: u8 = 35;

pub(crate) const SF_TYPE: u8 = 41;

pub(crate) const DATA_A: u8 = 44;

pub(crate) const START_TIME: u8 = 48;

pub(crate) const END_TIME: u8 = 49;

pub(crate) const NUMBERX: u8 = 50;

/// Reads a subscriber.
pub const GET_SUBSCRIBER_DATA: Transaction<1> = Transaction {
    name: "GET_SUBSCRIBER_DATA",
    columns: [S_ID],
};

/// Reads where calls of a subscriber are forwarded to.
pub const GET_NEW_DESTINATION: Transaction<4> = Transaction {
    name: "GET_NEW_DESTINATION",
    columns: [S_ID, SF_TYPE, START_TIME, END_TIME],
};

/// Reads an access type of a subscriber.
pub const GET_ACCESS_DATA: Transaction<2> = Transaction {
    name: "GET_ACCESS_DATA",
    columns: [S_ID, AI_TYPE],
};

/// Sets a bit of a subscriber, and the data of a facility.
pub const UPDATE_SUBSCRIBER_DATA: Transaction<4> = Transaction {
    name: "UPDATE_SUBSCRIBER_DATA",
    columns: [S_ID, BIT_1, SF_TYPE, DATA_A],
};

/// Sets the location of a subscriber.
pub const UPDATE_LOCATION: Transaction<2> = Transaction {
    name: "UPDATE_LOCATION",
    columns: [SUB_NBR, VLR_LOCATION],
};

/// Inserts a forwarding of calls.
pub const INSERT_CALL_FORWARDING: Transaction<5> = Transaction {
    name: "INSERT_CALL_FORWARDING",
    columns: [SUB_NBR, SF_TYPE, START_TIME, END_TIME, NUMBERX],
};

/// Deletes a forwarding of calls.
pub const DELETE_CALL_FORWARDING: Transaction<3> = Transaction {
    name: "DELETE_CALL_FORWARDING",
    columns: [SUB_NBR, SF_TYPE, START_TIME],
};

impl Call {
    /// The name of its transaction.
    pub fn name(&self) -> &'static str
        ensures { result.now ≡ name_of self.now }
    {
        match self {
            Call::GetSubscriberData { .. } => GET_SUBSCRIBER_DATA.name,
            Call::GetNewDestination { .. } => GET_NEW_DESTINATION.name,
            Call::GetAccessData { .. } => GET_ACCESS_DATA.name,
            Call::UpdateSubscriberData { .. } => UPDATE_SUBSCRIBER_DATA.name,
            Call::UpdateLocation { .. } => UPDATE_LOCATION.name,
            Call::InsertCallForwarding { .. } => INSERT_CALL_FORWARDING.name,
            Call::DeleteCallForwarding { .. } => DELETE_CALL_FORWARDING.name,
        }
    }

    /// The columns that its arguments name, one for each.
    pub(crate) fn columns(&self) -> &'static [u8]
        ensures { result.now ≡ columns_of self.now }
    {
        match self {
            Call::GetSubscriberData { .. } => &GET_SUBSCRIBER_DATA.columns,
            Call::GetNewDestination { .. } => &GET_NEW_DESTINATION.columns,
            Call::GetAccessData { .. } => &GET_ACCESS_DATA.columns,
            Call::UpdateSubscriberData { .. } => &UPDATE_SUBSCRIBER_DATA.columns,
            Call::UpdateLocation { .. } => &UPDATE_LOCATION.columns,
            Call::InsertCallForwarding { .. } => &INSERT_CALL_FORWARDING.columns,
            Call::DeleteCallForwarding { .. } => &DELETE_CALL_FORWARDING.columns,
        }
    }
}
