//! The transactions that write.
ghost use Rattle.std.specs.Prelude.{◌≡◌, ◌∷◌, true, slice_index};
ghost use Rattle.tatp_tables.specs.Domains.{is_in_domain};
ghost use Rattle.tatp_calls.specs.Transactions.{update_subscriber_data, update_location, insert_call_forwarding, delete_call_forwarding};
ghost use Rattle.tatp_evaluation.specs.Failures.{insert_failure};

use tatp_calls::Reply;
use tatp_homes::{Home, Refusal, what_holds_of_every_home};
use tatp_instr::End;

const BIT_1: u8 = 2;

const VLR_LOCATION: u8 = 33;

const DATA_A: u8 = 44;

/// Sets bit_1 of the subscriber and data_a of the facility.
pub(crate) fn update_subscriber_data(
    home: &mut Home,
    facility: [u64; 2],
    bit_1: u64,
    data_a: u64,
    reply: &mut Reply,
)
    requires bit_1 { is_in_domain 2 bit_1 ≡ true }
    requires data_a { is_in_domain 44 data_a ≡ true }
    ensures reply { reply.new ≡ (update_subscriber_data home.old.tables
        (slice_index facility 0) bit_1 (slice_index facility 1) data_a).reply }
    ensures rows { home.new.tables ≡ (update_subscriber_data home.old.tables
        (slice_index facility 0) bit_1 (slice_index facility 1) data_a).database }
    ensures same { home.new.s_id ≡ home.old.s_id }
{
    what_holds_of_every_home(home);
    let [s_id, sf_type] = facility;
    if !home.has_facility(s_id, sf_type) {
        return reply.set(End::Failed(1), &[]);
    }
    let _ = home.put(BIT_1, [s_id, 0, 0], bit_1);
    let _ = home.put(DATA_A, [s_id, sf_type, 0], data_a);
    reply.set(End::Done, &[]);
}

/// Sets the subscriber's vlr_location.
pub(crate) fn update_location(home: &mut Home, sub_nbr: u64, vlr_location: u64, reply: &mut Reply)
    requires location { is_in_domain 33 vlr_location ≡ true }
    ensures reply { reply.new ≡ (update_location home.old.tables sub_nbr vlr_location).reply }
    ensures rows { home.new.tables
        ≡ (update_location home.old.tables sub_nbr vlr_location).database }
    ensures same { home.new.s_id ≡ home.old.s_id }
{
    what_holds_of_every_home(home);
    if !home.has_number(sub_nbr) {
        return reply.set(End::Failed(1), &[]);
    }
    let s_id = home.s_id();
    let _ = home.put(VLR_LOCATION, [s_id, 0, 0], vlr_location);
    reply.set(End::Done, &[]);
}

/// Inserts a forwarding of the subscriber's: its facility, times and number.
pub(crate) fn insert_call_forwarding(
    home: &mut Home,
    sub_nbr: u64,
    columns: [u64; 4],
    reply: &mut Reply,
)
    requires facility { is_in_domain 41 (slice_index columns 0) ≡ true }
    requires start { is_in_domain 48 (slice_index columns 1) ≡ true }
    requires end { is_in_domain 49 (slice_index columns 2) ≡ true }
    requires number { is_in_domain 50 (slice_index columns 3) ≡ true }
    ensures reply { reply.new ≡ (insert_call_forwarding home.old.tables sub_nbr
        (slice_index columns 0) (slice_index columns 1)
        (slice_index columns 2) (slice_index columns 3)).reply }
    ensures rows { home.new.tables ≡ (insert_call_forwarding home.old.tables sub_nbr
        (slice_index columns 0) (slice_index columns 1)
        (slice_index columns 2) (slice_index columns 3)).database }
    ensures same { home.new.s_id ≡ home.old.s_id }
{
    what_holds_of_every_home(home);
    if !home.has_number(sub_nbr) {
        return reply.set(End::Failed(1), &[]);
    }
    let [sf_type, start_time, end_time, numberx] = columns;
    let row = [home.s_id(), sf_type, start_time, end_time, numberx];
    match home.insert_cf(row) {
        Ok(()) => reply.set(End::Done, &[]),
        Err(refusal) => reply.set(End::Failed(insert_failure(refusal)), &[]),
    }
}

/// The number of the failure where an insert is refused.
fn insert_failure(refusal: Refusal) -> u32
    ensures { result ≡ insert_failure refusal }
{
    match refusal {
        Refusal::NoParent => 3,
        _ => 2,
    }
}

/// Deletes a forwarding of the subscriber's.
pub(crate) fn delete_call_forwarding(
    home: &mut Home,
    sub_nbr: u64,
    sf_type: u64,
    start_time: u64,
    reply: &mut Reply,
)
    ensures reply { reply.new
        ≡ (delete_call_forwarding home.old.tables sub_nbr sf_type start_time).reply }
    ensures rows { home.new.tables
        ≡ (delete_call_forwarding home.old.tables sub_nbr sf_type start_time).database }
    ensures same { home.new.s_id ≡ home.old.s_id }
{
    what_holds_of_every_home(home);
    if !home.has_number(sub_nbr) {
        return reply.set(End::Failed(1), &[]);
    }
    let s_id = home.s_id();
    match home.delete_cf([s_id, sf_type, start_time]) {
        Ok(_) => reply.set(End::Done, &[]),
        Err(_) => reply.set(End::Failed(1), &[]),
    }
}
