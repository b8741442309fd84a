//! The transactions that read.
ghost use Rattle.std.specs.Prelude.{◌≡◌, ◌+◌, ◌<◌, ◌≤◌, ◌++◌, length, slice_index, unwrap_or};
ghost use Rattle.std.specs.Option.{option_to_list};
ghost use Rattle.tatp_homes.specs.Changes.{cell};
ghost use Rattle.tatp_tables.specs.Database.{Database};
ghost use Rattle.tatp_tables.specs.Keys.{row_at};
ghost use Rattle.tatp_calls.specs.Transactions.{get_subscriber_data, get_new_destination, get_access_data, some_of};
ghost use Rattle.tatp_evaluation.specs.Destinations.{number_in_time};

use arrayvec::ArrayVec;
use tatp_calls::Reply;
use tatp_homes::{Home, what_holds_of_every_home};
use tatp_instr::End;

/// The columns of a Subscriber row.
const SUBSCRIBER_COLUMNS: usize = 34;

/// Where Access_Info has data1, its first column that is read.
const DATA1: u8 = 36;

const IS_ACTIVE: u8 = 42;

const END_TIME: u8 = 49;

const NUMBERX: u8 = 50;

/// The subscriber's row.
pub(crate) fn get_subscriber_data(home: &Home, s_id: u64, reply: &mut Reply)
    ensures { reply.new ≡ (get_subscriber_data home.now.tables s_id).reply }
{
    what_holds_of_every_home(home);
    if !home.has_sub(s_id) {
        return reply.set(End::Failed(1), &[]);
    }
    let mut row = [0; SUBSCRIBER_COLUMNS];
    for place in 0..SUBSCRIBER_COLUMNS {
        row[place] = column(home, place as u8, [s_id, 0, 0]);
    }
    reply.set(End::Done, &row);
}

/// The data of the Access_Info row.
pub(crate) fn get_access_data(home: &Home, s_id: u64, ai_type: u64, reply: &mut Reply)
    ensures { reply.new ≡ (get_access_data home.now.tables s_id ai_type).reply }
{
    what_holds_of_every_home(home);
    if !home.has_access(s_id, ai_type) {
        return reply.set(End::Failed(1), &[]);
    }
    let key = [s_id, ai_type, 0];
    let data = [
        column(home, DATA1, key),
        column(home, DATA1 + 1, key),
        column(home, DATA1 + 2, key),
        column(home, DATA1 + 3, key),
    ];
    reply.set(End::Done, &data);
}

/// The column of the row with this key; 0 where there is none.
fn column(home: &Home, column: u8, key: [u64; 3]) -> u64
    ensures { result ≡ unwrap_or (cell home.now.tables column key) 0 }
{
    home.get(column, key).unwrap_or(0)
}

/// The numbers of the active facility's forwardings in time, in the order of their start times.
pub(crate) fn get_new_destination(
    home: &Home,
    facility: [u64; 2],
    start_time: u64,
    end_time: u64,
    reply: &mut Reply,
)
    ensures { reply.new ≡ (get_new_destination home.now.tables
        (slice_index facility 0) (slice_index facility 1) start_time end_time).reply }
{
    what_holds_of_every_home(home);
    let [s_id, sf_type] = facility;
    if column(home, IS_ACTIVE, [s_id, sf_type, 0]) != 1 {
        return reply.set(End::Failed(1), &[]);
    }
    let mut numbers: ArrayVec<u64, 3> = ArrayVec::new();
    push_some(
        &mut numbers,
        destination(home, [s_id, sf_type, 0], start_time, end_time),
    );
    push_some(
        &mut numbers,
        destination(home, [s_id, sf_type, 8], start_time, end_time),
    );
    push_some(
        &mut numbers,
        destination(home, [s_id, sf_type, 16], start_time, end_time),
    );
    reply_some(numbers.as_slice(), reply);
}

/// Puts a number at the end, if there is one.
fn push_some(numbers: &mut ArrayVec<u64, 3>, number: Option<u64>)
    requires room { length numbers.old.items < 3 }
    ensures items { numbers.new.items ≡ numbers.old.items ++ option_to_list number }
    ensures more { length numbers.new.items ≤ length numbers.old.items + 1 }
{
    if let Some(number) = number {
        numbers.push(number);
    }
}

/// Replies with these numbers, or fails where there are none.
fn reply_some(numbers: &[u64], reply: &mut Reply)
    requires few { length numbers.now ≤ 3 }
    ensures { (u : Database) → reply.new ≡ (some_of u numbers.now).reply }
{
    if numbers.is_empty() {
        return reply.set(End::Failed(1), &[]);
    }
    reply.set(End::Done, numbers);
}

/// The number of the forwarding with this key, where it is in time.
fn destination(home: &Home, key: [u64; 3], start_time: u64, end_time: u64) -> Option<u64>
    ensures { result ≡ number_in_time start_time end_time (slice_index key 2)
        (row_at home.now.tables.forwardings key) }
{
    let number = home.get(NUMBERX, key)?;
    if key[2] <= start_time && end_time < column(home, END_TIME, key) {
        Some(number)
    } else {
        None
    }
}
