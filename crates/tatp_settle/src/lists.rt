//! Lists of lists, by client and call number. A list that is lacking counts as empty.
ghost use Rattle.std.specs.Prelude.{◌≡◌, ◌≤◌, ℕ, None, length, slice_get};
ghost use Rattle.std.specs.Option.{option_copied, option_map, option_map_or};
ghost use Rattle.tatp_logs.specs.Receipts.{receipt_seen, receipts_of};
ghost use Rattle.tatp_logs.specs.Lists.{lists_of};
ghost use Rattle.tatp_settle.specs.Runs.{at_call};

use tatp_logs::{ReceiptRef, Receipts};

/// What is kept of a client and one of its call numbers.
pub(crate) fn at<T>(lists: &[Vec<T>], client: u64, number: u64) -> Option<&T>
    ensures { option_copied result ≡ at_call (lists_of lists.now) client number }
{
    lists.get(client as usize)?.get(number as usize)
}

/// How many lists there are.
pub(crate) fn count_of<T>(lists: &[Vec<T>]) -> u64
    ensures count { result ≡ length lists.now }
    ensures beyond { (client number : ℕ)
        → result ≤ client → at_call (lists_of lists.now) client number ≡ None }
{
    lists.len() as u64
}

/// How much is kept of a client.
pub(crate) fn len_of<T>(lists: &[Vec<T>], client: u64) -> u64
    ensures count { result ≡ option_map_or length (slice_get (lists_of lists.now) client) 0 }
    ensures beyond { (number : ℕ)
        → result ≤ number → at_call (lists_of lists.now) client number ≡ None }
{
    match lists.get(client as usize) {
        Some(list) => list.len() as u64,
        None => 0,
    }
}

/// What a client got for one of its calls.
pub(crate) fn receipt_at(receipts: &[Receipts], client: u64, number: u64) -> Option<ReceiptRef<'_>>
    ensures { option_map receipt_seen result ≡ at_call (receipts_of receipts.now) client number }
{
    receipts.get(client as usize)?.get(number as usize)
}

/// How many clients have receipts.
pub(crate) fn clients_of(receipts: &[Receipts]) -> u64
    ensures count { result ≡ length receipts.now }
    ensures beyond { (client number : ℕ)
        → result ≤ client → at_call (receipts_of receipts.now) client number ≡ None }
{
    receipts.len() as u64
}

/// How many receipts a client has.
pub(crate) fn receipts_len(receipts: &[Receipts], client: u64) -> u64
    ensures count { result
        ≡ option_map_or length (slice_get (receipts_of receipts.now) client) 0 }
    ensures beyond { (number : ℕ)
        → result ≤ number → at_call (receipts_of receipts.now) client number ≡ None }
{
    match receipts.get(client as usize) {
        Some(got) => got.len() as u64,
        None => 0,
    }
}
