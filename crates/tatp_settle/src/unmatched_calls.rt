//! Calls without their receipts, and receipts without their calls.
ghost use Rattle.std.specs.Prelude.{◌≡◌, ◌↔◌, IsTrue};
ghost use Rattle.std.specs.Option.{option_copied, option_map};
ghost use Rattle.tatp_logs.specs.Receipts.{receipt_seen, receipts_of};
ghost use Rattle.tatp_logs.specs.Lists.{lists_of};
ghost use Rattle.tatp_settle.specs.Answering.{AreMatched};
ghost use Rattle.tatp_settle.specs.CallPlaces.{IsFirstCall, IsFirstNumber};
ghost use Rattle.tatp_settle.specs.Causes.{IsUnmatched};
ghost use Rattle.tatp_settle.specs.Receipts.{IsOf};

use crate::lists::{at, clients_of, count_of, len_of, receipt_at, receipts_len};
use crate::places::CallPlace;
use crate::searches::{Search, first_call};
use std::thread::Threads;
use tatp_calls::Ask;
use tatp_logs::{ReceiptRef, Receipts};

/// Whether the receipt is that of this call.
fn is_of(receipt: ReceiptRef<'_>, client: u64, number: u64) -> bool
    ensures { IsTrue result ↔ IsOf client number (receipt_seen receipt.entry) }
{
    match receipt {
        ReceiptRef::Done {
            client: of_client,
            number: of_number,
            ..
        } => of_client == client && of_number == number,
        ReceiptRef::Refused {
            client: of_client,
            number: of_number,
        } => of_client == client && of_number == number,
    }
}

/// Whether call and receipt belong together, or both are lacking.
fn are_matched(client: u64, number: u64, ask: Option<&Ask>, receipt: Option<ReceiptRef<'_>>) -> bool
    ensures { IsTrue result
        ↔ AreMatched client number (option_copied ask.entry)
        (option_map receipt_seen receipt.entry) }
{
    match (ask, receipt) {
        (None, None) => true,
        (Some(_), Some(receipt)) => is_of(receipt, client, number),
        (Some(_), None) => false,
        (None, Some(_)) => false,
    }
}

/// The search for calls without their receipts, and receipts without their calls.
#[derive(Drop)]
struct Unmatched<'a> {
    receipts: &'a [Receipts],
    calls: &'a [Vec<Ask>],
}

impl Unmatched<'_> {
    /// Whether a call is at this number without its receipt, or a receipt without its call.
    fn is_unmatched(&self, client: u64, number: u64) -> bool
        ensures { IsTrue result
            ↔ IsUnmatched (lists_of self.now.calls.now) (receipts_of self.now.receipts.now)
            client number }
    {
        let ask = at(self.calls, client, number);
        let receipt = receipt_at(self.receipts, client, number);
        !are_matched(client, number, ask, receipt)
    }

    /// The number of a client's first call without its receipt, or receipt without its call.
    fn unmatched_of(&self, client: u64) -> Option<u64>
        ensures { IsFirstNumber
            (IsUnmatched (lists_of self.now.calls.now) (receipts_of self.now.receipts.now) client)
            result }
    {
        let count = receipts_len(self.receipts, client).max(len_of(self.calls, client));
        (0..count).find(|number| self.is_unmatched(client, *number))
    }
}

impl Search for Unmatched<'_> {
    ghost sought = { λ s. IsUnmatched (lists_of s.calls.now) (receipts_of s.receipts.now) };

    fn first_of(&self, client: u64) -> Option<u64> {
        self.unmatched_of(client)
    }
}

/// The first call without its receipt, or receipt without its call.
pub(crate) fn first_unmatched<R: Threads + Sync>(
    rt: &R,
    receipts: &[Receipts],
    calls: &[Vec<Ask>],
) -> Option<CallPlace>
    ensures { IsFirstCall (IsUnmatched (lists_of calls.now) (receipts_of receipts.now)) result }
{
    let clients = clients_of(receipts).max(count_of(calls));
    first_call(rt, &Unmatched { receipts, calls }, clients)
}
