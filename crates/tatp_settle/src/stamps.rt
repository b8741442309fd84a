//! The stamps of each client's receipts.
ghost use Rattle.std.specs.Prelude.{◌≡◌};
ghost use Rattle.tatp_logs.specs.Receipts.{receipts_of};
ghost use Rattle.tatp_settle.specs.CallPlaces.{IsFirstCall, IsFirstNumber};
ghost use Rattle.tatp_settle.specs.Causes.{StampFalls};
ghost use Rattle.tatp_settle.specs.Stamping.{is_above};

use crate::lists::{clients_of, receipt_at, receipts_len};
use crate::places::CallPlace;
use crate::searches::{Search, first_call};
use std::thread::Threads;
use tatp_logs::{ReceiptRef, Receipts};

/// Whether the stamp is above the last one, if there is one.
fn is_above(last: Option<u64>, stamp: u64) -> bool
    ensures { result ≡ is_above last stamp }
{
    match last {
        None => true,
        Some(last) => last < stamp,
    }
}

/// The number of a client's first call whose stamp isn't above that of an earlier one.
fn falling_of(receipts: &[Receipts], client: u64) -> Option<u64>
    ensures { IsFirstNumber (StampFalls (receipts_of receipts.now) client) result }
{
    let mut last: Option<u64> = None;
    'calls: for number in 0..receipts_len(receipts, client) {
        match receipt_at(receipts, client, number) {
            Some(ReceiptRef::Done { stamp, .. }) => {
                if !is_above(last, stamp) {
                    return Some(number);
                }
                last = Some(stamp);
            }
            Some(ReceiptRef::Refused { .. }) => {}
            None => {}
        }
    }
    None
}

/// The search for stamps that don't rise.
#[derive(Drop)]
struct Falling<'a> {
    receipts: &'a [Receipts],
}

impl Search for Falling<'_> {
    ghost sought = { λ s. StampFalls (receipts_of s.receipts.now) };

    fn first_of(&self, client: u64) -> Option<u64> {
        falling_of(self.receipts, client)
    }
}

/// The first call whose stamp isn't above that of an earlier call of its client.
pub(crate) fn first_falling<R: Threads + Sync>(rt: &R, receipts: &[Receipts]) -> Option<CallPlace>
    ensures { IsFirstCall (StampFalls (receipts_of receipts.now)) result }
{
    first_call(rt, &Falling { receipts }, clients_of(receipts))
}
