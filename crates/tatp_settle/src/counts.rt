//! What a settled run counts.
ghost use Rattle.std.specs.Prelude.{◌≡◌, ◌<◌, ◌^◌, not, length, map, count_by};
ghost use Rattle.std.specs.List.{range_with_len};
ghost use Rattle.tatp_logs.specs.Receipts.{receipt_seen, receipts_of};
ghost use Rattle.tatp_logs.specs.Lists.{lists_of};
ghost use Rattle.tatp_settle.specs.Runs.{joined, shown};
ghost use Rattle.tatp_settle.specs.Receipts.{is_done};
ghost use Rattle.tatp_settle.specs.Answering.{is_of_kind};
ghost use Rattle.tatp_settle.specs.Settlements.{completed, refused, calls_by_kind};

use crate::run::Run;
use std::thread::{Threads, join};
use tatp_calls::Ask;
use tatp_logs::{ReceiptRef, Receipts};

/// How many calls were completed, to how many memory was refused, and how many there are of each
/// kind, in the order of the mix.
pub(crate) type Counts = ((u64, u64), [u64; 7]);

/// The counts of a run. Receipts and calls are counted by a thread of their own each, where one can
/// be made.
pub(crate) fn count_all<R: Threads + Sync>(rt: &R, run: &Run<'_>) -> Counts
    requires receipts { length (joined (shown run.now).receipts) < 2 ^ 64 }
    requires calls { length (joined (shown run.now).calls) < 2 ^ 64 }
    ensures completed { result.0.0 ≡ completed (shown run.now) }
    ensures refused { result.0.1 ≡ refused (shown run.now) }
    ensures kinds { result.1 ≡ calls_by_kind (shown run.now) }
{
    let Run {
        receipts,
        calls,
        ..
    } = *run;
    let received = || -> (u64, u64)
        requires { length (joined (receipts_of receipts.now)) < 2 ^ 64 }
        ensures completed { result.0 ≡ count_by is_done (joined (receipts_of receipts.entry.now)) }
        ensures refused { result.1
            ≡ count_by (λ receipt. not (is_done receipt))
            (joined (receipts_of receipts.entry.now)) }
    { count_receipts(receipts) };
    let asked = || -> [u64; 7]
        requires { length (joined (lists_of calls.now)) < 2 ^ 64 }
        ensures { result
            ≡ map (λ kind. count_by (is_of_kind kind) (joined (lists_of calls.entry.now)))
            (range_with_len 0 7) }
    { count_kinds(calls) };
    join(rt, received, asked)
}

/// Whether a receipt is of a completed call.
fn is_done(receipt: ReceiptRef<'_>) -> bool
    ensures { result ≡ is_done (receipt_seen receipt.entry) }
{
    matches!(receipt, ReceiptRef::Done { .. })
}

/// How many calls were completed, and to how many memory was refused.
fn count_receipts(receipts: &[Receipts]) -> (u64, u64)
    requires few { length (joined (receipts_of receipts.now)) < 2 ^ 64 }
    ensures completed { result.0 ≡ count_by is_done (joined (receipts_of receipts.now)) }
    ensures refused { result.1
        ≡ count_by (λ receipt. not (is_done receipt)) (joined (receipts_of receipts.now)) }
{
    let mut completed = 0;
    let mut refused = 0;
    'lists: for list in receipts {
        'receipts: for index in 0..list.len() {
            match list.get(index) {
                None => {}
                Some(receipt) => {
                    if is_done(receipt) {
                        completed += 1;
                    } else {
                        refused += 1;
                    }
                }
            }
        }
    }
    (completed, refused)
}

/// How many calls there are of each kind, in the order of the mix.
fn count_kinds(calls: &[Vec<Ask>]) -> [u64; 7]
    requires few { length (joined (lists_of calls.now)) < 2 ^ 64 }
    ensures { result
        ≡ map (λ kind. count_by (is_of_kind kind) (joined (lists_of calls.now)))
        (range_with_len 0 7) }
{
    let mut kinds = [0; 7];
    'lists: for list in calls {
        'calls: for ask in list {
            if let Ask::Txn(call) = ask {
                kinds[call.procedure()] += 1;
            }
        }
    }
    kinds
}
