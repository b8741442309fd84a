//! Calls whose receipt or ask differs from their entry.
ghost use Rattle.std.specs.Prelude.{◌↔◌, IsTrue, Some};
ghost use Rattle.tatp_logs.specs.Receipts.{receipt_seen};
ghost use Rattle.tatp_settle.specs.CallPlaces.{IsFirstCall, IsFirstNumber};
ghost use Rattle.tatp_settle.specs.Agreeing.{Agrees};
ghost use Rattle.tatp_settle.specs.Comparing.{DiffersIn, IsReady};

use crate::lists::{at, clients_of, receipt_at, receipts_len};
use crate::log_table::LogTable;
use crate::places::{CallPlace, LogPlace};
use crate::searches::{Search, first_call};
use crate::table::Table;
use std::thread::Threads;
use tatp_calls::Ask;
use tatp_logs::{ReceiptRef, Receipts};

/// Whether the entry in a place is what a call's receipt and its client say.
fn says(logs: &LogTable<'_>, place: LogPlace, ask: &Ask, receipt: ReceiptRef<'_>) -> bool
    ensures { IsTrue result ↔ Agrees logs.now (Some place) ask.now (receipt_seen receipt.entry) }
{
    match receipt {
        ReceiptRef::Refused { .. } => false,
        ReceiptRef::Done {
            reply,
            extent,
            stamp,
            ..
        } => {
            place.extent == extent as u64
                && logs.has_said(place.extent, place.index, ask, reply, stamp)
        }
    }
}

/// Whether the receipt and the ask of a call are what its entry says, or the call is refused and
/// has none.
fn agrees(logs: &LogTable<'_>, cell: Option<LogPlace>, ask: &Ask, receipt: ReceiptRef<'_>) -> bool
    ensures { IsTrue result ↔ Agrees logs.now cell ask.now (receipt_seen receipt.entry) }
{
    match cell {
        None => match receipt {
            ReceiptRef::Refused { .. } => true,
            ReceiptRef::Done { .. } => false,
        },
        Some(place) => says(logs, place, ask, receipt),
    }
}

/// The search for calls whose receipt or ask isn't what their entry says.
#[derive(Drop)]
pub(crate) struct Differing<'a, 'c> {
    /// The logs of the entries.
    pub(crate) logs: &'a LogTable<'c>,
    /// Where the entry of each call is.
    pub(crate) table: &'a Table<LogPlace>,
    /// What each client got for its calls.
    pub(crate) receipts: &'a [Receipts],
    /// What each client asked.
    pub(crate) calls: &'a [Vec<Ask>],
}

impl Differing<'_, '_> {
    /// Whether the receipt or the ask of a call isn't what its entry says.
    fn differs_at(&self, client: u64, number: u64) -> bool
        requires { IsReady self.now }
        ensures { IsTrue result ↔ DiffersIn self.now client number }
    {
        let Some(receipt) = receipt_at(self.receipts, client, number) else {
            return false;
        };
        let Some(ask) = at(self.calls, client, number) else {
            return false;
        };
        let Some(cell) = self.table.cell(client, number) else {
            return false;
        };
        !agrees(self.logs, cell, ask, receipt)
    }

    /// The number of a client's first call whose receipt or ask isn't what its entry says.
    fn differing_of(&self, client: u64) -> Option<u64>
        requires { IsReady self.now }
        ensures { IsFirstNumber (DiffersIn self.now client) result }
    {
        (0..receipts_len(self.receipts, client)).find(|number| self.differs_at(client, *number))
    }
}

impl Search for Differing<'_, '_> {
    ghost sought = { DiffersIn };

    ghost ready = { IsReady };

    fn first_of(&self, client: u64) -> Option<u64> {
        self.differing_of(client)
    }
}

/// The first call whose receipt or ask isn't what its entry says.
pub(crate) fn first_differing<R: Threads + Sync>(
    rt: &R,
    differing: &Differing<'_, '_>,
) -> Option<CallPlace>
    requires { IsReady differing.now }
    ensures { IsFirstCall (DiffersIn differing.now) result }
{
    first_call(rt, differing, clients_of(differing.receipts))
}
