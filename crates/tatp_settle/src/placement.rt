//! The entries of all logs, put into the table of calls.
ghost use Rattle.std.specs.Prelude.{◌≡◌, ◌⊎◌, ◌+◌, ◌<◌, ◌≤◌, ◌^◌, ◌++◌, ℕ, Bool, true, false, List, IfOk, length};
ghost use denote.Param.Send.{IsSync};
ghost use Rattle.tatp_logs.specs.declared.receipt.Receipt.{Receipt};
ghost use Rattle.tatp_logs.specs.Receipts.{receipts_of};
ghost use Rattle.tatp_settle.specs.Closings.{ClosedState};
ghost use Rattle.tatp_settle.specs.Placing.{ArePlacedOrExtra, IsTableOf, IsTableOfPart};

use crate::log_table::LogTable;
use crate::places::{CallPlace, LogPlace, lesser};
use crate::table::Table;
use std::alloc::{AllocError, Global};
use std::thread::{Threads, join};
use tatp_logs::Receipts;

/// How often the clients are halved. Each half is handled by a thread of its own, if one can be
/// started. Each thread reads all logs: more threads than processors would gain nothing.
const HALVINGS: u32 = 2;

/// Some clients that follow one another, with their receipts.
#[derive(Clone, Copy)]
pub(crate) struct Part<'a> {
    pub(crate) receipts: &'a [Receipts],
    /// The first of them.
    pub(crate) first: u64,
    /// Whether all later clients belong to the part too.
    pub(crate) last: bool,
}

/// Where the entry of each call is.
#[derive(Drop)]
pub(crate) struct Placed {
    pub(crate) table: Table<LogPlace>,
    /// The first call with an entry that has no cell of its own.
    pub(crate) extra: Option<CallPlace>,
}

/// Whether a client belongs to a part: one of `count` from the first on, or, in the last part, any
/// later one.
fn belongs(client: u64, first: u64, count: u64, last: bool) -> bool
    ensures belongs { result ≡ true
        → (first ≤ client) × ((client < first + count) ⊎ (last ≡ true)) }
    ensures other { result ≡ false
        → (client < first) ⊎ ((first + count ≤ client) × (last ≡ false)) }
{
    client >= first && (last || client - first < count)
}

/// The table of a part of the clients, and the first call of theirs with an entry too many. By this
/// thread alone.
fn place_in_turn(alloc: Global, logs: &LogTable<'_>, part: &Part<'_>) -> Result<Placed, AllocError>
    ensures { IfOk result (IsTableOfPart logs.now part.now) }
{
    let count = part.receipts.len() as u64;
    let mut table = Table::fresh(alloc, part.receipts)?;
    let mut extra: Option<CallPlace> = None;
    'logs: for extent in 0..logs.count() {
        let mut near = 0;
        'entries: for index in 0..logs.len(extent) {
            let (client, number) = logs.caller(extent, &mut near, index);
            if belongs(client, part.first, count, part.last)
                && !table.put(client - part.first, number, LogPlace { extent, index })
            {
                extra = lesser(extra, CallPlace { client, number });
            }
        }
    }
    Ok(Placed { table, extra })
}

/// The table of two parts that follow one another, and their first call with an entry too many.
fn put_together(
    front: Result<Placed, AllocError>,
    back: Result<Placed, AllocError>,
) -> Result<Placed, AllocError>
    ensures { (closed : ClosedState) (low high : List (List Receipt)) (first : ℕ) (last : Bool)
        → IfOk front (IsTableOf closed low first false)
        → IfOk back (IsTableOf closed high (first + length low) last)
        → IfOk result (IsTableOf closed (low ++ high) first last) }
{
    let front = front?;
    let back = back?;
    let mut table = front.table;
    table.append(back.table)?;
    Ok(Placed {
        table,
        extra: front.extra.or(back.extra),
    })
}

/// As `place_in_turn`, by halves of the part, each by a thread of its own, where one can be made.
#[cycle(parts)]
fn place_part<R: Threads + Sync>(
    rt: &R,
    alloc: Global,
    logs: &LogTable<'_>,
    part: &Part<'_>,
    halvings: u32,
) -> Result<Placed, AllocError>
    requires { part.now.first + length part.now.receipts.now < 2 ^ 64 }
    ensures { IfOk result (IsTableOfPart logs.now part.now) }
{
    if halvings == 0 || part.receipts.len() < 2 {
        return place_in_turn(alloc, logs, part);
    }
    let (low, high) = part.receipts.split_at(part.receipts.len() / 2);
    let front = Part {
        receipts: low,
        first: part.first,
        last: false,
    };
    let back = Part {
        receipts: high,
        first: part.first + low.len() as u64,
        last: part.last,
    };
    let lower = || -> Result<Placed, AllocError>
        requires { IsSync R.row
            × (0 < halvings)
            × (front.first + length front.receipts.now < 2 ^ 64) }
        ensures { IfOk result (IsTableOfPart logs.entry.now front.entry) }
    { place_part(rt, alloc, logs, &front, halvings - 1) };
    let upper = || -> Result<Placed, AllocError>
        requires { IsSync R.row
            × (0 < halvings)
            × (back.first + length back.receipts.now < 2 ^ 64) }
        ensures { IfOk result (IsTableOfPart logs.entry.now back.entry) }
    { place_part(rt, alloc, logs, &back, halvings - 1) };
    let (lower, upper) = join(rt, lower, upper);
    put_together(lower, upper)
}

/// The table of the entries' places, and the first call with an entry too many.
pub(crate) fn place_entries<R: Threads + Sync>(
    rt: &R,
    alloc: Global,
    logs: &LogTable<'_>,
    receipts: &[Receipts],
) -> Result<Placed, AllocError>
    ensures { IfOk result (ArePlacedOrExtra logs.now (receipts_of receipts.now)) }
{
    let everyone = Part {
        receipts,
        first: 0,
        last: true,
    };
    place_part(rt, alloc, logs, &everyone, HALVINGS)
}
