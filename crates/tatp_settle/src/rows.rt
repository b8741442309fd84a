//! The rows now, and how often extents were moved.
ghost use Rattle.std.specs.Prelude.{◌≡◌, ◌≤◌, ◌^◌, IfOk, OnOk};
ghost use Rattle.tatp_extents.specs.HomeRows.{with_homes};
ghost use Rattle.tatp_settle.specs.Closings.{homes_numbered, moves_numbered};
ghost use Rattle.tatp_settle.specs.Runs.{extents_populated, moves_left, rows_left, shown};

use crate::Closed;
use crate::logs::extent_numbered;
use crate::run::Run;
use std::alloc::{AllocError, Global};
use tatp_extents::extent_count;
use tatp_limits::MAX_EXTENT_MOVES;
use tatp_tables::Rows;

/// How many extents the population makes.
fn extents_populated(population: &Rows) -> u64
    ensures { result ≡ extents_populated population.now }
{
    extent_count(population.subscribers.len() as u64)
}

/// The rows now, extent by extent.
pub(crate) fn rows_now(alloc: Global, run: &Run<'_>) -> Result<Rows, AllocError>
    ensures { IfOk result (λ rows. rows ≡ rows_left (shown run.now)) }
{
    let mut rows = Rows::new(alloc);
    'extents: for before in 0..extents_populated(run.population) {
        add_rows(&mut rows, run.closed, before + 1)?;
    }
    Ok(rows)
}

/// Adds the rows now of an extent, none where it isn't there.
fn add_rows(rows: &mut Rows, closed: &Closed, number: u64) -> Result<(), AllocError>
    ensures { OnOk result (rows.new ≡ with_homes rows.old (homes_numbered closed.now number)) }
{
    match extent_numbered(closed, number) {
        Some(extent) => extent.add_rows(rows),
        None => Ok(()),
    }
}

/// How often the extents were moved.
pub(crate) fn count_moves(run: &Run<'_>) -> u64
    ensures { result ≡ moves_left (shown run.now) }
{
    let mut moves = 0;
    'extents: for before in 0..extents_populated(run.population) {
        moves += moves_of(run.closed, before + 1);
    }
    moves
}

/// How often an extent was moved, 0 where it isn't there.
fn moves_of(closed: &Closed, number: u64) -> u64
    ensures value { result ≡ moves_numbered closed.now number }
    ensures most { result ≤ MAX_EXTENT_MOVES }
    ensures none { 2 ^ 32 ≤ number → result ≡ 0 }
{
    match extent_numbered(closed, number) {
        Some(extent) if extent.number() as u64 == number => extent.moves() as u64,
        _ => 0,
    }
}
