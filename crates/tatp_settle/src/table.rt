//! Tables of cells, row by row, each of which is filled at most once.
ghost use Rattle.std.specs.Prelude.{◌≡◌, ◌++◌, ◌∷◌, [], None, IfOk, OnOk, length, replicate, slice_get};
ghost use Rattle.std.specs.Option.{option_map_or};
ghost use Rattle.tatp_logs.specs.Receipts.{receipts_of};
ghost use Rattle.tatp_settle.specs.Runs.{at_call};
ghost use Rattle.tatp_settle.specs.Placing.{cells_of, IsFresh, Puts};

use std::alloc::{AllocError, Global};
use std::marker::Model;
use tatp_logs::Receipts;

/// Rows of cells, each of which is empty or filled.
#[derive(Drop)]
pub(crate) struct Table<P> {
    rows: Vec<Vec<Option<P>>>,
}

impl<P> Model for Table<P> {
    ghost use Rattle.std.specs.Prelude.{List, Option};
    ghost use Rattle.tatp_logs.specs.Lists.{lists_of};

    ghost Value = { List (List (Option P)) };

    ghost view = { λ t. lists_of t.rows.items };
}

impl<P: Copy> Table<P> {
    /// A table without a row.
    pub(crate) fn new(alloc: Global) -> Table<P>
        ensures { result ≡ [] }
    {
        Table {
            rows: Vec::new(alloc),
        }
    }

    /// An empty cell for each call that has a receipt.
    pub(crate) fn fresh(alloc: Global, receipts: &[Receipts]) -> Result<Table<P>, AllocError>
        ensures fresh { IfOk result (λ table.
            IsFresh (at_call (receipts_of receipts.now)) (cells_of table)) }
        ensures len { IfOk result (λ table. length table ≡ length receipts.now) }
    {
        let mut table = Table::new(alloc);
        'lists: for list in receipts {
            table.add_row(alloc, list.len())?;
        }
        Ok(table)
    }

    /// One row more, of `count` empty cells.
    pub(crate) fn add_row(&mut self, alloc: Global, count: usize) -> Result<(), AllocError>
        ensures { OnOk result (self.new ≡ self.old ++ replicate count None ∷ []) }
    {
        self.rows.push(fresh_row(alloc, count)?)?;
        Ok(())
    }

    /// How many rows there are.
    pub(crate) fn len(&self) -> usize
        ensures { result ≡ length self.now }
    {
        self.rows.len()
    }

    /// How many cells a row has, 0 where there is no such row.
    pub(crate) fn row_len(&self, row: u64) -> usize
        ensures { result ≡ option_map_or length (slice_get self.now row) 0 }
    {
        match self.rows.get(row as usize) {
            Some(cells) => cells.len(),
            None => 0,
        }
    }

    /// A cell, if there is one.
    pub(crate) fn cell(&self, row: u64, column: u64) -> Option<Option<P>>
        ensures { result ≡ cells_of self.now row column }
    {
        self.rows.get(row as usize)?.get(column as usize).copied()
    }

    /// Fills an empty cell; false where it is filled or isn't there.
    pub(crate) fn put(&mut self, row: u64, column: u64, value: P) -> bool
        ensures puts { Puts (cells_of self.old) row column value result (cells_of self.new) }
        ensures len { length self.new ≡ length self.old }
    {
        let Some(None) = self.cell(row, column) else {
            return false;
        };
        self.rows[row as usize][column as usize] = Some(value);
        true
    }

    /// The rows of another, behind its own.
    pub(crate) fn append(&mut self, mut other: Table<P>) -> Result<(), AllocError>
        ensures { OnOk result (self.new ≡ self.old ++ other) }
    {
        self.rows.append(&mut other.rows)
    }
}

/// A row of `count` empty cells.
fn fresh_row<P: Copy>(alloc: Global, count: usize) -> Result<Vec<Option<P>>, AllocError>
    ensures { IfOk result (λ row. row.items ≡ replicate count None) }
{
    let mut row = Vec::with_capacity(alloc, count)?;
    'cells: for _ in 0..count {
        row.push_reserved(None);
    }
    Ok(row)
}
