//! Rows of the four tables, and lists of them.
ghost use Rattle.std.specs.Prelude.{◌≡◌, [], ◌∷◌, ◌++◌, ◌==◌, ◌<◌, length, take, slice_index_or, OnOk, OnErr};
ghost use Rattle.tatp_tables.specs.Rows.{rows_in, with_row};

use crate::Table;
use std::alloc::{AllocError, AllocFailed, Global};
use std::marker::Model;

/// One row of a table, its columns in the order of the schema.
#[derive(Clone, Copy, Debug, PartialEq, Eq)]
pub enum Row {
    /// A Subscriber row.
    S([u64; 34]),
    /// An Access_Info row.
    A([u64; 6]),
    /// A Special_Facility row.
    F([u64; 6]),
    /// A Call_Forwarding row.
    C([u64; 5]),
}

/// The rows of one table with N columns, in any order. Contracts see the list of its rows.
#[derive(Drop)]
pub struct RowList<const N: usize> {
    rows: Vec<[u64; N]>,
}

impl<const N: usize> Model for RowList<N> {
    ghost use Rattle.std.specs.Prelude.{List, ℕ};

    ghost Value = { List (List ℕ) };

    ghost view = { λ a. a.rows.items };
}

impl<const N: usize> RowList<N> {
    /// No rows.
    pub fn new(alloc: Global) -> Self
        ensures { result ≡ [] }
    {
        RowList {
            rows: Vec::new(alloc),
        }
    }

    /// The rows of a vector.
    pub fn from_vec(rows: Vec<[u64; N]>) -> Self
        ensures { result ≡ rows.entry.items }
    {
        RowList { rows }
    }

    /// The vector of the rows.
    pub fn into_vec(self) -> Vec<[u64; N]>
        ensures { result.items ≡ self.entry }
    {
        let Self { rows } = self;
        rows
    }

    /// The rows.
    pub fn as_slice(&self) -> &[[u64; N]]
        ensures { result.now ≡ self.now }
    {
        self.rows.as_slice()
    }

    /// How many rows there are.
    pub fn len(&self) -> usize
        ensures { result ≡ length self.now }
    {
        self.rows.len()
    }

    /// Whether there is no row.
    pub fn is_empty(&self) -> bool
        ensures { result ≡ (length self.now == 0) }
    {
        self.rows.is_empty()
    }

    /// Appends a row. An error leaves the rows as they were.
    pub fn push(&mut self, row: [u64; N]) -> Result<(), AllocError>
        ensures ok { OnOk result (self.new ≡ self.old ++ row.entry ∷ []) }
        ensures err { OnErr result (self.new ≡ self.old) }
    {
        self.rows.push(row)?;
        Ok(())
    }

    /// Drops the rows past this many.
    pub fn truncate(&mut self, len: usize)
        ensures { self.new ≡ take len self.old }
    {
        self.rows.truncate(len);
    }
}

/// The rows of a database, table by table. Equal rows may be in it.
#[derive(Drop)]
pub struct Rows {
    pub subscribers: RowList<34>,
    pub accesses: RowList<6>,
    pub facilities: RowList<6>,
    pub forwardings: RowList<5>,
}

impl Rows {
    /// No rows.
    pub fn new(alloc: Global) -> Rows
        ensures { result
            ≡ record { subscribers = []; accesses = []; facilities = []; forwardings = [] } }
    {
        Rows {
            subscribers: RowList::new(alloc),
            accesses: RowList::new(alloc),
            facilities: RowList::new(alloc),
            forwardings: RowList::new(alloc),
        }
    }

    /// Appends a row to its table. An error leaves the rows as they were.
    pub fn push(&mut self, row: Row) -> Result<(), AllocError>
        ensures ok { OnOk result (self.new ≡ with_row self.old row) }
        ensures err { OnErr result (self.new ≡ self.old) }
    {
        match row {
            Row::S(columns) => self.subscribers.push(columns),
            Row::A(columns) => self.accesses.push(columns),
            Row::F(columns) => self.facilities.push(columns),
            Row::C(columns) => self.forwardings.push(columns),
        }
    }
}
