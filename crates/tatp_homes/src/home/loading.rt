//! Homes from lists of rows: one s_id's, or all.
//!
//! The tables are read one after another, each in one pass, and each row goes into its own home.
ghost use Rattle.std.specs.Prelude.{◌≡◌, ℕ, ◌+◌, ◌^◌, ◌<◌, ◌≤◌, ◌∷◌, [], IfSome, IfNone, IfOk, None, true, map, length, take, slice_index_or};
ghost use Rattle.tatp_tables.specs.Keys.{has_key, row_at};
ghost use Rattle.tatp_tables.specs.Domains.{is_row};
ghost use Rattle.tatp_tables.specs.Database.{no_tables, database_of, current_row};
ghost use Rattle.tatp_homes.specs.Home.{home_in, home_with_row, HasParent};
ghost use Rattle.tatp_tables.specs.Clean.{IsClean};
ghost use Rattle.tatp_tables.specs.Rows.{rows_in};
ghost use Rattle.tatp_homes.specs.Loading.{read_until, read_with, homes_in, lists_in};

use super::Home;
use crate::place::type_place;
use crate::stored::{StoredAccess, StoredFacility, StoredSubscriber};
use std::alloc::{AllocError, Global};
use tatp_tables::{Rows, Table};

impl Home {
    /// The rows of one s_id among clean rows; none where no row has it.
    pub fn of(rows: &Rows, s_id: u64) -> Home
        requires { IsClean rows.now }
        ensures { result ≡ home_in (database_of rows.now) s_id }
    {
        let mut home = Home::empty(s_id);
        home.read(rows, Table::Subscriber);
        home.read(rows, Table::AccessInfo);
        home.read(rows, Table::SpecialFacility);
        home.read(rows, Table::CallForwarding);
        home
    }

    /// Takes in its own among the rows of one table.
    fn read(&mut self, rows: &Rows, table: Table)
        requires clean { IsClean rows.now }
        requires before { self.old ≡ home_in (read_until table rows.now 0) self.old.s_id }
        ensures { self.new ≡ home_in (read_with table rows.now) self.old.s_id }
    {
        for i in 0..count_of(rows, table) {
            let row = row_of(rows, table, i);
            if row[0] == self.s_id() {
                self.hold(table, row);
            }
        }
    }

    /// Takes in a row of its own.
    fn hold(&mut self, table: Table, row: &[u64])
        requires row { is_row table row.now ≡ true }
        requires own { has_key (self.old.s_id ∷ []) row.now ≡ true }
        requires free { current_row table self.old.tables row.now ≡ None }
        requires parent { HasParent table self.old.tables row.now }
        ensures { self.new ≡ home_with_row self.old table row.now }
    {
        match table {
            Table::Subscriber => self.hold_subscriber(columns(row)),
            Table::AccessInfo => self.hold_access(columns(row)),
            Table::SpecialFacility => self.hold_facility(columns(row)),
            Table::CallForwarding => self.hold_forwarding(columns(row)),
        }
    }

    fn hold_subscriber(&mut self, row: &[u64; 34])
        requires row { is_row Table.Subscriber row.now ≡ true }
        requires own { has_key (self.old.s_id ∷ []) row.now ≡ true }
        requires free { row_at self.old.tables.subscribers (take 1 row.now) ≡ None }
        ensures { self.new ≡ home_with_row self.old Table.Subscriber row.now }
    {
        self.subscriber = Some(StoredSubscriber::of(row));
    }

    fn hold_access(&mut self, row: &[u64; 6])
        requires row { is_row Table.AccessInfo row.now ≡ true }
        requires own { has_key (self.old.s_id ∷ []) row.now ≡ true }
        requires free { row_at self.old.tables.accesses (take 2 row.now) ≡ None }
        requires parent { HasParent Table.AccessInfo self.old.tables row.now }
        ensures { self.new ≡ home_with_row self.old Table.AccessInfo row.now }
    {
        if let Some(place) = type_place(row[1]) {
            self.accesses[place] = Some(StoredAccess::of(row));
        }
    }

    fn hold_facility(&mut self, row: &[u64; 6])
        requires row { is_row Table.SpecialFacility row.now ≡ true }
        requires own { has_key (self.old.s_id ∷ []) row.now ≡ true }
        requires free { row_at self.old.tables.facilities (take 2 row.now) ≡ None }
        requires parent { HasParent Table.SpecialFacility self.old.tables row.now }
        ensures { self.new ≡ home_with_row self.old Table.SpecialFacility row.now }
    {
        if let Some(place) = type_place(row[1]) {
            self.facilities[place] = Some(StoredFacility::of(row));
        }
    }

    fn hold_forwarding(&mut self, row: &[u64; 5])
        requires row { is_row Table.CallForwarding row.now ≡ true }
        requires own { has_key (self.old.s_id ∷ []) row.now ≡ true }
        requires free { row_at self.old.tables.forwardings (take 3 row.now) ≡ None }
        requires parent { HasParent Table.CallForwarding self.old.tables row.now }
        ensures { self.new ≡ home_with_row self.old Table.CallForwarding row.now }
    {
        if self.insert_cf(*row).is_err() {
            unreachable!();
        }
    }
}

/// How many rows a table has.
fn count_of(rows: &Rows, table: Table) -> usize
    ensures { result ≡ length (rows_in table rows.now) }
{
    match table {
        Table::Subscriber => rows.subscribers.len(),
        Table::AccessInfo => rows.accesses.len(),
        Table::SpecialFacility => rows.facilities.len(),
        Table::CallForwarding => rows.forwardings.len(),
    }
}

/// A row of a table.
fn row_of(rows: &Rows, table: Table, i: usize) -> &[u64]
    requires { i < length (rows_in table rows.now) }
    ensures { result.now ≡ slice_index_or (rows_in table rows.now) i [] }
{
    match table {
        Table::Subscriber => &rows.subscribers.as_slice()[i],
        Table::AccessInfo => &rows.accesses.as_slice()[i],
        Table::SpecialFacility => &rows.facilities.as_slice()[i],
        Table::CallForwarding => &rows.forwardings.as_slice()[i],
    }
}

/// The columns of a row with as many.
fn columns<const N: usize>(row: &[u64]) -> &[u64; N]
    requires { length row.now ≡ N }
    ensures { result.now ≡ row.now }
{
    match row.as_array() {
        Some(columns) => columns,
        None => unreachable!(),
    }
}

/// The homes of the subscribers 1 to N of clean rows, in this order.
pub fn homes(alloc: Global, rows: &Rows) -> Result<Vec<Home>, AllocError>
    requires { IsClean rows.now }
    ensures { IfOk result (λ homes. homes.items
        ≡ homes_in (database_of rows.now) 1 (length rows.now.subscribers)) }
{
    let all = rows.subscribers.len().max(1);
    match homes_in_lists(alloc, rows, all)?.pop() {
        Some(homes) => Ok(homes),
        None => Ok(Vec::new(alloc)),
    }
}

/// The homes of the subscribers 1 to N of clean rows, in this order, in lists of `size`. The last
/// list may be shorter, and none is empty.
pub fn homes_in_lists(alloc: Global, rows: &Rows, size: usize) -> Result<Vec<Vec<Home>>, AllocError>
    requires clean { IsClean rows.now }
    requires size { 1 ≤ size }
    ensures { IfOk result (λ lists. map (λ list. list.items) lists.items
        ≡ lists_in (database_of rows.now) size (length rows.now.subscribers)) }
{
    let mut lists = empty_lists(alloc, rows.subscribers.len(), size)?;
    load(lists.as_mut_slice(), size, rows, Table::Subscriber);
    load(lists.as_mut_slice(), size, rows, Table::AccessInfo);
    load(lists.as_mut_slice(), size, rows, Table::SpecialFacility);
    load(lists.as_mut_slice(), size, rows, Table::CallForwarding);
    Ok(lists)
}

/// Homes without rows, of the s_ids 1 to `count`, in lists of `size`.
fn empty_lists(alloc: Global, count: usize, size: usize) -> Result<Vec<Vec<Home>>, AllocError>
    requires { 1 ≤ size }
    ensures { IfOk result (λ lists. map (λ list. list.items) lists.items
        ≡ lists_in no_tables size count) }
{
    let mut lists = Vec::with_capacity(alloc, count.div_ceil(size))?;
    for list in 0..count.div_ceil(size) {
        let before = size * list;
        lists.push(empty_homes(alloc, before as u64 + 1, size.min(count - before))?)?;
    }
    Ok(lists)
}

/// Homes without rows, of `count` s_ids from the first on.
fn empty_homes(alloc: Global, first: u64, count: usize) -> Result<Vec<Home>, AllocError>
    requires { first + count ≤ 2 ^ 64 }
    ensures { IfOk result (λ homes. homes.items ≡ homes_in no_tables first count) }
{
    let mut homes = Vec::with_capacity(alloc, count)?;
    for place in 0..count {
        homes.push(Home::empty(first + place as u64))?;
    }
    Ok(homes)
}

/// Puts each row of one table into its home, among those of all subscribers in lists of `size`.
fn load(lists: &mut [Vec<Home>], size: usize, rows: &Rows, table: Table)
    requires clean { IsClean rows.now }
    requires size { 1 ≤ size }
    requires before { map (λ list. list.items) lists.old
        ≡ lists_in (read_until table rows.now 0) size (length rows.now.subscribers) }
    ensures { map (λ list. list.items) lists.new
        ≡ lists_in (read_with table rows.now) size (length rows.now.subscribers) }
{
    let count = rows.subscribers.len();
    for i in 0..count_of(rows, table) {
        let row = row_of(rows, table, i);
        if let Some(place) = place_of(count, row[0]) {
            let list = &mut lists[place / size];
            let home = &mut list[place % size];
            home.hold(table, row);
        }
    }
}

/// The place of an s_id among 1 to `count`, counted from 0.
fn place_of(count: usize, s_id: u64) -> Option<usize>
    ensures some { IfSome result (λ i. (i < count) × (1 + i ≡ s_id)) }
    ensures none { IfNone result ((i : ℕ) → i < count → (1 + i ≡ s_id) → ⊥) }
{
    let place = s_id.checked_sub(1)?;
    if place < count as u64 {
        Some(place as usize)
    } else {
        None
    }
}
