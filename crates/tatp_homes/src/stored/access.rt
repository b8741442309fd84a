//! An Access_Info row as a home keeps it.
ghost use Rattle.std.specs.Prelude.{◌≡◌, ◌+◌, ◌<◌, ◌≤◌, None, true, slice_index, slice_index_or, slice_set};
ghost use Rattle.tatp_homes.specs.Cells.{put_cell};
ghost use Rattle.tatp_homes.specs.Changes.{put_answer_at};
ghost use Rattle.tatp_tables.specs.Domains.{is_in_domain, is_row};
ghost use Rattle.tatp_tables.specs.declared.table.Table.TheVariants.{AccessInfo};

use crate::Refusal;
use std::marker::Model;

/// An Access_Info row. Contracts see the list of its columns.
#[derive(Clone, Copy, Debug)]
pub struct StoredAccess {
    data4: u64,
    s_id: u32,
    data3: u32,
    ai_type: u8,
    data1: u8,
    data2: u8,
}

impl Model for StoredAccess {
    ghost use Rattle.std.specs.Prelude.{ℕ, List, [], ◌∷◌, slice_index};

    ghost Value = { List ℕ };

    ghost view = { λ a. a.s_id ∷ a.ai_type ∷ a.data1 ∷ a.data2 ∷ a.data3 ∷ a.data4 ∷ [] };

    ghost inverse = { λ row. record {
      data4 = slice_index row 5;
      s_id = slice_index row 0;
      data3 = slice_index row 4;
      ai_type = slice_index row 1;
      data1 = slice_index row 2;
      data2 = slice_index row 3;
    } };
}

impl StoredAccess {
    /// The row with these columns.
    #[tactic(auto, unfolding(tatp_tables::specs::Domains::is_in_domain))]
    pub fn of(row: &[u64; 6]) -> StoredAccess
        requires { is_row AccessInfo row.now ≡ true }
        ensures { result ≡ row.now }
    {
        StoredAccess {
            data4: row[5],
            s_id: row[0] as u32,
            data3: row[4] as u32,
            ai_type: row[1] as u8,
            data1: row[2] as u8,
            data2: row[3] as u8,
        }
    }

    /// Its columns.
    pub fn columns(&self) -> [u64; 6]
        ensures { result ≡ self.now }
    {
        [
            u64::from(self.s_id),
            u64::from(self.ai_type),
            u64::from(self.data1),
            u64::from(self.data2),
            u64::from(self.data3),
            self.data4,
        ]
    }

    /// The column at a place.
    pub fn get(&self, place: usize) -> u64
        requires { place < 6 }
        ensures { result ≡ slice_index self.now place }
    {
        match place {
            0 => u64::from(self.s_id),
            1 => u64::from(self.ai_type),
            2 => u64::from(self.data1),
            3 => u64::from(self.data2),
            4 => u64::from(self.data3),
            _ => self.data4,
        }
    }

    /// The row with a column set that is none of the key's.
    #[tactic(auto, unfolding(tatp_tables::specs::Domains::is_in_domain))]
    pub fn with(mut self, place: usize, value: u64) -> StoredAccess
        requires place { (2 ≤ place) × (place < 6) }
        requires value { is_in_domain (34 + place) value ≡ true }
        ensures { result ≡ slice_set self place value }
    {
        match place {
            2 => self.data1 = value as u8,
            3 => self.data2 = value as u8,
            4 => self.data3 = value as u32,
            _ => self.data4 = value,
        }
        self
    }
}

/// Sets a column of the row in one of a home's cells, where the value fits, and gives the value
/// before. The column is none of the key's.
pub fn put_access(
    cells: &mut [Option<StoredAccess>; 4],
    at: usize,
    place: usize,
    value: u64,
    fits: bool,
) -> Result<u64, Refusal>
    requires cell { at < 4 }
    requires place { (2 ≤ place) × (place < 6) }
    requires fits { fits ≡ is_in_domain (34 + place) value }
    ensures answer { result ≡ put_answer_at place fits (slice_index_or cells.old at None) }
    ensures cells { cells.new
        ≡ slice_set cells.old at (put_cell place fits value (slice_index_or cells.old at None)) }
{
    let Some(row) = cells[at] else {
        return Err(Refusal::NoCurrent);
    };
    if !fits {
        return Err(Refusal::Domain);
    }
    cells[at] = Some(row.with(place, value));
    Ok(row.get(place))
}

/// The rows in the Access_Info cells of a home.
pub fn accesses_in(cells: &[Option<StoredAccess>; 4]) -> [Option<[u64; 6]>; 4]
    ensures { result ≡ cells.now }
{
    [
        columns_in(&cells[0]),
        columns_in(&cells[1]),
        columns_in(&cells[2]),
        columns_in(&cells[3]),
    ]
}

fn columns_in(cell: &Option<StoredAccess>) -> Option<[u64; 6]>
    ensures { result ≡ cell.now }
{
    match cell {
        Some(row) => Some(row.columns()),
        None => None,
    }
}
