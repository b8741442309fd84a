//! A Call_Forwarding row as a home keeps it.
ghost use Rattle.std.specs.Prelude.{◌≡◌, ◌+◌, ◌<◌, ◌≤◌, None, true, slice_index, slice_index_or, slice_set};
ghost use Rattle.tatp_homes.specs.Cells.{put_cell};
ghost use Rattle.tatp_homes.specs.Changes.{put_answer_at};
ghost use Rattle.tatp_tables.specs.Domains.{is_in_domain, is_row};
ghost use Rattle.tatp_tables.specs.declared.table.Table.TheVariants.{CallForwarding};

use crate::Refusal;
use std::marker::Model;

/// A Call_Forwarding row. Contracts see the list of its columns.
#[derive(Clone, Copy, Debug)]
pub struct StoredForwarding {
    numberx: u64,
    s_id: u32,
    sf_type: u8,
    start_time: u8,
    end_time: u8,
}

impl Model for StoredForwarding {
    ghost use Rattle.std.specs.Prelude.{ℕ, List, [], ◌∷◌, slice_index};

    ghost Value = { List ℕ };

    ghost view = { λ a. a.s_id ∷ a.sf_type ∷ a.start_time ∷ a.end_time ∷ a.numberx ∷ [] };

    ghost inverse = { λ row. record {
      numberx = slice_index row 4;
      s_id = slice_index row 0;
      sf_type = slice_index row 1;
      start_time = slice_index row 2;
      end_time = slice_index row 3;
    } };
}

impl StoredForwarding {
    /// The row with these columns.
    #[tactic(auto, unfolding(tatp_tables::specs::Domains::is_in_domain))]
    pub fn of(row: &[u64; 5]) -> StoredForwarding
        requires { is_row CallForwarding row.now ≡ true }
        ensures { result ≡ row.now }
    {
        StoredForwarding {
            numberx: row[4],
            s_id: row[0] as u32,
            sf_type: row[1] as u8,
            start_time: row[2] as u8,
            end_time: row[3] as u8,
        }
    }

    /// Its columns.
    pub fn columns(&self) -> [u64; 5]
        ensures { result ≡ self.now }
    {
        [
            u64::from(self.s_id),
            u64::from(self.sf_type),
            u64::from(self.start_time),
            u64::from(self.end_time),
            self.numberx,
        ]
    }

    /// The column at a place.
    pub fn get(&self, place: usize) -> u64
        requires { place < 5 }
        ensures { result ≡ slice_index self.now place }
    {
        match place {
            0 => u64::from(self.s_id),
            1 => u64::from(self.sf_type),
            2 => u64::from(self.start_time),
            3 => u64::from(self.end_time),
            _ => self.numberx,
        }
    }

    /// The row with a column set that is none of the key's.
    #[tactic(auto, unfolding(tatp_tables::specs::Domains::is_in_domain))]
    pub fn with(mut self, place: usize, value: u64) -> StoredForwarding
        requires place { (3 ≤ place) × (place < 5) }
        requires value { is_in_domain (46 + place) value ≡ true }
        ensures { result ≡ slice_set self place value }
    {
        match place {
            3 => self.end_time = value as u8,
            _ => self.numberx = value,
        }
        self
    }
}

/// Sets a column of the row in one of a home's cells, where the value fits, and gives the value
/// before. The column is none of the key's.
pub fn put_forwarding(
    cells: &mut [Option<StoredForwarding>; 12],
    at: usize,
    place: usize,
    value: u64,
    fits: bool,
) -> Result<u64, Refusal>
    requires cell { at < 12 }
    requires place { (3 ≤ place) × (place < 5) }
    requires fits { fits ≡ is_in_domain (46 + place) value }
    ensures answer { result ≡ put_answer_at place fits (slice_index_or cells.old at None) }
    ensures cells { cells.new
        ≡ slice_set cells.old at (put_cell place fits value (slice_index_or cells.old at None)) }
{
    let Some(row) = cells[at] else {
        return Err(Refusal::NoCurrent);
    };
    if !fits {
        return Err(Refusal::Domain);
    }
    cells[at] = Some(row.with(place, value));
    Ok(row.get(place))
}

/// Takes the row out of one of a home's cells.
pub fn take_forwarding(cells: &mut [Option<StoredForwarding>; 12], at: usize) -> Option<[u64; 5]>
    requires { at < 12 }
    ensures row { result ≡ slice_index_or cells.old at None }
    ensures cells { cells.new ≡ slice_set cells.old at None }
{
    let row = columns_in(&cells[at]);
    cells[at] = None;
    row
}

/// The rows in the Call_Forwarding cells of a home.
pub fn forwardings_in(cells: &[Option<StoredForwarding>; 12]) -> [Option<[u64; 5]>; 12]
    ensures { result ≡ cells.now }
{
    let mut rows = [None; 12];
    for at in 0..12 {
        rows[at] = columns_in(&cells[at]);
    }
    rows
}

fn columns_in(cell: &Option<StoredForwarding>) -> Option<[u64; 5]>
    ensures { result ≡ cell.now }
{
    match cell {
        Some(row) => Some(row.columns()),
        None => None,
    }
}
