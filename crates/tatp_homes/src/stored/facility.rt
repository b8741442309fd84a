//! A Special_Facility row as a home keeps it.
ghost use Rattle.std.specs.Prelude.{◌≡◌, ◌+◌, ◌<◌, ◌≤◌, None, true, slice_index, slice_index_or, slice_set};
ghost use Rattle.tatp_homes.specs.Cells.{put_cell};
ghost use Rattle.tatp_homes.specs.Changes.{put_answer_at};
ghost use Rattle.tatp_tables.specs.Domains.{is_in_domain, is_row};
ghost use Rattle.tatp_tables.specs.declared.table.Table.TheVariants.{SpecialFacility};

use crate::Refusal;
use std::marker::Model;

/// A Special_Facility row. Contracts see the list of its columns.
#[derive(Clone, Copy, Debug)]
pub struct StoredFacility {
    data_b: u64,
    s_id: u32,
    sf_type: u8,
    is_active: u8,
    error_cntrl: u8,
    data_a: u8,
}

impl Model for StoredFacility {
    ghost use Rattle.std.specs.Prelude.{ℕ, List, [], ◌∷◌, slice_index};

    ghost Value = { List ℕ };

    ghost view = { λ a.
        a.s_id ∷ a.sf_type ∷ a.is_active ∷ a.error_cntrl ∷ a.data_a ∷ a.data_b ∷ [] };

    ghost inverse = { λ row. record {
      data_b = slice_index row 5;
      s_id = slice_index row 0;
      sf_type = slice_index row 1;
      is_active = slice_index row 2;
      error_cntrl = slice_index row 3;
      data_a = slice_index row 4;
    } };
}

impl StoredFacility {
    /// The row with these columns.
    #[tactic(auto, unfolding(tatp_tables::specs::Domains::is_in_domain))]
    pub fn of(row: &[u64; 6]) -> StoredFacility
        requires { is_row SpecialFacility row.now ≡ true }
        ensures { result ≡ row.now }
    {
        StoredFacility {
            data_b: row[5],
            s_id: row[0] as u32,
            sf_type: row[1] as u8,
            is_active: row[2] as u8,
            error_cntrl: row[3] as u8,
            data_a: row[4] as u8,
        }
    }

    /// Its columns.
    pub fn columns(&self) -> [u64; 6]
        ensures { result ≡ self.now }
    {
        [
            u64::from(self.s_id),
            u64::from(self.sf_type),
            u64::from(self.is_active),
            u64::from(self.error_cntrl),
            u64::from(self.data_a),
            self.data_b,
        ]
    }

    /// The column at a place.
    pub fn get(&self, place: usize) -> u64
        requires { place < 6 }
        ensures { result ≡ slice_index self.now place }
    {
        match place {
            0 => u64::from(self.s_id),
            1 => u64::from(self.sf_type),
            2 => u64::from(self.is_active),
            3 => u64::from(self.error_cntrl),
            4 => u64::from(self.data_a),
            _ => self.data_b,
        }
    }

    /// The row with a column set that is none of the key's.
    #[tactic(auto, unfolding(tatp_tables::specs::Domains::is_in_domain))]
    pub fn with(mut self, place: usize, value: u64) -> StoredFacility
        requires place { (2 ≤ place) × (place < 6) }
        requires value { is_in_domain (40 + place) value ≡ true }
        ensures { result ≡ slice_set self place value }
    {
        match place {
            2 => self.is_active = value as u8,
            3 => self.error_cntrl = value as u8,
            4 => self.data_a = value as u8,
            _ => self.data_b = value,
        }
        self
    }
}

/// Sets a column of the row in one of a home's cells, where the value fits, and gives the value
/// before. The column is none of the key's.
pub fn put_facility(
    cells: &mut [Option<StoredFacility>; 4],
    at: usize,
    place: usize,
    value: u64,
    fits: bool,
) -> Result<u64, Refusal>
    requires cell { at < 4 }
    requires place { (2 ≤ place) × (place < 6) }
    requires fits { fits ≡ is_in_domain (40 + place) value }
    ensures answer { result ≡ put_answer_at place fits (slice_index_or cells.old at None) }
    ensures cells { cells.new
        ≡ slice_set cells.old at (put_cell place fits value (slice_index_or cells.old at None)) }
{
    let Some(row) = cells[at] else {
        return Err(Refusal::NoCurrent);
    };
    if !fits {
        return Err(Refusal::Domain);
    }
    cells[at] = Some(row.with(place, value));
    Ok(row.get(place))
}

/// The rows in the Special_Facility cells of a home.
pub fn facilities_in(cells: &[Option<StoredFacility>; 4]) -> [Option<[u64; 6]>; 4]
    ensures { result ≡ cells.now }
{
    [
        columns_in(&cells[0]),
        columns_in(&cells[1]),
        columns_in(&cells[2]),
        columns_in(&cells[3]),
    ]
}

fn columns_in(cell: &Option<StoredFacility>) -> Option<[u64; 6]>
    ensures { result ≡ cell.now }
{
    match cell {
        Some(row) => Some(row.columns()),
        None => None,
    }
}
