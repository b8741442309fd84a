//! A Subscriber row as a home keeps it.
ghost use Rattle.std.specs.Prelude.{◌≡◌, ◌<◌, ◌≤◌, true, slice_index, slice_set};
ghost use Rattle.tatp_homes.specs.Cells.{put_cell};
ghost use Rattle.tatp_homes.specs.Changes.{put_answer_at};
ghost use Rattle.tatp_tables.specs.Domains.{is_in_domain, is_row};
ghost use Rattle.tatp_tables.specs.declared.table.Table.TheVariants.{Subscriber};

use crate::Refusal;
use std::marker::Model;

/// A Subscriber row. Contracts see the list of its columns.
#[derive(Debug, Drop)]
pub struct StoredSubscriber {
    sub_nbr: u64,
    s_id: u32,
    msc_location: u32,
    vlr_location: u32,
    /// bit_1 to bit_10, hex_1 to hex_10 and byte2_1 to byte2_10.
    small: [u8; 30],
}

impl Model for StoredSubscriber {
    ghost use Rattle.std.specs.Prelude.{ℕ, List, [], ◌∷◌, ◌++◌};

    ghost Value = { List ℕ };

    ghost view = { λ a. a.s_id ∷ a.sub_nbr ∷ a.small ++ a.msc_location ∷ a.vlr_location ∷ [] };
}

impl StoredSubscriber {
    /// The row with these columns.
    #[tactic(auto, unfolding(tatp_tables::specs::Domains::is_in_domain))]
    pub fn of(row: &[u64; 34]) -> StoredSubscriber
        requires { is_row Subscriber row.now ≡ true }
        ensures { result ≡ row.now }
    {
        let mut small = [0; 30];
        for place in 0..30 {
            small[place] = narrow(place + 2, row[place + 2]);
        }
        StoredSubscriber {
            sub_nbr: row[1],
            s_id: row[0] as u32,
            msc_location: location(32, row[32]),
            vlr_location: location(33, row[33]),
            small,
        }
    }

    /// Its columns.
    pub fn columns(&self) -> [u64; 34]
        ensures { result ≡ self.now }
    {
        // The prover learns from it that there are 34 columns.
        let _ = &self.small;
        let mut columns = [0; 34];
        for place in 0..34 {
            columns[place] = self.get(place);
        }
        columns
    }

    /// The column at a place.
    pub fn get(&self, place: usize) -> u64
        requires { place < 34 }
        ensures { result ≡ slice_index self.now place }
    {
        // Asked first, since most columns are small.
        if place >= 2 && place < 32 {
            return u64::from(self.small[place - 2]);
        }
        match place {
            0 => u64::from(self.s_id),
            1 => self.sub_nbr,
            32 => u64::from(self.msc_location),
            _ => u64::from(self.vlr_location),
        }
    }

    /// Sets a column that is neither the key nor the number.
    pub fn put(&mut self, place: usize, value: u64)
        requires place { (2 ≤ place) × (place < 34) }
        requires value { is_in_domain place value ≡ true }
        ensures { self.new ≡ slice_set self.old place value }
    {
        if place < 32 {
            self.small[place - 2] = narrow(place, value);
        } else if place == 32 {
            self.msc_location = location(place, value);
        } else {
            self.vlr_location = location(place, value);
        }
    }

    /// The same row.
    pub fn copy(&self) -> StoredSubscriber
        ensures { result ≡ self.now }
    {
        StoredSubscriber {
            sub_nbr: self.sub_nbr,
            s_id: self.s_id,
            msc_location: self.msc_location,
            vlr_location: self.vlr_location,
            small: self.small,
        }
    }
}

/// Sets a column of the row in a home's cell, where the value fits, and gives the value before. The
/// column is neither the key nor the number.
pub fn put_subscriber(
    cell: &mut Option<StoredSubscriber>,
    place: usize,
    value: u64,
    fits: bool,
) -> Result<u64, Refusal>
    requires place { (2 ≤ place) × (place < 34) }
    requires fits { fits ≡ is_in_domain place value }
    ensures answer { result ≡ put_answer_at place fits cell.old }
    ensures cell { cell.new ≡ put_cell place fits value cell.old }
{
    let Some(row) = cell else {
        return Err(Refusal::NoCurrent);
    };
    if !fits {
        return Err(Refusal::Domain);
    }
    let before = row.get(place);
    row.put(place, value);
    Ok(before)
}

/// A cell with the same row.
pub fn copy_subscriber(cell: &Option<StoredSubscriber>) -> Option<StoredSubscriber>
    ensures { result ≡ cell.now }
{
    match cell {
        Some(row) => Some(row.copy()),
        None => None,
    }
}

/// The row in the Subscriber cell of a home.
pub fn subscriber_in(cell: &Option<StoredSubscriber>) -> Option<[u64; 34]>
    ensures { result ≡ cell.now }
{
    match cell {
        Some(row) => Some(row.columns()),
        None => None,
    }
}

/// The value of one of the thirty small columns, which are at the places 2 to 31.
#[tactic(auto, unfolding(tatp_tables::specs::Domains::is_in_domain))]
fn narrow(place: usize, value: u64) -> u8
    requires place { (2 ≤ place) × (place ≤ 31) }
    requires value { is_in_domain place value ≡ true }
    ensures { result ≡ value }
{
    value as u8
}

/// The value of a location, which is at the place 32 or 33.
#[tactic(auto, unfolding(tatp_tables::specs::Domains::is_in_domain))]
fn location(place: usize, value: u64) -> u32
    requires place { (32 ≤ place) × (place ≤ 33) }
    requires value { is_in_domain place value ≡ true }
    ensures { result ≡ value }
{
    value as u32
}
