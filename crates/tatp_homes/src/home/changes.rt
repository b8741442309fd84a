//! The changes of a home: a column set, a Call_Forwarding row inserted, one deleted.
//!
//! Each is undone by another: `put` of the value before, `delete_cf` of the key, `insert_cf` of the
//! row.
ghost use Rattle.std.specs.Prelude.{◌≡◌, ◌≤◌, IfOk, OnOk, OnErr, false};
ghost use Rattle.tatp_tables.specs.Columns.{is_fixed, table_of};
ghost use Rattle.tatp_homes.specs.Changes.{put_answer, put_tables, insert_answer, insert_tables, delete_answer, delete_tables, forwarding_key};

use super::Home;
use crate::Refusal;
use crate::place::place_of_row;
use crate::stored::{
    StoredForwarding, put_access, put_facility, put_forwarding, put_subscriber, take_forwarding,
};
use tatp_tables::{Table, in_domain};

impl Home {
    /// Sets a column of the row with this key and gives the value before. Refused, in this order:
    /// [`Refusal::NoCurrent`] where no row has the key, [`Refusal::Domain`].
    pub fn put(&mut self, column: u8, key: [u64; 3], value: u64) -> Result<u64, Refusal>
        requires column { column ≤ 50 }
        requires free { is_fixed column ≡ false }
        ensures answer { result ≡ put_answer self.old.tables column key value }
        ensures tables { self.new.tables ≡ put_tables self.old.tables column key value }
        ensures same { self.new.s_id ≡ self.old.s_id }
        ensures back { IfOk result
            (λ before. put_tables self.new.tables column key before ≡ self.old.tables) }
        ensures err { OnErr result (self.new ≡ self.old) }
    {
        match Table::of_column(column) {
            Table::Subscriber => self.put_in_subscriber(column, key, value),
            Table::AccessInfo => self.put_in_access(column, key, value),
            Table::SpecialFacility => self.put_in_facility(column, key, value),
            Table::CallForwarding => self.put_in_forwarding(column, key, value),
        }
    }

    fn put_in_subscriber(&mut self, column: u8, key: [u64; 3], value: u64) -> Result<u64, Refusal>
        requires table { table_of column ≡ Table.Subscriber }
        requires column { column ≤ 50 }
        requires free { is_fixed column ≡ false }
        ensures answer { result ≡ put_answer self.old.tables column key value }
        ensures tables { self.new.tables ≡ put_tables self.old.tables column key value }
        ensures same { self.new.s_id ≡ self.old.s_id }
        ensures back { IfOk result
            (λ before. put_tables self.new.tables column key before ≡ self.old.tables) }
    {
        if key[0] != self.s_id {
            return Err(Refusal::NoCurrent);
        }
        let fits = in_domain(column, value);
        put_subscriber(&mut self.subscriber, column as usize, value, fits)
    }

    fn put_in_access(&mut self, column: u8, key: [u64; 3], value: u64) -> Result<u64, Refusal>
        requires table { table_of column ≡ Table.AccessInfo }
        requires column { column ≤ 50 }
        requires free { is_fixed column ≡ false }
        ensures answer { result ≡ put_answer self.old.tables column key value }
        ensures tables { self.new.tables ≡ put_tables self.old.tables column key value }
        ensures same { self.new.s_id ≡ self.old.s_id }
        ensures back { IfOk result
            (λ before. put_tables self.new.tables column key before ≡ self.old.tables) }
    {
        let Some(place) = self.place_of_type(key[0], key[1]) else {
            return Err(Refusal::NoCurrent);
        };
        let fits = in_domain(column, value);
        let column = (column - Table::AccessInfo.first_column()) as usize;
        put_access(&mut self.accesses, place, column, value, fits)
    }

    fn put_in_facility(&mut self, column: u8, key: [u64; 3], value: u64) -> Result<u64, Refusal>
        requires table { table_of column ≡ Table.SpecialFacility }
        requires column { column ≤ 50 }
        requires free { is_fixed column ≡ false }
        ensures answer { result ≡ put_answer self.old.tables column key value }
        ensures tables { self.new.tables ≡ put_tables self.old.tables column key value }
        ensures same { self.new.s_id ≡ self.old.s_id }
        ensures back { IfOk result
            (λ before. put_tables self.new.tables column key before ≡ self.old.tables) }
    {
        let Some(place) = self.place_of_type(key[0], key[1]) else {
            return Err(Refusal::NoCurrent);
        };
        let fits = in_domain(column, value);
        let column = (column - Table::SpecialFacility.first_column()) as usize;
        put_facility(&mut self.facilities, place, column, value, fits)
    }

    fn put_in_forwarding(&mut self, column: u8, key: [u64; 3], value: u64) -> Result<u64, Refusal>
        requires table { table_of column ≡ Table.CallForwarding }
        requires column { column ≤ 50 }
        requires free { is_fixed column ≡ false }
        ensures answer { result ≡ put_answer self.old.tables column key value }
        ensures tables { self.new.tables ≡ put_tables self.old.tables column key value }
        ensures same { self.new.s_id ≡ self.old.s_id }
        ensures back { IfOk result
            (λ before. put_tables self.new.tables column key before ≡ self.old.tables) }
    {
        let Some(place) = self.place_of_forwarding(key) else {
            return Err(Refusal::NoCurrent);
        };
        let fits = in_domain(column, value);
        let column = (column - Table::CallForwarding.first_column()) as usize;
        put_forwarding(&mut self.forwardings, place, column, value, fits)
    }

    /// Inserts a Call_Forwarding row. Refused, in this order: [`Refusal::Domain`] where a column is
    /// outside its domain, [`Refusal::NoParent`] where its facility is not there,
    /// [`Refusal::KeyExists`].
    pub fn insert_cf(&mut self, row: [u64; 5]) -> Result<(), Refusal>
        ensures answer { result ≡ insert_answer self.old.tables row }
        ensures tables { self.new.tables ≡ insert_tables self.old.tables row }
        ensures same { self.new.s_id ≡ self.old.s_id }
        ensures back { OnOk result
            (delete_tables self.new.tables (forwarding_key row) ≡ self.old.tables) }
        ensures err { OnErr result (self.new ≡ self.old) }
    {
        let Some(place) = place_of_row(&row) else {
            return Err(Refusal::Domain);
        };
        if !self.has_facility(row[0], row[1]) {
            return Err(Refusal::NoParent);
        }
        if self.forwardings[place].is_some() {
            return Err(Refusal::KeyExists);
        }
        self.forwardings[place] = Some(StoredForwarding::of(&row));
        Ok(())
    }

    /// Deletes the Call_Forwarding row with this key and gives it; [`Refusal::NoCurrent`] where
    /// there is none.
    pub fn delete_cf(&mut self, key: [u64; 3]) -> Result<[u64; 5], Refusal>
        ensures answer { result ≡ delete_answer self.old.tables key }
        ensures tables { self.new.tables ≡ delete_tables self.old.tables key }
        ensures same { self.new.s_id ≡ self.old.s_id }
        ensures back { IfOk result (λ row. insert_tables self.new.tables row ≡ self.old.tables) }
        ensures err { OnErr result (self.new ≡ self.old) }
    {
        let Some(place) = self.place_of_forwarding(key) else {
            return Err(Refusal::NoCurrent);
        };
        take_forwarding(&mut self.forwardings, place).ok_or(Refusal::NoCurrent)
    }
}
