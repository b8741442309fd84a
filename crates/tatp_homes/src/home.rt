//! The rows of one s_id.
ghost use Rattle.std.specs.Prelude.{◌≡◌, ℕ, ◌<◌, ◌≤◌, ◌∷◌, [], IfSome, IfNone, IfOk, OnOk, Some, None, false, is_some, slice_get, slice_index};
ghost use Rattle.std.specs.Option.{option_copied};
ghost use Rattle.std.specs.List.{list_any};
ghost use Rattle.tatp_tables.specs.Keys.{has_key, row_at, row_with_number};
ghost use Rattle.tatp_tables.specs.Columns.{is_fixed};
ghost use Rattle.tatp_tables.specs.Database.{no_tables};
ghost use Rattle.tatp_homes.specs.Changes.{cell, put_answer, put_tables, insert_answer, insert_tables, delete_answer, delete_tables, forwarding_key};
ghost use Rattle.tatp_homes.specs.Home.{IsHome};
ghost use Rattle.tatp_homes.specs.Cells.{type_keys, forwarding_keys};

mod changes;
mod comparing;
mod listing;
mod loading;

use crate::place::{forwarding_place, type_place};
use crate::stored::{
    StoredAccess, StoredFacility, StoredForwarding, StoredSubscriber, copy_cells, copy_subscriber,
};
pub use loading::{homes, homes_in_lists};
use std::marker::Model;

/// The rows of one s_id: at most one Subscriber row, four Access_Info and four Special_Facility
/// rows by type, and three Call_Forwarding rows a facility by start time. It takes no memory of its
/// own.
///
/// A key names its own s_id: one with another s_id than the home's finds nothing.
#[derive(Debug, Drop)]
pub struct Home {
    s_id: u64,
    subscriber: Option<StoredSubscriber>,
    accesses: [Option<StoredAccess>; 4],
    facilities: [Option<StoredFacility>; 4],
    forwardings: [Option<StoredForwarding>; 12],
}

impl Model for Home {
    ghost use Rattle.tatp_homes.specs.Home.{SubscriberRows, subscriber_rows_code};
    ghost use Rattle.tatp_homes.specs.Cells.{tables_in, HoldHome};

    ghost Value = { SubscriberRows };

    ghost coded = { subscriber_rows_code };

    ghost view = { λ a. record {
      s_id = a.s_id;
      tables = tables_in a.subscriber a.accesses a.facilities a.forwardings;
    } };

    ghost invariant = { λ a. HoldHome a.s_id a.subscriber a.accesses a.facilities a.forwardings };
}

impl Home {
    /// No rows.
    fn empty(s_id: u64) -> Home
        ensures { result ≡ record { s_id = s_id; tables = no_tables } }
    {
        Home {
            s_id,
            subscriber: None,
            accesses: [None; 4],
            facilities: [None; 4],
            forwardings: [None; 12],
        }
    }

    /// The s_id that all its rows have.
    pub fn s_id(&self) -> u64
        ensures { result ≡ self.now.s_id }
    {
        self.s_id
    }

    /// A home with the same rows.
    pub fn copy(&self) -> Home
        ensures { result ≡ self.now }
    {
        Home {
            s_id: self.s_id,
            subscriber: copy_subscriber(&self.subscriber),
            accesses: copy_cells(&self.accesses),
            facilities: copy_cells(&self.facilities),
            forwardings: copy_cells(&self.forwardings),
        }
    }

    /// The Subscriber row with this s_id.
    fn subscriber(&self, s_id: u64) -> Option<&StoredSubscriber>
        ensures { option_copied result ≡ row_at self.now.tables.subscribers (s_id ∷ []) }
    {
        if s_id == self.s_id {
            self.subscriber.as_ref()
        } else {
            None
        }
    }

    /// The place of a key (s_id, type) among the Access_Info and the Special_Facility cells.
    fn place_of_type(&self, s_id: u64, kind: u64) -> Option<usize>
        ensures own { IfSome result (λ i. s_id ≡ self.now.s_id) }
        ensures place { IfSome result (λ i. slice_get type_keys i ≡ Some (kind ∷ [])) }
        ensures within { IfSome result (λ i. i < 4) }
        ensures no_access { IfNone result
            (row_at self.now.tables.accesses (s_id ∷ kind ∷ []) ≡ None) }
        ensures no_facility { IfNone result
            (row_at self.now.tables.facilities (s_id ∷ kind ∷ []) ≡ None) }
    {
        if s_id == self.s_id {
            type_place(kind)
        } else {
            None
        }
    }

    /// The place of a key (s_id, sf_type, start_time) among the Call_Forwarding cells.
    fn place_of_forwarding(&self, key: [u64; 3]) -> Option<usize>
        ensures own { IfSome result (λ i. slice_index key 0 ≡ self.now.s_id) }
        ensures place { IfSome result (λ i. slice_get forwarding_keys i
            ≡ Some (slice_index key 1 ∷ slice_index key 2 ∷ [])) }
        ensures within { IfSome result (λ i. i < 12) }
        ensures none { IfNone result (row_at self.now.tables.forwardings key ≡ None) }
    {
        if key[0] == self.s_id {
            forwarding_place(key[1], key[2])
        } else {
            None
        }
    }

    /// The Access_Info row with this key.
    fn access(&self, s_id: u64, kind: u64) -> Option<StoredAccess>
        ensures { result ≡ row_at self.now.tables.accesses (s_id ∷ kind ∷ []) }
    {
        let place = self.place_of_type(s_id, kind)?;
        self.accesses[place]
    }

    /// The Special_Facility row with this key.
    fn facility(&self, s_id: u64, kind: u64) -> Option<StoredFacility>
        ensures { result ≡ row_at self.now.tables.facilities (s_id ∷ kind ∷ []) }
    {
        let place = self.place_of_type(s_id, kind)?;
        self.facilities[place]
    }

    /// The Call_Forwarding row with this key.
    fn forwarding(&self, key: [u64; 3]) -> Option<StoredForwarding>
        ensures { result ≡ row_at self.now.tables.forwardings key }
    {
        let place = self.place_of_forwarding(key)?;
        self.forwardings[place]
    }

    /// Whether there is a Subscriber row with this s_id.
    pub fn has_sub(&self, s_id: u64) -> bool
        ensures { result ≡ is_some (row_at self.now.tables.subscribers (s_id ∷ [])) }
    {
        self.subscriber(s_id).is_some()
    }

    /// Whether there is a Subscriber row with this sub_nbr.
    pub fn has_number(&self, number: u64) -> bool
        ensures { result ≡ is_some (row_with_number self.now.tables.subscribers number) }
    {
        match &self.subscriber {
            Some(row) => row.get(1) == number,
            None => false,
        }
    }

    /// Whether there is an Access_Info row with this s_id and ai_type.
    pub fn has_access(&self, s_id: u64, ai_type: u64) -> bool
        ensures { result ≡ is_some (row_at self.now.tables.accesses (s_id ∷ ai_type ∷ [])) }
    {
        self.access(s_id, ai_type).is_some()
    }

    /// Whether there is a Special_Facility row with this s_id and sf_type.
    pub fn has_facility(&self, s_id: u64, sf_type: u64) -> bool
        ensures { result ≡ is_some (row_at self.now.tables.facilities (s_id ∷ sf_type ∷ [])) }
    {
        self.facility(s_id, sf_type).is_some()
    }

    /// Whether there is a Call_Forwarding row with this s_id, sf_type and start_time.
    pub fn has_forward(&self, s_id: u64, sf_type: u64, start_time: u64) -> bool
        ensures { result
            ≡ is_some (row_at self.now.tables.forwardings (s_id ∷ sf_type ∷ start_time ∷ [])) }
    {
        self.forwarding([s_id, sf_type, start_time]).is_some()
    }

    /// The value of a column in the row of its table with this key, of which the table takes the
    /// first parts; the parts that it lacks are 0 by custom and are not read. None where there is
    /// no such column (above 50).
    #[inline(always)]
    pub fn get(&self, column: u8, key: [u64; 3]) -> Option<u64>
        ensures { result ≡ cell self.now.tables column key }
    {
        match column {
            0..=33 => Some(self.subscriber(key[0])?.get(usize::from(column))),
            34..=39 => Some(self.access(key[0], key[1])?.get(usize::from(column - 34))),
            40..=45 => Some(self.facility(key[0], key[1])?.get(usize::from(column - 40))),
            46..=50 => Some(self.forwarding(key)?.get(usize::from(column - 46))),
            _ => None,
        }
    }
}

/// What holds of every home holds of this one.
pub fn what_holds_of_every_home(home: &Home)
    ensures { IsHome home.now }
{
    let _ = &home.s_id;
}
