//! The directory: the home of each key.
ghost use Rattle.std.specs.Prelude.{◌≡◌, ℕ, IfOk, OnOk, Err, length, nat_eq};
ghost use Rattle.indexmap.specs.IndexMap.{get};
ghost use Rattle.tatp_tables.specs.Clean.{IsClean};
ghost use Rattle.tatp_tables.specs.Tuples.{set_of};
ghost use Rattle.tatp_numbers.specs.Homes.{home_of_key};
ghost use Rattle.tatp_numbers.specs.Listing.{answer};
ghost use Rattle.tatp_numbers.specs.Lists.{s_id_at, IdsRunToLength, NumbersStandOnce, NumberRepeats};
ghost use Rattle.tatp_numbers.specs.declared.key.Key.{Key};

use crate::{BuildError, Key};
use indexmap::IndexMap;
use std::alloc::{AllocError, Global};
use std::marker::Model;
use tatp_tables::Rows;

/// Which subscriber has which number. It never changes. Contracts see how many there are and
/// the s_ids at the numbers.
#[derive(Drop)]
pub struct Directory {
    /// How many subscribers there are: theirs are the s_ids from 1 to this.
    count: u64,
    /// The s_id of the subscriber with each number.
    s_ids: IndexMap<u64, u64>,
}

impl Model for Directory {
    ghost use Rattle.std.specs.FinMap as map;
    ghost use Rattle.tatp_numbers.specs.Listing.{Listing, listing_code};

    ghost Value = { Listing };

    ghost coded = { listing_code };

    ghost view = { λ d. record { count = d.count; s_ids = map.from_entries d.s_ids.entries } };
}

impl Directory {
    /// The directory of these Subscriber rows.
    pub fn build(alloc: Global, rows: &[[u64; 34]]) -> Result<Directory, BuildError>
        requires { IdsRunToLength rows.now }
        ensures count { IfOk result (λ directory. directory.count ≡ length rows.now) }
        ensures homes { IfOk result (λ directory. (key : Key)
            → answer directory key ≡ home_of_key (set_of rows.now) key) }
        ensures once { OnOk result (NumbersStandOnce rows.now) }
        ensures twice { result ≡ Err BuildError.NumberTwice → NumberRepeats rows.now }
    {
        let s_ids = s_ids_by_number(alloc, rows)?;
        Ok(Directory {
            count: rows.len() as u64,
            s_ids,
        })
    }

    /// The directory of clean rows.
    pub fn of_clean(alloc: Global, rows: &Rows) -> Result<Directory, AllocError>
        requires { IsClean rows.now }
        ensures count { IfOk result (λ directory. directory.count ≡ length rows.now.subscribers) }
        ensures homes { IfOk result (λ directory. (key : Key)
            → answer directory key ≡ home_of_key (set_of rows.now.subscribers) key) }
    {
        match Directory::build(alloc, rows.subscribers.as_slice()) {
            Ok(directory) => Ok(directory),
            Err(BuildError::NoMemory) => Err(AllocError),
            Err(BuildError::NumberTwice) => unreachable!(),
        }
    }

    /// The s_id of the subscriber that the key names, if it names one.
    pub fn home_of(&self, key: Key) -> Option<u64>
        ensures { result ≡ answer self.now key }
    {
        match key {
            Key::Id(s_id) => {
                if 1 <= s_id && s_id <= self.count {
                    Some(s_id)
                } else {
                    None
                }
            }
            Key::Number(number) => self.s_ids.get(&number).copied(),
        }
    }
}

/// The s_id at each number.
fn s_ids_by_number(alloc: Global, rows: &[[u64; 34]]) -> Result<IndexMap<u64, u64>, BuildError>
    ensures found { IfOk result (λ s_ids. (number : ℕ)
        → get nat_eq s_ids number ≡ s_id_at rows.now number) }
    ensures once { OnOk result (NumbersStandOnce rows.now) }
    ensures twice { result ≡ Err BuildError.NumberTwice → NumberRepeats rows.now }
{
    let mut s_ids = IndexMap::with_capacity(alloc, rows.len()).map_err(|_| BuildError::NoMemory)?;
    for row in rows {
        if let Some(_) = s_ids.insert(row[1], row[0])? {
            return Err(BuildError::NumberTwice);
        }
    }
    Ok(s_ids)
}
