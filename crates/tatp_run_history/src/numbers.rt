//! The order in time of what clients do, by numbers of one counter.

use std::alloc::{AllocError, Global};
use std::sync::atomic::{AtomicU64, Ordering};

/// Numbers of what clients do, each above those that were given before: of each call of each client
/// one when it is asked, and one when its answer has come. All have their memory before the first
/// is given.
#[derive(Drop)]
pub struct Numbers {
    /// The next number.
    next: AtomicU64,
    /// Those of each client, client 0 first: of its first call's asking and answer, of its second's
    /// and so on. Each client writes to a list of its own, since threads that write side by side
    /// slow each other.
    given: Vec<Vec<AtomicU64>>,
}

/// The place of a call's number in the list of its client.
fn place_of(call: u64, is_answer: bool) -> usize {
    let place = call.saturating_mul(2).saturating_add(u64::from(is_answer));
    usize::try_from(place).unwrap_or(usize::MAX)
}

/// This many numbers, each 0.
fn zeros(alloc: Global, count: usize) -> Result<Vec<AtomicU64>, AllocError> {
    let mut zeros = Vec::with_capacity(alloc, count)?;
    for _ in 0..count {
        zeros.push(AtomicU64::new(0))?;
    }
    Ok(zeros)
}

impl Numbers {
    /// Reserves the numbers of `calls` calls of each of `clients` clients.
    pub fn with_room(alloc: Global, clients: usize, calls: usize) -> Result<Numbers, AllocError> {
        let mut given = Vec::with_capacity(alloc, clients)?;
        for _ in 0..clients {
            given.push(zeros(alloc, calls.saturating_mul(2))?)?;
        }
        Ok(Numbers {
            next: AtomicU64::new(0),
            given,
        })
    }

    /// Gives the next number.
    fn give(&self, client: u64, call: u64, is_answer: bool) {
        let number = self.next.fetch_add(1, Ordering::SeqCst);
        if let Some(given) = self.given.get(client as usize) {
            if let Some(place) = given.get(place_of(call, is_answer)) {
                place.store(number, Ordering::SeqCst);
            }
        }
    }

    /// A client is about to ask its call of this number, counted from 0.
    pub fn before_ask(&self, client: u64, call: u64) {
        self.give(client, call, false);
    }

    /// The answer to a client's call of this number has come.
    pub fn after_answer(&self, client: u64, call: u64) {
        self.give(client, call, true);
    }

    /// The number of a client's asking or answer; where there is no such call, `u64::MAX`, which is
    /// above all others.
    pub(crate) fn number(&self, client: u64, call: usize, is_answer: bool) -> u64 {
        match self.given.get(client as usize) {
            None => u64::MAX,
            Some(given) => match given.get(place_of(call as u64, is_answer)) {
                None => u64::MAX,
                Some(place) => place.load(Ordering::SeqCst),
            },
        }
    }
}
