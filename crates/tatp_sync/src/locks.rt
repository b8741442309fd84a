//! Locks that threads look for before they sleep.

use crate::LOOKS;
use std::hint::spin_loop;
use std::sync::{Mutex, MutexGuard, Wait};
use std::thread;

/// How many looks there are to a yield: most locks are held for less time than a yield takes.
const LOOKS_TO_A_YIELD: u32 = 4;

/// Takes a lock.
#[inline(always)]
pub fn lock<'l, R: Wait, T>(rt: &R, mutex: &'l Mutex<T>) -> MutexGuard<'l, T> {
    for look in 0..LOOKS {
        if let Some(guard) = mutex.try_lock() {
            return guard;
        }
        if look % LOOKS_TO_A_YIELD == LOOKS_TO_A_YIELD - 1 {
            thread::yield_now();
        } else {
            spin_loop();
        }
    }
    mutex.lock(rt)
}
