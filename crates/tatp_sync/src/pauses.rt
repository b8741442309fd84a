//! Threads that do nothing for a while.

use crate::LOOKS;
use std::sync::Wait;
use std::sync::atomic::AtomicU64;
use std::thread;
use std::time::Duration;

/// For how many milliseconds a thread sleeps that has looked often enough. Nobody has to wake it.
const NAP: u64 = 1;

/// Does nothing for some time, or for less.
pub fn pause<R: Wait>(rt: &R, time: Duration) {
    AtomicU64::new(0).park_timeout(rt, 0, time);
}

/// Waits a little, between two looks of a thread that has looked `looks` times in vain: it yields,
/// and once it has looked many times it sleeps.
pub fn rest<R: Wait>(rt: &R, looks: u32) {
    if looks < LOOKS {
        thread::yield_now();
    } else {
        pause(rt, Duration::from_millis(NAP));
    }
}
