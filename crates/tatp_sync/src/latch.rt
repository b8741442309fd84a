//! Latches, at which threads wait for others.

use crate::pauses::rest;
use std::sync::Wait;
use std::sync::atomic::{AtomicU64, Ordering};

/// Where threads wait until others have counted it down to nothing.
#[derive(Drop)]
pub struct Latch {
    left: AtomicU64,
}

impl Latch {
    /// Makes a latch that is open once it has been counted down so often.
    pub fn new(count: u64) -> Latch {
        Latch {
            left: AtomicU64::new(count),
        }
    }

    /// Counts it down by one. At the last count, all threads that wait go on.
    pub fn count_down(&self) {
        let counted = self
            .left
            .fetch_update(Ordering::SeqCst, Ordering::SeqCst, |left| {
                left.checked_sub(1)
            });
        if counted == Ok(1) {
            self.left.wake_all();
        }
    }

    /// Waits until it is open. The thread looks many times before it sleeps: one that is woken may
    /// continue on another processor than that on which it was started.
    pub fn wait<R: Wait>(&self, rt: &R) {
        let mut looks: u32 = 0;
        for _round in rt.forever() {
            if self.left.load(Ordering::SeqCst) == 0 {
                return;
            }
            rest(rt, looks);
            looks = looks.saturating_add(1);
        }
        unreachable!()
    }

    /// Sleeps until it is open. A thread that looked instead would take its turns on a processor,
    /// and where there are more threads than processors the system would move others about.
    pub fn sleep<R: Wait>(&self, rt: &R) {
        for _round in rt.forever() {
            let left = u32::try_from(self.left.load(Ordering::SeqCst)).unwrap_or(u32::MAX);
            if left == 0 {
                return;
            }
            self.left.park(rt, left);
        }
        unreachable!()
    }
}
