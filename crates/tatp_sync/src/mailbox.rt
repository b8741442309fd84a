//! Where a thread finds what others hand to it.

use crate::locks::lock;
use crossbeam_utils::CachePadded;
use std::sync::{Mutex, MutexGuard, Wait};

/// The place of a message, which stays when it is taken: messages may be large, and are written and
/// read where they are.
#[derive(Drop)]
struct Place<T> {
    is_filled: bool,
    message: T,
}

/// Where the messages to one client of a thread come, one after another. A thread may have several,
/// so none of them is a place to sleep at.
#[derive(Drop)]
pub struct Mailbox<T> {
    /// The place has a cache line of its own: its thread looks at it while others look at theirs.
    place: CachePadded<Mutex<Place<T>>>,
}

/// A message that was taken, in its place: the next is put there when this is dropped.
#[derive(Drop)]
pub struct Taken<'m, T> {
    place: MutexGuard<'m, Place<T>>,
}

impl<T> Taken<'_, T> {
    /// The message.
    pub fn message(&self) -> &T {
        &self.place.message
    }
}

impl<T: Copy> Mailbox<T> {
    /// Makes an empty mailbox. The message, which may be any, is never taken: it makes the place.
    pub fn new(message: T) -> Mailbox<T> {
        Mailbox {
            place: CachePadded::new(Mutex::new(Place {
                is_filled: false,
                message,
            })),
        }
    }

    /// Puts a message there, which is written where it is.
    pub fn put<R: Wait, F: FnOnce(&mut T)>(&self, rt: &R, writing: F)
        requires { F.IsAlwaysCallable writing }
    {
        fill(&mut lock(rt, &self.place), writing);
    }

    /// Takes the next message, if it has come. It hasn't where it is just being put there.
    pub fn try_take(&self) -> Option<Taken<'_, T>> {
        let mut place = self.place.try_lock()?;
        if !place.is_filled {
            return None;
        }
        place.is_filled = false;
        Some(Taken { place })
    }
}

/// Fills a place.
fn fill<T: Copy, F: FnOnce(&mut T)>(place: &mut Place<T>, writing: F)
    requires { F.IsAlwaysCallable writing }
{
    writing(&mut place.message);
    place.is_filled = true;
}
