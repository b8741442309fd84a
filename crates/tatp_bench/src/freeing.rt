//! The clients' lists of a run are freed.
use std::alloc::Global;
use std::thread::{Threads, for_each_mut};
use tatp_calls::Ask;
use tatp_logs::Receipts;

/// By how many threads the lists are freed, where they can be made: the system takes back one page
/// after another, and most of a run's are of these lists.
const THREADS: usize = 4;

/// Frees the clients' receipts.
pub(crate) fn free_receipts<R: Threads + Sync>(rt: &R, alloc: Global, receipts: Vec<Receipts>) {
    let mut receipts = receipts;
    let empty = |_client: usize, list: &mut Receipts| *list = Receipts::new(alloc);
    for_each_mut(rt, receipts.as_mut_slice(), THREADS, &empty);
}

/// Frees what the clients asked.
pub(crate) fn free_calls<R: Threads + Sync>(rt: &R, alloc: Global, lists: Vec<Vec<Ask>>) {
    let mut lists = lists;
    let empty = |_client: usize, list: &mut Vec<Ask>| *list = Vec::new(alloc);
    for_each_mut(rt, lists.as_mut_slice(), THREADS, &empty);
}
