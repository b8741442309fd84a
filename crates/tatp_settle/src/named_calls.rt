//! Calls without a home whose key names a subscriber.
ghost use Rattle.std.specs.Prelude.{◌≡◌, IfOk};
ghost use Rattle.tatp_tables.specs.Tuples.{Tuples};
ghost use Rattle.tatp_numbers.specs.Homes.{home_of_key};
ghost use Rattle.tatp_numbers.specs.Listing.{answer};
ghost use Rattle.tatp_numbers.specs.declared.key.Key.{Key};
ghost use Rattle.tatp_settle.specs.CallPlaces.{IsFirstCall};
ghost use Rattle.tatp_settle.specs.Causes.{NamesHome};
ghost use Rattle.tatp_settle.specs.Named.{IsNamedIn};

use crate::chapter_table::ChapterTable;
use crate::log_parts::WholeLog;
use crate::places::{CallPlace, lesser};
use std::alloc::{AllocError, Global};
use tatp_numbers::Directory;

/// The first call without a home whose key names a subscriber of the directory.
pub(crate) fn first_homed(
    alloc: Global,
    directory: &Directory,
    chapters: &ChapterTable<'_>,
) -> Result<Option<CallPlace>, AllocError>
    ensures { IfOk result (λ first. (subscribers : Tuples)
        → ((key : Key) → answer directory.now key ≡ home_of_key subscribers key)
        → IsFirstCall (NamesHome subscribers chapters.now) first) }
{
    let log = chapters.whole_log(alloc, 0)?;
    Ok(first_named(&log, directory))
}

/// The first call of a log whose key names a subscriber.
fn first_named(log: &WholeLog<'_>, directory: &Directory) -> Option<CallPlace>
    ensures { IsFirstCall (IsNamedIn log.now directory.now) result }
{
    let mut least: Option<CallPlace> = None;
    'entries: for index in 0..log.len() {
        let entry = log.get(index).unwrap();
        if directory.home_of(entry.ask.key()).is_some() {
            least = lesser(
                least,
                CallPlace {
                    client: entry.client,
                    number: entry.number,
                },
            );
        }
    }
    least
}
