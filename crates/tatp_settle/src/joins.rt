//! Whether chapters join end to end, from the population's homes to those from which the log
//! continues.
ghost use Rattle.std.specs.Prelude.{◌≡◌, ◌↔◌, IsTrue, true, ℕ};
ghost use Rattle.std.specs.Option.{option_copied, option_map};
ghost use Rattle.tatp_tables.specs.declared.row.Rows.{Rows};
ghost use Rattle.tatp_settle.specs.Runs.{AreHomesOf, homes_at_first};
ghost use Rattle.tatp_settle.specs.Causes.{IsMixed, IsUnjoined};
ghost use Rattle.tatp_settle.specs.CallPlaces.{IsFirstNumber};
ghost use Rattle.tatp_settle.specs.ChapterTables.{IsFirstChapter, entries_of_some};
ghost use Rattle.tatp_settle.specs.Stamping.{first_is_above};
ghost use Rattle.tatp_logs.specs.Logs.{last_stamp_from};

use crate::chapter_table::ChapterTable;
use crate::log_parts::LogPart;
use crate::places::ChapterPlace;
use tatp_extents::extent_count;
use tatp_homes::Home;
use tatp_limits::EXTENT_SUBSCRIBERS;

/// The homes from which the whole log of a number starts, of those of the population.
fn homes_at_first(homes: &[Home], number: u64) -> Option<&[Home]>
    ensures { (population : Rows) → AreHomesOf population homes.now
        → option_copied result ≡ homes_at_first population number }
{
    if number == 0 {
        return Some(&homes[..0]);
    }
    if number > extent_count(homes.len() as u64) {
        return None;
    }
    let size = EXTENT_SUBSCRIBERS as usize;
    let first = size * (number as usize - 1);
    Some(&homes[first..(first + size).min(homes.len())])
}

/// Whether a part continues from these homes, or there is neither.
fn goes_on_from(part: Option<LogPart<'_>>, due: Option<&[Home]>) -> bool
    ensures { IsTrue result
        ↔ (option_map (λ (p : LogPart). p.before.now) part.entry ≡ option_copied due.entry) }
{
    match (part, due) {
        (Some(part), Some(due)) => part.before == due,
        (None, None) => true,
        (Some(_), None) => false,
        (None, Some(_)) => false,
    }
}

/// Whether the first stamp of a part, if it has one, is above the last stamp before it.
fn rises_from(part: Option<LogPart<'_>>, last: u64) -> bool
    ensures { result ≡ first_is_above last (entries_of_some part.entry) }
{
    let Some(part) = part else {
        return true;
    };
    match part.entries.get(0) {
        Some(entry) => entry.stamp > last,
        None => true,
    }
}

/// Whether a part continues from these homes, with stamps above the last one before it.
fn is_joined(part: Option<LogPart<'_>>, due: Option<&[Home]>, last: u64) -> bool
    ensures { IsTrue result
        ↔ ((option_map (λ (p : LogPart). p.before.now) part.entry ≡ option_copied due.entry)
        × (first_is_above last (entries_of_some part.entry) ≡ true)) }
{
    goes_on_from(part, due) && rises_from(part, last)
}

/// The last stamp of a part, or the last one before it, where it has none.
fn last_stamp(part: Option<LogPart<'_>>, last: u64) -> u64
    ensures { result ≡ last_stamp_from last (entries_of_some part.entry) }
{
    let Some(part) = part else {
        return last;
    };
    match part.entries.get(part.entries.len().saturating_sub(1)) {
        Some(entry) => entry.stamp,
        None => last,
    }
}

/// The first part of a number's whole log that isn't joined to the parts before it.
fn unjoined_part(chapters: &ChapterTable<'_>, number: u64, first: Option<&[Home]>) -> Option<u64>
    requires unmixed { IsMixed chapters.now number → ⊥ }
    ensures { (population : Rows) → option_copied first.entry ≡ homes_at_first population number
        → IsFirstNumber (IsUnjoined population chapters.now number) result }
{
    chapters.closed().what_holds();
    let count = chapters.chapter_count(number);
    let mut due = first;
    let mut last = 0;
    'parts: for index in 0..count {
        let part = chapters.part(number, index);
        if !is_joined(part, due, last) {
            return Some(index);
        }
        due = chapters.homes_after(number, index);
        last = last_stamp(part, last);
    }
    if is_joined(chapters.part(number, count), due, last) {
        None
    } else {
        Some(count)
    }
}

/// The first extent and part of its whole log that isn't joined to the parts before it.
pub(crate) fn first_unjoined(chapters: &ChapterTable<'_>, homes: &[Home]) -> Option<ChapterPlace>
    requires unmixed { (e : ℕ) → IsMixed chapters.now e → ⊥ }
    ensures { (population : Rows) → AreHomesOf population homes.now
        → IsFirstChapter (IsUnjoined population chapters.now) result }
{
    let count = chapters.count().max(extent_count(homes.len() as u64) + 1);
    'extents: for extent in 0..count {
        if let Some(index) = unjoined_part(chapters, extent, homes_at_first(homes, extent)) {
            return Some(ChapterPlace { extent, index });
        }
    }
    None
}
