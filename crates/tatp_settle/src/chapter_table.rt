//! The chapters that came, each at its extent and index.
ghost use Rattle.std.specs.Prelude.{◌≡◌, ◌≤◌, ◌↔◌, ℕ, None, IfOk, IsTrue};
ghost use Rattle.std.specs.Option.{option_copied, option_map};
ghost use Rattle.tatp_extents.specs.Chapters.{ChapterState};
ghost use Rattle.tatp_settle.specs.Closings.{chapter_count, entries_numbered, least_above, log_numbered};
ghost use Rattle.tatp_settle.specs.Causes.{homes_before, entries_of_part, IsChapterMissing, IsChapterTwice};
ghost use Rattle.tatp_settle.specs.CallPlaces.{IsFirstNumber};
ghost use Rattle.tatp_settle.specs.ChapterTables.{IsFirstChapter, chapter_handed_out, empty_rows, entries_of_some};

use crate::Closed;
use crate::log_parts::{LogPart, WholeLog};
use crate::logs::{chapter_count, last_part, log_count};
use crate::places::{ChapterPlace, lesser_chapter};
use crate::table::Table;
use std::alloc::{AllocError, Global};
use std::marker::Model;
use tatp_extents::Chapter;
use tatp_homes::Home;

/// What was gathered, with each chapter at hand that its extent handed out and that came.
#[derive(Drop)]
pub(crate) struct ChapterTable<'a> {
    closed: &'a Closed,
    table: Table<&'a Chapter>,
}

impl<'a> Model for ChapterTable<'a> {
    ghost use Rattle.tatp_settle.specs.Closings.{ClosedState, closed_state_code};
    ghost use Rattle.tatp_settle.specs.ChapterTables.{HasChapters};

    ghost Value = { ClosedState };

    ghost coded = { closed_state_code };

    ghost view = { λ a. a.closed.now };

    ghost invariant = { λ a. HasChapters a.closed.now a.table };
}

/// The table, and the first chapter that came twice or is none of those that were handed out.
#[derive(Drop)]
pub(crate) struct Listed<'a> {
    pub(crate) chapters: ChapterTable<'a>,
    pub(crate) twice: Option<ChapterPlace>,
}

/// For each number a row, with an empty cell for each chapter that was handed out.
fn empty_table<'a>(alloc: Global, closed: &'a Closed) -> Result<Table<&'a Chapter>, AllocError>
    ensures { IfOk result (λ table. table ≡ empty_rows closed.entry.now) }
{
    let mut table = Table::new(alloc);
    'numbers: for number in 0..log_count(closed) {
        table.add_row(alloc, chapter_count(closed, number) as usize)?;
    }
    Ok(table)
}

impl<'a> ChapterTable<'a> {
    /// The chapters of what was gathered.
    pub(crate) fn new(alloc: Global, closed: &'a Closed) -> Result<Listed<'a>, AllocError>
        ensures chapters { IfOk result (λ listed. listed.chapters ≡ closed.entry.now) }
        ensures twice { IfOk result (λ listed.
            IsFirstChapter (IsChapterTwice closed.entry.now) listed.twice) }
    {
        closed.what_holds();
        let mut table = empty_table(alloc, closed)?;
        let mut twice: Option<ChapterPlace> = None;
        'chapters: for chapter in closed.chapters() {
            let place = ChapterPlace {
                extent: chapter.extent() as u64,
                index: chapter.index() as u64,
            };
            if !table.put(place.extent, place.index, chapter) {
                twice = lesser_chapter(twice, place);
            }
        }
        Ok(Listed {
            chapters: ChapterTable { closed, table },
            twice,
        })
    }

    /// What was gathered.
    pub(crate) fn closed(&self) -> &'a Closed
        ensures { result.now ≡ self.now }
    {
        self.closed
    }

    /// The least number above those of all extents and logs.
    pub(crate) fn count(&self) -> u64
        ensures value { result ≡ least_above self.now }
        ensures beyond { (e : ℕ) → result ≤ e → log_numbered self.now e ≡ None }
    {
        self.closed.what_holds();
        self.table.len() as u64
    }

    /// How many chapters were handed out of a number.
    pub(crate) fn chapter_count(&self, number: u64) -> u64
        ensures { result ≡ chapter_count self.now number }
    {
        self.table.row_len(number) as u64
    }

    /// One of them, if it came.
    pub(crate) fn chapter(&self, number: u64, index: u64) -> Option<&'a Chapter>
        ensures { option_copied result ≡ chapter_handed_out self.now number index }
    {
        self.table.cell(number, index)?
    }

    /// The homes after one of them, if it came.
    pub(crate) fn homes_after(&self, number: u64, index: u64) -> Option<&'a [Home]>
        ensures { option_copied result ≡ option_map (λ (x : ChapterState). x.after)
            (chapter_handed_out self.now number index) }
    {
        let chapter = self.chapter(number, index)?;
        Some(chapter.after())
    }

    /// A part of the whole log of a number: a chapter, or after the last of them its log.
    pub(crate) fn part(&self, number: u64, index: u64) -> Option<LogPart<'a>>
        ensures before { option_map (λ (part : LogPart). part.before.now) result
            ≡ homes_before self.now number index }
        ensures entries { entries_of_some result ≡ entries_of_part self.now number index }
    {
        if index < self.chapter_count(number) {
            let chapter = self.chapter(number, index)?;
            return Some(LogPart {
                before: chapter.before(),
                entries: chapter.entries(),
            });
        }
        last_part(self.closed, number)
    }

    /// The whole log of a number: the entries of its chapters, joined, and then those since.
    pub(crate) fn whole_log(&self, alloc: Global, number: u64) -> Result<WholeLog<'a>, AllocError>
        ensures { IfOk result (λ log. log ≡ entries_numbered self.now number) }
    {
        let mut log = WholeLog::new(alloc);
        'chapters: for index in 0..self.chapter_count(number) {
            if let Some(chapter) = self.chapter(number, index) {
                log.push(chapter.entries())?;
            }
        }
        if let Some(part) = last_part(self.closed, number) {
            log.push(part.entries)?;
        }
        Ok(log)
    }

    /// The first chapter that was handed out and did not come.
    pub(crate) fn first_missing(&self) -> Option<ChapterPlace>
        ensures { IsFirstChapter (IsChapterMissing self.now) result }
    {
        'extents: for extent in 0..self.count() {
            if let Some(index) = self.missing_of(extent) {
                return Some(ChapterPlace { extent, index });
            }
        }
        None
    }

    /// The first chapter of a number that was handed out and did not come.
    fn missing_of(&self, number: u64) -> Option<u64>
        ensures { IsFirstNumber (IsChapterMissing self.now number) result }
    {
        (0..self.chapter_count(number)).find(|index| self.is_missing(number, *index))
    }

    /// Whether a chapter was handed out and did not come.
    fn is_missing(&self, number: u64, index: u64) -> bool
        ensures { IsTrue result ↔ IsChapterMissing self.now number index }
    {
        index < self.chapter_count(number) && self.chapter(number, index).is_none()
    }
}
