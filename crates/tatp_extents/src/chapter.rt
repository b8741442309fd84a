//! Chapters: what an extent's log was between two checkpoints.
ghost use Rattle.std.specs.Prelude.{◌≡◌};
ghost use Rattle.tatp_extents.specs.declared.chapter.CheckpointError.TheVariants.{NoMemory};
ghost use Rattle.tatp_extents.specs.Chapters.{IsChapter};
ghost use Rattle.tatp_extents.specs.ChapterParts.{chapter_of_parts};

use crate::{Discard, SharedHomes};
use std::alloc::AllocError;
use std::marker::Model;
use tatp_homes::Home;
use tatp_logs::Log;
use thiserror::Error;

/// Why no chapter is handed out. Its text is its number and its name.
#[derive(Clone, Copy, Debug, PartialEq, Eq, Error)]
pub enum CheckpointError {
    /// A call that is no standard transaction has ended, and with it the log.
    #[error("54 LogEnded")]
    LogEnded,
    /// As many chapters were handed out as may be.
    #[error("55 ChapterCountFull")]
    ChapterCountFull,
    /// Memory ran out.
    #[error("46 NoMemory")]
    NoMemory,
}

impl From<AllocError> for CheckpointError {
    ghost from_gives = { λ _ e. e ≡ NoMemory };

    fn from(_error: AllocError) -> CheckpointError {
        CheckpointError::NoMemory
    }
}

/// What a chapter is made of. Only of a [`Chapter`] is it known that these parts fit together.
#[derive(Debug, Drop)]
pub(crate) struct ChapterParts {
    pub(crate) extent: u32,
    pub(crate) index: u16,
    pub(crate) before: SharedHomes,
    pub(crate) entries: Log,
    pub(crate) after: SharedHomes,
}

/// What the log of an extent was between two checkpoints: its homes at the first, the calls that
/// led from those on, and the homes to which they led. It can be neither copied nor dropped, so
/// none is doubled or lost on its way: [`Chapter::discard`] spends it.
pub struct Chapter {
    parts: ChapterParts,
}

impl Model for Chapter {
    ghost use Rattle.tatp_extents.specs.Chapters.{ChapterState, chapter_state_code, IsChapter};
    ghost use Rattle.tatp_extents.specs.ChapterParts.{chapter_of_parts};

    ghost Value = { ChapterState };

    ghost coded = { chapter_state_code };

    ghost view = { λ a. chapter_of_parts a.parts };

    ghost invariant = { λ a. IsChapter (chapter_of_parts a.parts) };
}

impl Chapter {
    /// The chapter that has these parts.
    pub(crate) fn of_parts(parts: ChapterParts) -> Chapter
        requires { IsChapter (chapter_of_parts parts) }
        ensures { result ≡ chapter_of_parts parts }
    {
        Chapter { parts }
    }

    /// Whose it is: the extent, counted from 1, or 0 for the calls without a home.
    pub fn extent(&self) -> u32
        ensures { result ≡ self.now.extent }
    {
        self.parts.extent
    }

    /// How many chapters of the extent were handed out before it.
    pub fn index(&self) -> u16
        ensures { result ≡ self.now.index }
    {
        self.parts.index
    }

    /// The homes before its calls.
    pub fn before(&self) -> &[Home]
        ensures { result.now ≡ self.now.before }
    {
        self.parts.before.as_slice()
    }

    /// Its calls, in the order of their stamps.
    pub fn entries(&self) -> &Log
        ensures { result.now.entries ≡ self.now.entries }
    {
        &self.parts.entries
    }

    /// The homes after its calls.
    pub fn after(&self) -> &[Home]
        ensures { result.now ≡ self.now.after }
    {
        self.parts.after.as_slice()
    }
}

impl Discard for Chapter {
    fn discard(self) {
        let Chapter { parts: _ } = self;
    }
}

/// The calls of a chapter led from the homes before to the homes after.
pub fn what_holds_of_every_chapter(chapter: &Chapter)
    ensures { IsChapter chapter.now }
{
    let _ = &chapter.parts;
}
