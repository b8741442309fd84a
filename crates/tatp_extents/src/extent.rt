//! Extents: the homes of some subscribers in a row, with their history.
ghost use Rattle.std.specs.Prelude.{◌≡◌, ◌+◌, ◌<◌, ◌↔◌, IfOk, IfErr, IsSome, IfSome, OnOk, length};
ghost use Rattle.std.specs.Option.{option_copied};
ghost use Rattle.tatp_extents.specs.Extents.{IsExtent, LiesIn, last_stamp_of, home_among, home_at};
ghost use Rattle.tatp_extents.specs.Pinning.{HasItsHome};
ghost use Rattle.tatp_extents.specs.Opening.{opened_extent};
ghost use Rattle.tatp_extents.specs.Parts.{state_of};
ghost use Rattle.tatp_extents.specs.HomeRows.{with_homes};
ghost use Rattle.tatp_extents.specs.Chapters.{CheckpointsExtent, IsChapter};

use crate::chapter::ChapterParts;
use crate::extent_numbers::first_subscriber;
use crate::homes::{add_rows, copies, home_in_row};
use crate::{Chapter, CheckpointError, ExtentParts, Pinned, SharedHomes};
use std::alloc::{AllocError, Global};
use std::marker::Model;
use std::mem;
use tatp_homes::Home;
use tatp_limits::{MAX_EXTENT_CHAPTERS, MAX_EXTENT_MOVES};
use tatp_logs::Log;
use tatp_tables::Rows;

/// The homes of some subscribers in a row, as they were at the last checkpoint and as they are,
/// and the log of the calls that led from those to these. It can be neither copied nor dropped, so
/// none is doubled or lost on its way, and whoever takes it over has its history since that
/// checkpoint: [`Extent::close`] spends it.
///
/// Its opening counts as a checkpoint that hands out nothing.
pub struct Extent {
    parts: ExtentParts,
}

impl Model for Extent {
    ghost use Rattle.tatp_extents.specs.Extents.{ExtentState, extent_state_code, IsExtent};
    ghost use Rattle.tatp_extents.specs.Parts.{state_of};

    ghost Value = { ExtentState };

    ghost coded = { extent_state_code };

    ghost view = { λ a. state_of a.parts };

    ghost invariant = { λ a. IsExtent (state_of a.parts) };
}

impl Extent {
    /// A new extent with these homes.
    pub(crate) fn open(alloc: Global, number: u32, homes: Vec<Home>) -> Result<Extent, AllocError>
        requires { IsExtent (opened_extent number homes.items) }
        ensures { IfOk result (λ extent. extent ≡ opened_extent number homes.items) }
    {
        let opening = SharedHomes::of(alloc, &homes)?;
        Ok(Extent::of_parts(ExtentParts {
            number,
            moves: 0,
            mixed: false,
            chapters: 0,
            opening,
            homes,
            log: Log::new(alloc),
        }))
    }

    /// The extent that has these parts.
    pub(crate) fn of_parts(parts: ExtentParts) -> Extent
        requires { IsExtent (state_of parts) }
        ensures { result ≡ state_of parts }
    {
        Extent { parts }
    }

    /// Which extent it is, counted from 1.
    pub fn number(&self) -> u32
        ensures { result ≡ self.now.number }
    {
        self.parts.number
    }

    /// How often it was moved.
    pub fn moves(&self) -> u16
        ensures { result ≡ self.now.moves }
    {
        self.parts.moves
    }

    /// Whether a call that is no standard transaction has ended on it. Then its log has ended, and
    /// says nothing of its homes.
    pub fn is_mixed(&self) -> bool
        ensures { result ≡ self.now.mixed }
    {
        self.parts.mixed
    }

    /// How many chapters it handed out.
    pub fn chapters(&self) -> u16
        ensures { result ≡ self.now.chapters }
    {
        self.parts.chapters
    }

    /// Its homes at the last checkpoint.
    pub fn opening(&self) -> &[Home]
        ensures { result.now ≡ self.now.opening }
    {
        self.parts.opening.as_slice()
    }

    /// Its homes now.
    pub fn homes(&self) -> &[Home]
        ensures { result.now ≡ self.now.homes }
    {
        &self.parts.homes
    }

    /// The calls that were logged since the last checkpoint, in the order of their stamps.
    pub fn log(&self) -> &Log
        ensures { result.now.entries ≡ self.now.log }
    {
        &self.parts.log
    }

    /// How many calls were logged since the last checkpoint.
    pub fn log_len(&self) -> u64
        ensures { result ≡ length self.now.log }
    {
        self.parts.log.len() as u64
    }

    /// The last stamp that was ever logged, 0 before the first.
    pub fn last_stamp(&self) -> u64
        ensures { result ≡ last_stamp_of self.now }
    {
        self.parts.log.last_stamp()
    }

    /// The home of a subscriber as it is now, where the subscriber lies in this extent.
    pub fn home(&self, s_id: u64) -> Option<&Home>
        ensures home { option_copied result ≡ home_among s_id self.now.homes }
        ensures place { option_copied result ≡ home_at self.now s_id }
        ensures lies { IsSome result ↔ LiesIn s_id self.now }
        ensures own { IfSome result (λ home. home.now.s_id ≡ s_id) }
    {
        home_in_row(&self.parts.homes, first_subscriber(self.parts.number), s_id)
    }

    /// Appends the rows of its homes as they are now, home by home. An error may leave some.
    pub fn add_rows(&self, rows: &mut Rows) -> Result<(), AllocError>
        ensures { OnOk result (rows.new ≡ with_homes rows.old self.now.homes) }
    {
        add_rows(&self.parts.homes, rows)
    }

    /// Reserves its log for about `calls` more calls of the benchmark's mix: a log that grows
    /// while calls run is copied, and asks for memory each time.
    pub(crate) fn reserve_for(&mut self, calls: usize) -> Result<(), AllocError>
        ensures { self.new ≡ self.old }
    {
        self.parts.log.reserve_for(calls)
    }

    /// The extent after one more move.
    pub fn moved(self) -> Extent
        requires { self.moves < MAX_EXTENT_MOVES }
        ensures value { result ≡ record self { moves = self.moves + 1 } }
        ensures extent { IsExtent self }
    {
        let Extent { mut parts } = self;
        parts.moves += 1;
        Extent { parts }
    }

    /// The extent while a call runs on the home of this subscriber, with memory for one more entry
    /// in its log; where that is refused, the extent.
    pub fn pin(self, alloc: Global, s_id: u64) -> Result<Pinned, Extent>
        requires { LiesIn s_id self }
        ensures pinned { IfOk result (λ pinned. pinned ≡ record { extent = self; s_id = s_id }) }
        ensures home { IfOk result HasItsHome }
        ensures back { IfErr result (λ extent. extent ≡ self) }
        ensures extent { IsExtent self }
    {
        // The log grows by the allocator with which it was made.
        let _ = alloc;
        let Extent { mut parts } = self;
        match parts.log.reserve() {
            Ok(()) => Ok(Pinned::new(parts, s_id)),
            Err(_) => Err(Extent { parts }),
        }
    }

    /// Hands out what was logged since the last checkpoint, and continues from the homes as they
    /// are now. Where that is refused, nothing changes.
    pub fn checkpoint(&mut self, alloc: Global) -> Result<Chapter, CheckpointError>
        ensures checks { CheckpointsExtent self.old result self.new }
        ensures stamp { last_stamp_of self.new ≡ last_stamp_of self.old }
        ensures chapter { IfOk result IsChapter }
        ensures extent { IsExtent self.new }
    {
        if self.parts.mixed {
            return Err(CheckpointError::LogEnded);
        }
        if self.parts.chapters == MAX_EXTENT_CHAPTERS {
            return Err(CheckpointError::ChapterCountFull);
        }
        // All memory is taken before anything changes.
        let opening = SharedHomes::of(alloc, &self.parts.homes)?;
        let after = opening.share()?;
        let log = self.parts.log.successor(alloc)?;
        let index = self.parts.chapters;
        let before = mem::replace(&mut self.parts.opening, opening);
        let entries = mem::replace(&mut self.parts.log, log);
        self.parts.chapters = index + 1;
        Ok(Chapter::of_parts(ChapterParts {
            extent: self.parts.number,
            index,
            before,
            entries,
            after,
        }))
    }

    /// A copy of its parts.
    pub fn copy_parts(&self, alloc: Global) -> Result<ExtentParts, AllocError>
        ensures parts { IfOk result (λ parts. state_of parts ≡ self.now) }
        ensures extent { IsExtent self.now }
    {
        Ok(ExtentParts {
            number: self.parts.number,
            moves: self.parts.moves,
            mixed: self.parts.mixed,
            chapters: self.parts.chapters,
            opening: self.parts.opening.share()?,
            homes: copies(alloc, &self.parts.homes)?,
            log: self.parts.log.copy(alloc)?,
        })
    }

    /// Its parts.
    pub fn close(self) -> ExtentParts
        ensures parts { state_of result ≡ self }
        ensures extent { IsExtent self }
    {
        let Extent { parts } = self;
        parts
    }
}

/// An extent has the homes of its subscribers, and where it isn't mixed its log is their history.
pub fn what_holds_of_every_extent(extent: &Extent)
    ensures { IsExtent extent.now }
{
    let _ = &extent.parts;
}
