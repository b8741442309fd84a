//! The log of the calls without a home.
ghost use Rattle.std.specs.Prelude.{◌≡◌, ◌+◌, ◌-◌, ◌<◌, ◌≤◌, [], ◌∷◌, ◌++◌, false, true, length, IfOk, OnOk};
ghost use Rattle.tatp_extents.specs.HomelessLog.{HomelessState, IsHomeless, RecordsHomeless, last_homeless_stamp};
ghost use Rattle.tatp_extents.specs.Chapters.{CheckpointsHomeless, IsChapter};

use crate::chapter::ChapterParts;
use crate::{Chapter, CheckpointError, HomelessParts, SharedHomes};
use std::alloc::{AllocError, Global};
use std::marker::Model;
use tatp_calls::Entry;
use tatp_limits::MAX_EXTENT_CHAPTERS;
use tatp_logs::Log;

/// The log of the calls without a home, which counts as extent 0.
#[derive(Debug, Drop)]
pub struct Homeless {
    mixed: bool,
    chapters: u16,
    log: Log,
}

impl Model for Homeless {
    ghost use Rattle.tatp_extents.specs.HomelessLog.{HomelessState, homeless_state_code, IsHomeless};

    ghost Value = { HomelessState };

    ghost coded = { homeless_state_code };

    ghost view = { λ a. record {
      mixed = a.mixed;
      chapters = a.chapters;
      kept_stamp = a.log.kept_stamp;
      log = a.log.entries;
      room = a.log.room;
    } };

    ghost invariant = { λ a. IsHomeless a.mixed a.log.kept_stamp a.log.entries };
}

impl Homeless {
    /// No calls.
    pub fn new(alloc: Global) -> Homeless
        ensures mixed { result.mixed ≡ false }
        ensures chapters { result.chapters ≡ 0 }
        ensures stamp { result.kept_stamp ≡ 0 }
        ensures log { result.log ≡ [] }
    {
        Homeless {
            mixed: false,
            chapters: 0,
            log: Log::new(alloc),
        }
    }

    /// Whether a call that is no standard transaction has ended. Then the log has ended.
    pub fn is_mixed(&self) -> bool
        ensures { result ≡ self.now.mixed }
    {
        self.mixed
    }

    /// The calls that were logged since the last checkpoint, in the order of their stamps.
    pub fn log(&self) -> &Log
        ensures { result.now.entries ≡ self.now.log }
    {
        &self.log
    }

    /// How many chapters it handed out.
    pub fn chapters(&self) -> u16
        ensures { result ≡ self.now.chapters }
    {
        self.chapters
    }

    /// How many calls were logged since the last checkpoint.
    pub fn log_len(&self) -> u64
        ensures { result ≡ length self.now.log }
    {
        self.log.len() as u64
    }

    /// The last stamp that was ever logged, 0 before the first.
    pub fn last_stamp(&self) -> u64
        ensures { result ≡ last_homeless_stamp self.now }
    {
        self.log.last_stamp()
    }

    /// Reserves memory for one more entry.
    pub fn reserve(&mut self) -> Result<(), AllocError>
        ensures mixed { self.new.mixed ≡ self.old.mixed }
        ensures chapters { self.new.chapters ≡ self.old.chapters }
        ensures stamp { self.new.kept_stamp ≡ self.old.kept_stamp }
        ensures log { self.new.log ≡ self.old.log }
        ensures room { OnOk result (1 ≤ self.new.room) }
    {
        self.log.reserve()
    }

    /// Logs a call that ended.
    pub fn end(&mut self, entry: &Entry)
        requires unmixed { self.old.mixed ≡ false }
        requires records { RecordsHomeless entry.now }
        requires later { last_homeless_stamp self.old < entry.now.stamp }
        requires room { 1 ≤ self.old.room }
        ensures mixed { self.new.mixed ≡ false }
        ensures chapters { self.new.chapters ≡ self.old.chapters }
        ensures stamp { self.new.kept_stamp ≡ self.old.kept_stamp }
        ensures log { self.new.log ≡ self.old.log ++ entry.now ∷ [] }
    {
        self.log.push(entry);
    }

    /// Ends the log: a call has ended that is no standard transaction.
    pub fn end_mixed(&mut self)
        ensures { self.new ≡ record self.old { mixed = true } }
    {
        self.mixed = true;
    }

    /// Hands out what was logged since the last checkpoint. Refused, nothing changes. It takes no
    /// memory.
    pub fn checkpoint(&mut self, alloc: Global) -> Result<Chapter, CheckpointError>
        ensures checks { CheckpointsHomeless self.old result self.new }
        ensures stamp { last_homeless_stamp self.new ≡ last_homeless_stamp self.old }
        ensures chapter { IfOk result IsChapter }
    {
        if self.mixed {
            return Err(CheckpointError::LogEnded);
        }
        if self.chapters == MAX_EXTENT_CHAPTERS {
            return Err(CheckpointError::ChapterCountFull);
        }
        let index = self.chapters;
        let entries = self.log.split(alloc);
        self.chapters = index + 1;
        Ok(Chapter::of_parts(ChapterParts {
            extent: 0,
            index,
            before: SharedHomes::none(),
            entries,
            after: SharedHomes::none(),
        }))
    }

    /// Its parts.
    pub fn close(self) -> HomelessParts
        ensures mixed { result.mixed ≡ self.mixed }
        ensures chapters { result.chapters ≡ self.chapters }
        ensures stamp { result.log.kept_stamp ≡ self.kept_stamp }
        ensures log { result.log.entries ≡ self.log }
        ensures history { IsHomeless self.mixed self.kept_stamp self.log }
    {
        let Homeless {
            mixed,
            chapters,
            log,
        } = self;
        HomelessParts {
            mixed,
            chapters,
            log,
        }
    }
}

/// Where it isn't mixed, the log of the calls without a home is their history.
pub fn what_holds_of_every_homeless_log(homeless: &Homeless)
    ensures { IsHomeless homeless.now.mixed homeless.now.kept_stamp homeless.now.log }
{
    let _ = &homeless.log;
}
