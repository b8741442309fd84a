//! Extents, and the log of calls without a home, hand out chapters.
ghost use Rattle.std.specs.Prelude.{◌≡◌, IfOk, length};
ghost use Rattle.tatp_extents.specs.Chapters.{IsChapter};

use super::Site;
use crate::SiteRefusal;
use crate::runner::pinned_extent;
use std::alloc::Global;
use tatp_extents::Chapter;

impl<'m> Site<'m> {
    ghost use Rattle.tatp_partition.specs.Checkpointing.{Checkpoints, KeepsLastStamps, entries_here};
    ghost use Rattle.tatp_partition.specs.Sound.{IsSite};

    /// How many calls of an extent were logged since its last checkpoint; `None` if it isn't here.
    /// The calls without a home, which partition 0 logs, count as those of extent 0.
    pub fn log_len(&self, e: u32) -> u64
        ensures { result ≡ length (entries_here self.now e) }
    {
        if e == 0 {
            return if self.partition == 0 {
                self.homeless.log_len()
            } else {
                0
            };
        }
        if let Some(pinned) = pinned_extent(&self.running, e as u64) {
            return pinned.log_len();
        }
        match self.slots.get(e as u64) {
            Some(extent) => extent.log_len(),
            None => 0,
        }
    }

    /// An extent hands out what was logged since its last checkpoint, where no call runs; a stopped
    /// site does it too. Refused, nothing changes.
    pub fn checkpoint(&mut self, alloc: Global, e: u32) -> Result<Chapter, SiteRefusal>
        ensures checkpoints { Checkpoints self.old e result self.new }
        ensures stamp { KeepsLastStamps self.old self.new }
        ensures chapter { IfOk result IsChapter }
        ensures site { IsSite self.new }
    {
        if self.running.is_some() {
            return Err(SiteRefusal::Running);
        }
        if e == 0 {
            if self.partition != 0 {
                return Err(SiteRefusal::NotHere);
            }
            return Ok(self.homeless.checkpoint(alloc)?);
        }
        let Some(mut extent) = self.slots.lift(e as u64) else {
            return Err(SiteRefusal::NotHere);
        };
        let handed_out = extent.checkpoint(alloc);
        self.slots.lower(e as u64, extent);
        Ok(handed_out?)
    }
}
