//! What an executor does about a log that may be full.
ghost use Rattle.std.specs.Prelude.{◌≡◌, ◌<◌, vec_len, vec_capacity};
ghost use Rattle.tatp_workers.specs.FullLogs.{ChecksLog};

use std::alloc::Global;
use tatp_extents::Chapter;
use tatp_partition::{Site, SiteRefusal};

/// What became of a log that may be full.
#[derive(Clone, Copy, Debug)]
pub enum Checkpointed {
    /// It was handed out as a chapter, which was kept.
    Kept,
    /// It is shorter than a chapter has to be.
    Short,
    /// No chapter was handed out.
    Refused(SiteRefusal),
}

/// Hands out the log of an extent at a site whose lock is held, if it has `chapter` entries or
/// more, and appends it to the chapters.
pub fn checkpoint_full(
    site: &mut Site<'_>,
    alloc: Global,
    extent: u32,
    chapter: u64,
    chapters: &mut Vec<Chapter>,
) -> Checkpointed
    requires room { vec_len chapters.old < vec_capacity chapters.old }
    ensures { ChecksLog site.old extent chapter chapters.old.items result site.new
        chapters.new.items }
{
    if site.log_len(extent) < chapter {
        return Checkpointed::Short;
    }
    match site.checkpoint(alloc, extent) {
        Ok(handed_out) => {
            chapters.push_reserved(handed_out);
            Checkpointed::Kept
        }
        Err(refusal) => Checkpointed::Refused(refusal),
    }
}
