//! Extents, and the log of calls without a home, hand out chapters, which the system keeps.
ghost use Rattle.std.specs.Prelude.{◌≡◌, ◌<◌, ◌≤◌, ◌^◌, length};
ghost use Rattle.tatp_dispatch.specs.Checkpointing.{CheckpointsIn, refusal_told};

use super::{World, check_partition};
use crate::{Answer, Refusal};
use std::alloc::Global;
use tatp_extents::Chapter;
use tatp_partition::{Site, SiteRefusal};

/// The number of an extent as a site takes it. Every number past the extents becomes the first past
/// them, for which the site gives the refusal that comes first.
fn number_at_site(e: u64, slots: u64) -> u32
    requires few { slots < 2 ^ 32 }
    ensures within { e < slots → result ≡ e }
    ensures past { slots ≤ e → result ≡ slots }
{
    if e < slots { e as u32 } else { slots as u32 }
}

/// Why a site hands out no chapter, as the system reports it: its NoMemory is that of the system.
fn refusal_told(refusal: SiteRefusal) -> Refusal
    ensures { result ≡ refusal_told refusal }
{
    match refusal {
        SiteRefusal::NoMemory => Refusal::NoMemory,
        _ => Refusal::Site(refusal),
    }
}

/// An extent hands out a chapter at the site of a partition.
fn checkpoint_at(
    sites: &mut Vec<Site<'_>>,
    alloc: Global,
    p: usize,
    e: u32,
) -> Result<Chapter, SiteRefusal>
    requires { p < length sites.old.items }
    ensures { CheckpointsIn sites.old.items p e result sites.new.items }
{
    sites[p].checkpoint(alloc, e)
}

impl<'m> World<'m> {
    ghost use Rattle.tatp_dispatch.specs.Events.{CheckpointsAt};
    ghost use Rattle.tatp_dispatch.specs.Serving.{Tells};

    /// An extent hands out a chapter. Memory to keep the chapter is reserved first.
    pub(crate) fn checkpoint(&mut self, p: u64, e: u64) -> Result<Answer, Refusal>
        ensures happens { CheckpointsAt self.old p e result self.new }
        ensures tells { Tells self.old result self.new }
    {
        check_partition(&self.sites, p)?;
        let alloc = *self.chapters.allocator();
        if self.chapters.reserve(1).is_err() {
            return Err(Refusal::NoMemory);
        }
        let number = number_at_site(e, self.parcels.len());
        match checkpoint_at(&mut self.sites, alloc, p as usize, number) {
            Err(refusal) => Err(refusal_told(refusal)),
            Ok(chapter) => {
                let extent = chapter.extent();
                let index = chapter.index();
                let entries = chapter.entries().len() as u64;
                self.chapters.push_reserved(chapter);
                Ok(Answer::Chapter(extent, index, entries))
            }
        }
    }
}
