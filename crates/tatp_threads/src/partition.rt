//! What is done at the site of one partition under its lock. Nothing is known of the site before,
//! but that it is a site; so contracts say that the answer is that of some site.
ghost use Rattle.std.specs.Fn.{FnOnceReturnsAt};
ghost use Rattle.std.specs.Prelude.{◌≡◌, ◌<◌, None, IfOk, IfErr, vec_len, vec_capacity};
ghost use Rattle.tatp_extents.specs.Extents.{ExtentState};
ghost use Rattle.tatp_partition.specs.Moving.{LandedState, Takes, Gives};
ghost use Rattle.tatp_partition.specs.declared.refusal.NotGiven.{NotGiven};
ghost use Rattle.tatp_partition.specs.Obstacles.{one_obstacle};
ghost use Rattle.tatp_partition.specs.Running.{AdvancesUnless};
ghost use Rattle.tatp_partition.specs.Stopping.{Stops, Resumes};
ghost use Rattle.tatp_workers.specs.FullLogs.{ChecksLog};
ghost use Rattle.tatp_workers.specs.Offering.{Offers};
ghost use Rattle.tatp_workers.specs.Slices.{MakesSlice};
ghost use Rattle.tatp_threads.specs.Locked.{OfSomeSite};

use crossbeam_utils::CachePadded;
use std::alloc::Global;
use std::sync::atomic::{AtomicU64, Ordering};
use std::sync::{Mutex, Wait};
use std::{mem, thread};
use tatp_extents::{Chapter, discard_all};
use tatp_partition::{
    CompletionBuffer, Item, Landed, NotGiven, Parcel, Site, SiteRefusal, Stepped,
    what_holds_of_every_site,
};
use tatp_sync::lock;
use tatp_workers::{Checkpointed, Gate, Gated, Offered, checkpoint_full, is_wanted, offer, slice};

/// One partition: its site under its lock, how many other threads want that lock, and the place
/// where its executor leaves its chapters at the end.
pub(crate) struct Partition<'m> {
    /// Its number.
    pub(crate) number: u8,
    site: Mutex<Site<'m>>,
    /// How many threads want the lock. It has a cache line of its own, since the executor reads it
    /// before each step.
    wanted: CachePadded<AtomicU64>,
    chapters: Mutex<Vec<Chapter>>,
}

impl<'m> Partition<'m> {
    /// Puts a site under a lock that nobody wants.
    pub(crate) fn new(alloc: Global, site: Site<'m>) -> Partition<'m> {
        Partition {
            number: site.partition(),
            site: Mutex::new(site),
            wanted: CachePadded::new(AtomicU64::new(0)),
            chapters: Mutex::new(Vec::new(alloc)),
        }
    }

    /// Gives back its site, and the chapters that its executor left.
    pub(crate) fn into_parts(self) -> (Site<'m>, Vec<Chapter>) {
        let Partition {
            number: _,
            site,
            wanted: _,
            chapters,
        } = self;
        (site.into_inner(), chapters.into_inner())
    }

    /// Leaves chapters here, in place of any that were left before.
    pub(crate) fn leave<R: Wait>(&self, rt: &R, chapters: Vec<Chapter>) {
        let others = mem::replace(&mut *self.chapters.lock(rt), chapters);
        discard_all(others);
    }

    /// Offers a call to the site.
    pub(crate) fn offer<R: Wait>(&self, rt: &R, alloc: Global, item: &Item) -> Offered
        ensures { OfSomeSite (λ s s'. Offers s item.now result s') }
    {
        let mut locked = lock(rt, &self.site);
        let site = &mut *locked;
        what_holds_of_every_site(site);
        let offered = offer(site, alloc, item);
        what_holds_of_every_site(site);
        offered
    }

    /// Makes steps of the running call, and calls the gate before each. Where the call ends, its
    /// completion is in the buffer then, and the answer is how many entries its extent's log has.
    pub(crate) fn slice<R: Wait, G: Gate>(
        &self,
        rt: &R,
        gate: &G,
        buffer: &mut CompletionBuffer,
    ) -> Result<u64, SiteRefusal>
        requires { buffer.old ≡ None }
        ensures { OfSomeSite (λ s s'. MakesSlice s result buffer.new s') }
    {
        let mut observer = Gated { gate };
        let made = {
            let mut locked = lock(rt, &self.site);
            let site = &mut *locked;
            what_holds_of_every_site(site);
            let made = slice(site, &mut observer, &self.wanted, buffer);
            what_holds_of_every_site(site);
            made
        };
        self.give_way(&made, buffer);
        made
    }

    /// Lets other threads run, where the call continues and one of them wants the lock.
    fn give_way(&self, made: &Result<u64, SiteRefusal>, buffer: &CompletionBuffer) {
        if made.is_ok() && !buffer.is_some() && is_wanted(&self.wanted) {
            thread::yield_now();
        }
    }

    /// Hands out the log of an extent if it has `chapter` entries or more, and appends it to the
    /// chapters.
    pub(crate) fn checkpoint<R: Wait>(
        &self,
        rt: &R,
        alloc: Global,
        extent: u32,
        chapter: u64,
        chapters: &mut Vec<Chapter>,
    ) -> Checkpointed
        requires { vec_len chapters.old < vec_capacity chapters.old }
        ensures { OfSomeSite (λ s s'.
            ChecksLog s extent chapter chapters.old.items result s' chapters.new.items) }
    {
        let mut locked = lock(rt, &self.site);
        let site = &mut *locked;
        what_holds_of_every_site(site);
        let checkpointed = checkpoint_full(site, alloc, extent, chapter, chapters);
        what_holds_of_every_site(site);
        checkpointed
    }

    /// Takes an extent from the site.
    pub(crate) fn take<R: Wait>(&self, rt: &R, extent: u32) -> Result<Parcel, SiteRefusal>
        ensures takes { OfSomeSite (λ s s'. Takes s extent result s') }
        ensures number { IfOk result (λ (parcel : ExtentState). parcel.number ≡ extent) }
    {
        self.want();
        let taken = {
            let mut locked = lock(rt, &self.site);
            let site = &mut *locked;
            what_holds_of_every_site(site);
            site.take(extent)
        };
        self.want_no_more();
        taken
    }

    /// Gives an extent to the site. It comes back if the site doesn't take it.
    pub(crate) fn give<R: Wait>(&self, rt: &R, parcel: Parcel) -> Result<Landed, NotGiven>
        ensures gives { OfSomeSite (λ s s'. Gives s parcel result s') }
        ensures landed { IfOk result (λ (landed : LandedState). landed.number ≡ parcel.number) }
        ensures back { IfErr result (λ (back : NotGiven). back.parcel ≡ parcel) }
    {
        self.want();
        let given = {
            let mut locked = lock(rt, &self.site);
            let site = &mut *locked;
            what_holds_of_every_site(site);
            site.give(parcel)
        };
        self.want_no_more();
        given
    }

    /// Stops the site.
    pub(crate) fn stop<R: Wait>(&self, rt: &R) -> Result<(), SiteRefusal>
        ensures { OfSomeSite (λ s s'. Stops s result s') }
    {
        self.want();
        let stopped = {
            let mut locked = lock(rt, &self.site);
            let site = &mut *locked;
            what_holds_of_every_site(site);
            site.stop()
        };
        self.want_no_more();
        stopped
    }

    /// Lends the site to a closure that only reads it, and gives what that returns.
    pub(crate) fn read<R: Wait, T, F: FnOnce(&Site<'m>) -> T>(&self, rt: &R, reading: F) -> T
        requires { F.IsAlwaysCallable reading }
        ensures { OfSomeSite (λ s s'. FnOnceReturnsAt F.FnOnce reading s result × (s' ≡ s)) }
    {
        let locked = lock(rt, &self.site);
        let site = &*locked;
        what_holds_of_every_site(site);
        reading(site)
    }

    /// Makes one step of the running call, though the site is stopped.
    pub(crate) fn one<R: Wait>(&self, rt: &R) -> Result<Stepped, SiteRefusal>
        ensures { OfSomeSite (λ s s'. AdvancesUnless (one_obstacle s) s result s') }
    {
        let mut locked = lock(rt, &self.site);
        let site = &mut *locked;
        what_holds_of_every_site(site);
        site.one()
    }

    /// Resumes the site after a stop.
    pub(crate) fn resume<R: Wait>(&self, rt: &R) -> Result<(), SiteRefusal>
        ensures { OfSomeSite (λ s s'. Resumes s result s') }
    {
        let mut locked = lock(rt, &self.site);
        let site = &mut *locked;
        what_holds_of_every_site(site);
        site.resume()
    }

    /// Asks the executor to release the lock.
    fn want(&self) {
        self.wanted.fetch_add(1, Ordering::SeqCst);
    }

    /// Withdraws that request.
    fn want_no_more(&self) {
        self.wanted.fetch_sub(1, Ordering::SeqCst);
    }
}
