//! The first cause by which a run isn't settled: extents first, then chapters, then calls.
ghost use Rattle.std.specs.Prelude.{◌≡◌, ℕ, IfNone, IfOk};
ghost use Rattle.std.specs.Option.{option_map};
ghost use Rattle.tatp_tables.specs.Clean.{IsClean};
ghost use Rattle.tatp_settle.specs.Causes.{IsMixed, IsChapterTwice, IsUnmatched};
ghost use Rattle.tatp_settle.specs.CallPlaces.{HoldsNowhere};
ghost use Rattle.tatp_settle.specs.ChapterTables.{IsFirstChapter};
ghost use Rattle.tatp_settle.specs.Runs.{shown};
ghost use Rattle.tatp_settle.specs.CauseOrder.{IsFirstOf, IsFirstAfter, IsFirstInCalls};

use crate::Unsettled;
use crate::chapter_table::ChapterTable;
use crate::differences::{Differing, first_differing};
use crate::extents::{ExtentCause, first_extent};
use crate::joins::first_unjoined;
use crate::log_table::LogTable;
use crate::named_calls::first_homed;
use crate::placement::{Placed, place_entries};
use crate::places::{CallPlace, ChapterPlace};
use crate::run::Run;
use crate::stamps::first_falling;
use crate::unmatched_calls::first_unmatched;
use std::alloc::{AllocError, Global};
use std::thread::Threads;
use tatp_homes::homes;
use tatp_numbers::Directory;

/// The first cause that an extent is.
pub(crate) fn extent_cause(run: &Run<'_>) -> Option<Unsettled>
    ensures { IsFirstOf 3 (shown run.now) result }
{
    if let Some(number) = first_extent(ExtentCause::IsAsMixed, run) {
        return Some(Unsettled::Mixed(number));
    }
    if let Some(number) = first_extent(ExtentCause::InParcel, run) {
        return Some(Unsettled::ParcelLeft(number));
    }
    if let Some(number) = first_extent(ExtentCause::StandsTwice, run) {
        return Some(Unsettled::Doubled(number));
    }
    None
}

/// The first cause that a chapter is, where no extent is a cause.
pub(crate) fn chapter_cause(
    alloc: Global,
    run: &Run<'_>,
    chapters: &ChapterTable<'_>,
    twice: Option<ChapterPlace>,
) -> Result<Option<Unsettled>, AllocError>
    requires clean { IsClean run.now.population.now }
    requires gathered { chapters.now ≡ run.now.closed.now }
    requires twice { IsFirstChapter (IsChapterTwice chapters.now) twice }
    requires unmixed { (e : ℕ) → IsMixed chapters.now e → ⊥ }
    ensures { IfOk result (IsFirstAfter 3 6 (shown run.now)) }
{
    if let Some(place) = chapters.first_missing() {
        return Ok(Some(Unsettled::ChapterMissing {
            extent: place.extent,
            index: place.index,
        }));
    }
    if let Some(place) = twice {
        return Ok(Some(Unsettled::ChapterTwice {
            extent: place.extent,
            index: place.index,
        }));
    }
    let homes = homes(alloc, run.population)?;
    Ok(join_cause(first_unjoined(chapters, &homes)))
}

/// The cause that the chapter differs.
fn join_cause(place: Option<ChapterPlace>) -> Option<Unsettled>
    ensures { result ≡ option_map (λ (chapter : ChapterPlace).
        Unsettled.ChapterDiffers chapter.extent chapter.index) place }
{
    place.map(|chapter| Unsettled::ChapterDiffers {
        extent: chapter.extent,
        index: chapter.index,
    })
}

/// The first cause that a call is by its receipt and its entries, where no extent and no chapter is
/// one. If there is none, then each call has its receipt and each receipt its call.
pub(crate) fn cause_in_calls<R: Threads + Sync>(
    rt: &R,
    alloc: Global,
    run: &Run<'_>,
    chapters: &ChapterTable<'_>,
) -> Result<Option<Unsettled>, AllocError>
    requires { chapters.now ≡ run.now.closed.now }
    ensures cause { IfOk result (IsFirstInCalls (shown run.now)) }
    ensures matched { IfOk result (λ cause. IfNone cause
        (HoldsNowhere (IsUnmatched (shown run.now).calls (shown run.now).receipts))) }
{
    if let Some(place) = first_unmatched(rt, run.receipts, run.calls) {
        return Ok(Some(Unsettled::CallMissing {
            client: place.client,
            number: place.number,
        }));
    }
    let logs = LogTable::new(alloc, chapters)?;
    let Placed { table, extra } = place_entries(rt, alloc, &logs, run.receipts)?;
    if let Some(place) = extra {
        return Ok(Some(Unsettled::ReceiptMissing {
            client: place.client,
            number: place.number,
        }));
    }
    let differing = Differing {
        logs: &logs,
        table: &table,
        receipts: run.receipts,
        calls: run.calls,
    };
    if let Some(place) = first_differing(rt, &differing) {
        return Ok(Some(Unsettled::ReplyDiffers {
            client: place.client,
            number: place.number,
        }));
    }
    if let Some(place) = first_falling(rt, run.receipts) {
        return Ok(Some(Unsettled::StampOrder {
            client: place.client,
            number: place.number,
        }));
    }
    Ok(None)
}

/// The first call without a home whose key names a subscriber, where there is no cause before it.
pub(crate) fn cause_without_home(
    alloc: Global,
    run: &Run<'_>,
    chapters: &ChapterTable<'_>,
) -> Result<Option<Unsettled>, AllocError>
    requires clean { IsClean run.now.population.now }
    requires gathered { chapters.now ≡ run.now.closed.now }
    ensures { IfOk result (IsFirstAfter 10 11 (shown run.now)) }
{
    let directory = Directory::of_clean(alloc, run.population)?;
    Ok(home_cause(first_homed(alloc, &directory, chapters)?))
}

/// The cause that the call has a home.
fn home_cause(place: Option<CallPlace>) -> Option<Unsettled>
    ensures { result ≡ option_map (λ (call : CallPlace).
        Unsettled.HasHome call.client call.number) place }
{
    place.map(|call| Unsettled::HasHome {
        client: call.client,
        number: call.number,
    })
}
