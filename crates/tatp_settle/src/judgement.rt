//! The verdict on a run: settled, or its first cause.
ghost use Rattle.std.specs.Prelude.{◌≡◌, ◌<◌, ◌^◌, ℕ, IfOk, IfErr, OnOk, length};
ghost use Rattle.std.specs.Result.{result_err};
ghost use denote.Param.Send.{IsSync};
ghost use Rattle.tatp_tables.specs.Clean.{IsClean};
ghost use Rattle.tatp_settle.specs.Causes.{IsMixed, IsChapterTwice, HasNoCause};
ghost use Rattle.tatp_settle.specs.ChapterTables.{IsFirstChapter};
ghost use Rattle.tatp_logs.specs.Lists.{lists_of};
ghost use Rattle.tatp_settle.specs.Runs.{joined, rows_left, shown};
ghost use Rattle.tatp_settle.specs.CauseOrder.{IsFirstAfter, IsFirstInCalls};
ghost use Rattle.tatp_settle.specs.Settlements.{AreCountsOf, IsAuditOf, IsSettled, RefusesToSettle};

use crate::chapter_table::{ChapterTable, Listed};
use crate::counts::{Counts, count_all};
use crate::first_cause::{cause_in_calls, cause_without_home, chapter_cause, extent_cause};
use crate::places::ChapterPlace;
use crate::rows::{count_moves, rows_now};
use crate::run::Run;
use crate::{SettleError, Settled, Unsettled};
use std::alloc::{AllocError, Global};
use std::thread::{Threads, join};
use tatp_audits::{Verdict, audit};

/// What a settled run counts, or why the run isn't settled.
pub(crate) fn judge<R: Threads + Sync>(
    rt: &R,
    alloc: Global,
    run: &Run<'_>,
) -> Result<Settled, SettleError>
    requires clean { IsClean run.now.population.now }
    requires few { length (joined (lists_of run.now.calls.now)) < 2 ^ 64 }
    ensures settled { IfOk result (IsSettled (shown run.now)) }
    ensures no_cause { OnOk result (HasNoCause (shown run.now)) }
    ensures refusal { IfErr result (RefusesToSettle (shown run.now)) }
{
    run.closed.what_holds();
    if let Some(cause) = extent_cause(run) {
        return Err(SettleError::Because(cause));
    }
    let Listed { chapters, twice } = ChapterTable::new(alloc, run.closed)?;
    let Judged {
        chapters: in_chapters,
        audit: audited,
        calls: in_calls,
    } = judge_apart(rt, alloc, run, &chapters, twice);
    if let Some(cause) = in_chapters? {
        return Err(SettleError::Because(cause));
    }
    let counts = match in_calls? {
        Ok(counts) => counts,
        Err(cause) => return Err(SettleError::Because(cause)),
    };
    if let Some(cause) = cause_without_home(alloc, run, &chapters)? {
        return Err(SettleError::Because(cause));
    }
    let verdict = audited?;
    if !verdict.is_clean() {
        return Err(SettleError::Because(Unsettled::Audit(verdict)));
    }
    let ((completed, refused), kinds) = counts;
    Ok(Settled {
        completed,
        refused,
        kinds,
        verdict,
        moves: count_moves(run),
    })
}

/// What can be judged apart.
struct Judged {
    /// The first cause that a chapter is, where no extent is one.
    chapters: Result<Option<Unsettled>, AllocError>,
    /// The verdict on the rows now.
    audit: Result<Verdict, AllocError>,
    /// What `judge_calls` gives.
    calls: Result<Result<Counts, Unsettled>, AllocError>,
}

/// What can be judged apart, each by a thread of its own, where one can be made.
fn judge_apart<R: Threads + Sync>(
    rt: &R,
    alloc: Global,
    run: &Run<'_>,
    chapters: &ChapterTable<'_>,
    twice: Option<ChapterPlace>,
) -> Judged
    requires clean { IsClean run.now.population.now }
    requires gathered { chapters.now ≡ run.now.closed.now }
    requires twice { IsFirstChapter (IsChapterTwice chapters.now) twice }
    requires unmixed { (e : ℕ) → IsMixed chapters.now e → ⊥ }
    requires few { length (joined (shown run.now).calls) < 2 ^ 64 }
    ensures chapters { IfOk result.chapters (IsFirstAfter 3 6 (shown run.now)) }
    ensures audit { IfOk result.audit (IsAuditOf (rows_left (shown run.now))) }
    ensures calls { IfOk result.calls
        (λ judged. IsFirstInCalls (shown run.now) (result_err judged)) }
    ensures counts { IfOk result.calls (λ judged. IfOk judged (AreCountsOf (shown run.now))) }
{
    let in_chapters = || -> Result<Option<Unsettled>, AllocError>
        requires { IsClean run.now.population.now
            × (chapters.now ≡ run.now.closed.now)
            × IsFirstChapter (IsChapterTwice chapters.now) twice
            × ((e : ℕ) → IsMixed chapters.now e → ⊥) }
        ensures { IfOk result (IsFirstAfter 3 6 (shown run.entry.now)) }
    { chapter_cause(alloc, run, chapters, twice) };
    let rest = || -> (
        Result<Verdict, AllocError>,
        Result<Result<Counts, Unsettled>, AllocError>,
    )
        requires { IsSync R.row
            × (chapters.now ≡ run.now.closed.now)
            × (length (joined (shown run.now).calls) < 2 ^ 64) }
        ensures audit { IfOk result.0 (IsAuditOf (rows_left (shown run.entry.now))) }
        ensures calls { IfOk result.1
            (λ judged. IsFirstInCalls (shown run.entry.now) (result_err judged)) }
        ensures counts { IfOk result.1
            (λ judged. IfOk judged (AreCountsOf (shown run.entry.now))) }
    { audit_beside_calls(rt, alloc, run, chapters) };
    let (chapters, (audit, calls)) = join(rt, in_chapters, rest);
    Judged {
        chapters,
        audit,
        calls,
    }
}

/// The verdict on the rows now, and what `judge_calls` gives: each by a thread of its own, where
/// one can be made.
fn audit_beside_calls<R: Threads + Sync>(
    rt: &R,
    alloc: Global,
    run: &Run<'_>,
    chapters: &ChapterTable<'_>,
) -> (
    Result<Verdict, AllocError>,
    Result<Result<Counts, Unsettled>, AllocError>,
)
    requires gathered { chapters.now ≡ run.now.closed.now }
    requires few { length (joined (shown run.now).calls) < 2 ^ 64 }
    ensures audit { IfOk result.0 (IsAuditOf (rows_left (shown run.now))) }
    ensures calls { IfOk result.1 (λ judged. IsFirstInCalls (shown run.now) (result_err judged)) }
    ensures counts { IfOk result.1 (λ judged. IfOk judged (AreCountsOf (shown run.now))) }
{
    let audited = || -> Result<Verdict, AllocError>
        ensures { IfOk result (IsAuditOf (rows_left (shown run.entry.now))) }
    { audit_left(alloc, run) };
    let in_calls = || -> Result<Result<Counts, Unsettled>, AllocError>
        requires { IsSync R.row
            × (chapters.now ≡ run.now.closed.now)
            × (length (joined (shown run.now).calls) < 2 ^ 64) }
        ensures calls { IfOk result
            (λ judged. IsFirstInCalls (shown run.entry.now) (result_err judged)) }
        ensures counts { IfOk result (λ judged. IfOk judged (AreCountsOf (shown run.entry.now))) }
    { judge_calls(rt, alloc, run, chapters) };
    join(rt, audited, in_calls)
}

/// The verdict on the rows now.
fn audit_left(alloc: Global, run: &Run<'_>) -> Result<Verdict, AllocError>
    ensures { IfOk result (IsAuditOf (rows_left (shown run.now))) }
{
    let rows = rows_now(alloc, run)?;
    audit(alloc, &rows)
}

/// What receipts and calls count, where no call is a cause by its receipt and its entries; else the
/// first that is, where no extent and no chapter is one.
fn judge_calls<R: Threads + Sync>(
    rt: &R,
    alloc: Global,
    run: &Run<'_>,
    chapters: &ChapterTable<'_>,
) -> Result<Result<Counts, Unsettled>, AllocError>
    requires gathered { chapters.now ≡ run.now.closed.now }
    requires few { length (joined (shown run.now).calls) < 2 ^ 64 }
    ensures cause { IfOk result (λ judged. IsFirstInCalls (shown run.now) (result_err judged)) }
    ensures counts { IfOk result (λ judged. IfOk judged (AreCountsOf (shown run.now))) }
{
    match cause_in_calls(rt, alloc, run, chapters)? {
        Some(cause) => Ok(Err(cause)),
        None => Ok(Ok(count_all(rt, run))),
    }
}
