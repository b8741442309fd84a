//! The windows of all subscribers, by s_id from 1 on.
ghost use Rattle.std.specs.Prelude.{◌≡◌, ◌+◌, ◌-◌, ◌<◌, ◌≤◌, ◌^◌, ℕ, suc, [], Some, IfOk, IfSome, OnOk, List, length, slice_get, false};
ghost use Rattle.tatp_tables.specs.Database.{Database};
ghost use Rattle.tatp_history.specs.declared.line.Line.{Line as ALine};
ghost use Rattle.tatp_history.specs.Events.{TimesRise};
ghost use Rattle.tatp_judge.specs.declared.window.Window.{Window as AWindow};
ghost use Rattle.tatp_judge.specs.Asked.{asked_on};
ghost use Rattle.tatp_judge.specs.Searched.{AreHomesOf};
ghost use Rattle.tatp_judge.specs.Steps.{AreEach, ClosesAt, AsksCall, EndsCall, asks_on};
ghost use Rattle.tatp_judge.specs.Windows.{IsForgotten, IsWindowAfter};

use crate::asked::Asked;
use crate::window::Window;
use std::alloc::{AllocError, Global};
use tatp_history::{Line, Observed};
use tatp_homes::Home;
use tatp_linearization::Standing;

/// The windows of these homes, before any line.
pub(crate) fn windows_of(
    alloc: Global,
    homes: &[Home],
    most: usize,
    exact: bool,
) -> Result<Vec<Window>, AllocError>
    ensures count { IfOk result (λ windows. length windows.items ≡ length homes.now) }
    ensures none { IfOk result (λ windows. (place : ℕ) (w : AWindow)
        → slice_get windows.items place ≡ Some w → IsForgotten w) }
    ensures kept { IfOk result (λ windows. (place : ℕ) (w : AWindow)
        → slice_get windows.items place ≡ Some w → w.aside ≡ false) }
    ensures exact { IfOk result (λ windows. (place : ℕ) (w : AWindow)
        → slice_get windows.items place ≡ Some w → w.explanations.exact ≡ exact) }
    ensures windows { IfOk result (λ windows. (u : Database) → AreHomesOf u homes.now
        → (place : ℕ) (w : AWindow) → slice_get windows.items place ≡ Some w
        → IsWindowAfter u most (suc place) [] w) }
{
    let mut windows = Vec::with_capacity(alloc, homes.len())?;
    'homes: for i in 0..homes.len() {
        windows.push(Window::new(alloc, &homes[i], most, exact)?)?;
    }
    Ok(windows)
}

/// The open call ends by the line of this number, if it is on a subscriber.
pub(crate) fn end_in(
    windows: &mut Vec<Window>,
    asked: &Asked,
    number: u64,
    line: &Line,
) -> Result<(), AllocError>
    requires within { IfSome asked.now.s_id (λ s. (1 ≤ s) × (s ≤ length windows.old.items)) }
    requires some { (place : ℕ) (w : AWindow) → asked.now.s_id ≡ Some (suc place)
        → slice_get windows.old.items place ≡ Some w → 0 < w.waiting }
    requires rise { (place : ℕ) (w : AWindow) → slice_get windows.old.items place ≡ Some w
        → w.aside ≡ false → TimesRise w.events.items }
    ensures { OnOk result (AreEach (λ place.
        EndsCall (asked_on (suc place) (Some asked.now)) number line.now)
        windows.old.items windows.new.items) }
{
    match asked.s_id {
        Some(s_id) => windows[s_id as usize - 1].end(asked.number, number, line),
        None => Ok(()),
    }
}

/// A call is asked, if it is on a subscriber.
pub(crate) fn ask_in(
    windows: &mut Vec<Window>,
    s_id: Option<u64>,
    x: &Observed,
) -> Result<(), AllocError>
    requires within { IfSome s_id (λ s. (1 ≤ s) × (s ≤ length windows.old.items)) }
    requires few { (place : ℕ) (w : AWindow) → slice_get windows.old.items place ≡ Some w
        → w.waiting + 1 < 2 ^ 64 }
    ensures { OnOk result (AreEach (λ place. AsksCall (asks_on (suc place) s_id x.now))
        windows.old.items windows.new.items) }
{
    match s_id {
        Some(s_id) => windows[s_id as usize - 1].ask(x),
        None => Ok(()),
    }
}

/// After the line of this number the subscriber's window ends, if no call is open.
pub(crate) fn close_in(
    alloc: Global,
    windows: &mut Vec<Window>,
    s_id: u64,
    number: u64,
) -> Result<Standing, AllocError>
    requires within { (1 ≤ s_id) × (s_id ≤ length windows.old.items) }
    requires window { (w : AWindow) → slice_get windows.old.items (s_id - 1) ≡ Some w
        → (u : Database) × (most : ℕ) × (lines : List ALine) × IsWindowAfter u most s_id lines w }
    ensures { IfOk result (λ standing.
        AreEach (ClosesAt s_id number standing) windows.old.items windows.new.items) }
{
    windows[s_id as usize - 1].close(alloc, number)
}
