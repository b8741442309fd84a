//! The rows of the system, written as lines.
ghost use Rattle.std.specs.Prelude.{◌≡◌, ◌++◌, true, IfSome, OnOk, OnErr};
ghost use Rattle.std.specs.Io.KnownBytes.{Appends};
ghost use Rattle.std.specs.String.{string_bytes};
ghost use Rattle.tatp_tables.specs.Database.{of_subscriber};
ghost use Rattle.tatp_trace_lines.specs.HomeText.{home_text};
ghost use Rattle.tatp_dispatch.specs.Gathered.{gathered};
ghost use Rattle.tatp_dispatch.specs.Shown.{set_back};
ghost use Rattle.tatp_streams.specs.Writing.{AppendsFront};
ghost use Rattle.tatp_console.specs.RowsWritten.{rows_told};

use std::alloc::Global;
use std::io::Write;
use tatp_dispatch::World;
use tatp_homes::Home;
use tatp_limits::MAX_PARTITIONS;
use tatp_streams::{StreamFault, write_if_full, write_last};
use tatp_trace_lines::home_text;

/// Whether no call runs; then the database with all running calls set back is the gathered one.
#[tactic(auto, using(crate::proofs::RowsLaws::rest_from_start, crate::proofs::RowsLaws::rest_at_one_more, crate::proofs::RowsLaws::nothing_back))]
pub(crate) fn is_at_rest(world: &World<'_>) -> bool
    ensures { result ≡ true → set_back world.now ≡ gathered world.now }
{
    'sites: for p in 0..MAX_PARTITIONS as u64 + 1 {
        let Some(site) = world.site(p) else {
            return true;
        };
        match site.client() {
            Some(_) => return false,
            None => {}
        }
    }
    false
}

/// The home of a subscriber, at whichever site it is.
#[tactic(auto, using(crate::proofs::RowsLaws::home_found))]
fn home_in<'w>(world: &'w World<'_>, s_id: u64) -> Option<&'w Home>
    ensures { IfSome result
        (λ home. of_subscriber (gathered world.now) s_id ≡ home.now.tables) }
{
    'sites: for p in 0..MAX_PARTITIONS as u64 {
        let Some(site) = world.site(p) else {
            return None;
        };
        if let Ok(home) = site.home_rows(s_id) {
            return Some(home);
        }
    }
    None
}

/// Appends the rows of a subscriber.
#[tactic(auto, using(crate::proofs::RowsLaws::home_pushed))]
fn push_home(
    alloc: Global,
    world: &World<'_>,
    s_id: u64,
    pending: &mut String,
) -> Result<(), StreamFault>
    ensures { OnOk result (string_bytes pending.new
        ≡ string_bytes pending.old ++ home_text (of_subscriber (gathered world.now) s_id)) }
{
    let Some(home) = home_in(world, s_id) else {
        return Err(StreamFault::NoMemory);
    };
    let text = home_text(alloc, home)?;
    pending.push_str(text.as_str())?;
    Ok(())
}

/// Writes a line `.` and the rows of all subscribers, as they are now.
#[tactic(auto, using(crate::proofs::RowsLaws::nothing_written, crate::proofs::RowsLaws::rows_start, crate::proofs::RowsLaws::rows_next, crate::proofs::RowsLaws::rows_so_far, crate::proofs::RowsLaws::rows_cut, crate::proofs::RowsLaws::rows_end, crate::proofs::RowsLaws::rows_end_cut))]
fn write_homes<W: Write>(
    alloc: Global,
    world: &World<'_>,
    subscribers: u64,
    writer: &mut W,
) -> Result<(), StreamFault>
    ensures ok { OnOk result (Appends (W.contents writer.old) (W.contents writer.new)
        (rows_told subscribers (gathered world.now))) }
    ensures front { OnErr result (AppendsFront (rows_told subscribers (gathered world.now))
        (W.contents writer.old) (W.contents writer.new)) }
{
    let mut pending = String::new(alloc);
    pending.push_str(".\n")?;
    'homes: for before in 0..subscribers {
        push_home(alloc, world, before + 1, &mut pending)?;
        write_if_full(writer, &mut pending)?;
    }
    write_last(writer, pending.as_bytes())
}

/// Writes a line `.` and the rows of all subscribers, where no call runs: subscriber by subscriber,
/// and those of each table by table and by key. In a run of calls each call ends before the next
/// line, so none runs here; if one did, the fault would be [`StreamFault::NoMemory`].
#[tactic(auto, using(crate::proofs::RowsLaws::written_at_rest, crate::proofs::RowsLaws::cut_at_rest, crate::proofs::RowsLaws::nothing_written))]
pub(crate) fn write_rows<W: Write>(
    alloc: Global,
    world: &World<'_>,
    subscribers: u64,
    writer: &mut W,
) -> Result<(), StreamFault>
    ensures ok { OnOk result (Appends (W.contents writer.old) (W.contents writer.new)
        (rows_told subscribers (set_back world.now))) }
    ensures front { OnErr result (AppendsFront (rows_told subscribers (set_back world.now))
        (W.contents writer.old) (W.contents writer.new)) }
{
    if is_at_rest(world) {
        write_homes(alloc, world, subscribers, writer)
    } else {
        Err(StreamFault::NoMemory)
    }
}
