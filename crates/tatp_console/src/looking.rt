//! What can be seen of a site.
ghost use Rattle.std.specs.Prelude.{◌≡◌, IfOk};
ghost use Rattle.std.specs.String.{string_bytes};
ghost use Rattle.tatp_console.specs.Looking.{TellsLook, TellsSeen, found_text, home_told, told_line};
ghost use Rattle.tatp_partition.specs.Sites.{home_here};
ghost use Rattle.tatp_trace_lines.specs.AnswerText.{refused_text};

use std::alloc::{AllocError, Global};
use tatp_dispatch::World;
use tatp_events::Refusal;
use tatp_partition::Site;
use tatp_trace_lines::{home_text, refused_text};

/// The running call of a partition's site, in four lines; or why there is none to be seen.
pub fn look_text(alloc: Global, world: &World<'_>, partition: u64) -> Result<String, AllocError>
    ensures { IfOk result (λ text. TellsLook world.now partition (string_bytes text)) }
{
    match world.site(partition) {
        None => refused_line(alloc, Refusal::NoPartition),
        Some(site) => seen_text(alloc, site),
    }
}

fn seen_text(alloc: Global, site: &Site<'_>) -> Result<String, AllocError>
    ensures { IfOk result (λ text. TellsSeen site.now (string_bytes text)) }
{
    match site.look() {
        Ok(snapshot) => format!(in alloc; "{snapshot}\n"),
        Err(refusal) => refused_line(alloc, Refusal::Site(refusal)),
    }
}

/// The home of a subscriber at a partition's site, a line for each row; or why it isn't to be seen.
pub fn home_lines(
    alloc: Global,
    world: &World<'_>,
    partition: u64,
    s_id: u64,
) -> Result<String, AllocError>
    ensures { IfOk result (λ text. string_bytes text ≡ home_told world.now partition s_id) }
{
    match world.site(partition) {
        None => refused_line(alloc, Refusal::NoPartition),
        Some(site) => found_text(alloc, site, s_id),
    }
}

fn found_text(alloc: Global, site: &Site<'_>, s_id: u64) -> Result<String, AllocError>
    ensures { IfOk result (λ text. string_bytes text ≡ found_text (home_here site.now s_id)) }
{
    match site.home_rows(s_id) {
        Ok(home) => home_text(alloc, home),
        Err(refusal) => refused_line(alloc, Refusal::Site(refusal)),
    }
}

fn refused_line(alloc: Global, refusal: Refusal) -> Result<String, AllocError>
    ensures { IfOk result (λ text. string_bytes text ≡ told_line (refused_text refusal)) }
{
    let mut text = refused_text(alloc, &refusal)?;
    text.push_str("\n")?;
    Ok(text)
}
