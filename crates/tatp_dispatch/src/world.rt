//! The system: all sites, what is under way between them, and the clients.
ghost use Rattle.std.specs.Prelude.{◌≡◌, ◌<◌, ◌≤◌, IfErr, IfOk, length};
ghost use Rattle.tatp_events.specs.declared.refusal.Refusal.TheVariants.{NoPartition};

mod applying;
mod beginning;
mod calling;
mod checkpointing;
mod closing;
mod gathering;
mod getters;
mod moving;
mod opening;
mod routing;
mod stepping;
mod stopping;
mod submitting;

use crate::Refusal;
use crate::client::Client;
use crate::queue::Queue;
pub(crate) use getters::what_holds_of_every_world;
use std::marker::Model;
use tatp_extents::Chapter;
use tatp_loader::Loaded;
use tatp_logs::Completions;
use tatp_move::Routes;
use tatp_numbers::Directory;
use tatp_partition::{CompletionBuffer, Landed, Parcel, Site, Slots};

/// All sites, with what is under way between them. It can be neither copied nor dropped.
pub struct World<'m> {
    loaded: &'m Loaded,
    directory: Directory,
    sites: Vec<Site<'m>>,
    queues: Vec<Queue>,
    routes: Routes,
    parcels: Slots<Parcel>,
    landings: Vec<Landed>,
    clients: Vec<Client>,
    completions: Completions,
    chapters: Vec<Chapter>,
    /// A site writes the completion of a call that ends to it. It is empty between events.
    /// [`CompletionBuffer`] says why.
    buffer: CompletionBuffer,
}

impl<'m> Model for World<'m> {
    ghost use Rattle.tatp_dispatch.specs.Worlds.{WorldState, world_state_code};

    ghost Value = { WorldState };

    ghost coded = { world_state_code };

    ghost use Rattle.tatp_dispatch.specs.Fields.{world_of, IsSound};

    ghost view = { world_of };

    ghost invariant = { IsSound };
}

/// Whether there is such a partition.
fn check_partition(sites: &[Site<'_>], p: u64) -> Result<(), Refusal>
    ensures there { IfOk result (λ _. p < length sites.now) }
    ensures none { IfErr result (λ refusal. (refusal ≡ NoPartition) × (length sites.now ≤ p)) }
{
    if p < sites.len() as u64 {
        Ok(())
    } else {
        Err(Refusal::NoPartition)
    }
}
